//! The memory of middle code as a program that carries it out keeps it: numbered parts of words,
//! and words that are numbers or places in a part. Tests stand on it alone.
#![tactic(auto)]

mod arithmetic;
mod memory;

pub use arithmetic::{combined, holds};
pub use memory::{CONSTANTS, Form, GLOBALS, Memory, Part, STALE, Word};
