//! Where a walk over the statements of a program stands: the checker of expressions, the bodies and
//! the rows that are open, and whether memory was wanting.
#![tactic(auto)]

mod memory;
mod rows;
mod walks;

pub use memory::Memory;
pub use rows::{Marks, Open, Rows};
pub use walks::Walk;
