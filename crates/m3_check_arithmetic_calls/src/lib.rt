//! Calls of predeclared routines on numbers: ABS, MAX, MIN, ORD, VAL, INC and DEC (rule 68).
#![tactic(auto)]

mod arithmetic;
mod given;

pub use arithmetic::{abs, change, extreme, ord, val};
pub use given::{built, integer_given, type_given};
