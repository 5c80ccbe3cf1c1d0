//! What operators and signs make of operands in constant expressions, and when two constants are
//! equal.
#![tactic(auto)]

mod equal;
mod operators;
mod prefixes;

pub use prefixes::{denied, operated, signs_applied, thing_of};
