//! Operators between operands and before them (rule 50), and what `^`, a dot and an index make of
//! what stands before them (rules 51 and 57 to 59).
#![tactic(auto)]

mod operators;
mod prefixes;
mod selectors;

pub use operators::combined;
pub use prefixes::{nots, signed};
pub use selectors::{Index, dereference, dot, indexed};
