//! The grammar of Modula-3, as a relation between rows of tokens and trees, and its operators.
#![tactic(auto)]

mod kinds;
mod operators;

pub use kinds::{is_sign, is_word};
pub use operators::{Level, level_of, operator_of};
