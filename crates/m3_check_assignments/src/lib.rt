//! Assignments and initial values, calls as statements, EVAL and RETURN (rules 51 to 53, 70, 72
//! and 82).
#![tactic(auto)]

mod assignments;

pub use assignments::{assign, call_statement, eval, give_back, initial_value, initial_values};
