//! From sources to a checked program, or the least of all broken rules.
#![tactic(auto)]

mod checking;

pub use checking::check;
