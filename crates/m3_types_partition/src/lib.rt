//! Which types of a program are the same, for all of its types at once.
#![tactic(auto)]

mod classes;
mod heads;
mod marks;
mod partition;
mod uses;

pub use classes::Classes;
