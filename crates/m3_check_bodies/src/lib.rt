//! The body of a procedure while it is checked: its variables, and the procedure that it becomes.
#![tactic(auto)]

mod bodies;
mod definitions;
mod variables;

pub use bodies::{Body, NewVariable};
pub use definitions::{Heading, Procedures, define, known};
pub use variables::{bound_variable, declare_formals, declare_locals};
