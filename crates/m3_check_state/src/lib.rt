//! What an operand of an expression is, and what checks expressions: where it stands, what it
//! knows and what it noted (the report, sections 2.2 and 2.6.1).
#![tactic(auto)]

mod checker;
mod constants;
mod kinds;
mod things;

pub use checker::{Checker, Held, Variable};
pub use things::{Change, Draft, Given, Method, State, Thing, Valued};
