//! Calls in constant expressions, whose actuals are taken one by one: of procedures, the routines
//! of Word, predeclared routines (`routines`) and NEW.
#![tactic(auto)]

mod actuals;
mod calls;
mod news;
mod routines;
mod words;

pub use calls::{Called, begun, given_by, with_actual};
