//! Calls of predeclared routines (rule 55), those on arrays and references among them, and NEW of a
//! type, with sizes or bindings (rules 60, 65 and 66).
#![tactic(auto)]

mod arrays;
mod methods;
mod news;
mod predeclared;
mod references;

pub use predeclared::predeclared_call;
