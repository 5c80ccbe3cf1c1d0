//! The walk over all names of a unit's text, which declares and looks up each.
#![tactic(auto)]

mod statements;

pub use statements::{walk_declarations, walk_statements};
