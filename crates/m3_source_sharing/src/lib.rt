//! Which variables of the activations of a checked program somebody else can reach, as the
//! definitions of `m3_source_meaning` say it: a place of such a one gets out, or a procedure inside
//! its own names it.
#![tactic(auto)]

mod expressions;
mod marks;
mod statements;

pub use marks::shared_variables;
