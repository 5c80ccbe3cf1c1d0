//! What an expression is worth before a program runs: the walk over its tree. It is recursive, as
//! deep as constructs are nested; what it makes of the parts is in the `m3_const_` crates, and what
//! it makes of sets, arrays and records that are written out stands here.
#![tactic(auto)]

mod expressions;
mod parts;

pub use expressions::expression;
