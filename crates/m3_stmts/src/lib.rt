//! Checked statements and procedures: from the tree of a body to its checked form, or the rules
//! that it breaks (the report, sections 2.3 and 2.4).
#![tactic(auto)]

mod branches;
mod loops;
mod procedures;
mod scopes;
mod sequences;

pub use procedures::procedure;
pub use sequences::statements;
