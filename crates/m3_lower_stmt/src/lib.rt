//! Statements and procedures lowered to middle code, backward: the code that follows is handed in.
#![tactic(auto)]

mod blocks;
mod branches;
mod exceptions;
mod loops;
mod procs;
mod statements;

pub use procs::lower_proc;
