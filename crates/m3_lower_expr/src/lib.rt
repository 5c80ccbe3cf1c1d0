//! Expressions lowered to middle code, backward: the code that follows is handed in, and the
//! operations of an expression are put in front of it.
#![tactic(auto)]

mod calls;
mod chains;
mod conditions;
mod exprs;
mod new_cells;
mod rows;
mod structures;

pub use chains::emit_chain;
pub use conditions::condition;
pub use exprs::{emit_value, fetch, into_temp, into_temps};
pub use rows::builtin_into;
pub use structures::{emit_structure, structure_into};
