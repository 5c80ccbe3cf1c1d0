//! Whether a procedure of middle code is well formed: each name in it stands for something, and
//! each operation takes and gives words of the kinds that it is defined for.
#![tactic(auto)]

mod calls;
mod memory;
mod operands;
mod operations;
mod ops;
mod procs;
mod services;

pub use operands::Surroundings;
pub use procs::{is_block, is_valid};
