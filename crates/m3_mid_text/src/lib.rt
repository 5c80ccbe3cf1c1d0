//! Middle code as text: one line for each operation, with the blocks by their numbers.
#![tactic(auto)]

mod calls;
mod names;
mod operands;
mod operations;
mod procs;

pub use names::{operator_name, relation_sign, service_name, word_operator_name};
pub use operands::Text;
