//! Whether a checked tree is well formed: each place, type and number in it stands for something of
//! the kind that its node is defined for, and each call has the actuals that it needs. A judge
//! (`judge`) notes whether all that a node asked of the program around it is well formed.
#![tactic(auto)]

mod calls;
mod chains;
mod expressions;
mod judge;
mod program;
mod rows;
mod statements;
mod tables;

pub use program::is_well_formed;
