//! The statements, blocks and declarations of Modula-3, read off the tokens of a file.
#![tactic(auto)]

mod blocks;
mod branches;
mod declarations;
mod handlers;
mod heads;
mod jumps;
mod loops;
mod statements;

pub use blocks::block;
pub use declarations::declaration_list;
