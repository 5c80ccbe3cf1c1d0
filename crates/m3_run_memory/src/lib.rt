//! The words of a machine: the stacks of its threads, its globals, its constants and its heap. Each
//! address holds a word of one of them, or nothing.
#![tactic(auto)]

mod memory;
mod outside;

pub use memory::Memory;
pub use outside::Outside;
