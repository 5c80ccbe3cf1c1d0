//! The parts of a machine, and the instructions that make cells: fixed and open ones, texts, and
//! the cells of threads. A cell that doesn't fit has one collection first.
#![tactic(auto)]

mod cells;
mod collections;
mod forks;
mod parts;
mod running;
mod texts;

pub use parts::Parts;
