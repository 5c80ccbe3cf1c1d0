//! How instructions run over a memory of several parts: an array of globals and a heap. What a
//! store keeps of the heap, an instruction keeps.
#![tactic(auto)]

mod parts;
mod steps;

pub use parts::Parts;
pub use steps::{run_over, step_over};

#[cfg(test)]
mod tests;
