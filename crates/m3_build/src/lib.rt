//! The image of a checked program: its procedures lowered, with rows and places, and all its
//! sections.
#![tactic(auto)]

mod building;
mod code;

pub use building::build;
