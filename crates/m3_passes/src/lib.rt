//! The passes that make middle code better, one after the other.
#![tactic(auto)]

mod improving;

pub use improving::{Improved, PASSES, improve};
