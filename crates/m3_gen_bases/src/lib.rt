//! From which references the addresses into cells come, and where these are kept (Diwan, Moss and
//! Hudson, PLDI 1992).
#![tactic(auto)]

mod analysis;
mod basing;
mod keeping;
mod plans;
mod relevance;
mod rewriting;
mod shapes;
mod sources;
mod stability;

pub use basing::find_bases;
pub use plans::{Base, Based, Derivation, WayPlan, kind_of};
