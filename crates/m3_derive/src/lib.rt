//! From middle code to what a collector has to know at each point: which temporaries are tidy
//! pointers, and from which tidy pointers each derived pointer comes (Diwan, Moss and Hudson, PLDI
//! 1992).
#![tactic(auto)]

mod active;
mod planning;
mod plans;
mod rows;

pub use m3_gen_bases::{Base, Derivation, WayPlan};
pub use planning::derive;
pub use plans::{Derived, RowPlan};
