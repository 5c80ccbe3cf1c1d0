//! Revelations: where each applies, and what it has to keep (rule 45).
#![tactic(auto)]

mod judging;
mod telling;

pub use judging::judge_reveals;
pub use telling::{list_reveals, note_reveals};
