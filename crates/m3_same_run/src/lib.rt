//! Whether each defined run of a procedure of middle code is a run of another, by a proof that is
//! checked: pairs of blocks, and what holds where the two procedures come to them.
#![tactic(auto)]

mod check;
mod going;
mod law;
mod standing;
mod verdicts;

pub use check::have_same_run;
pub use law::check_is_sound;
pub use verdicts::{Verdict, judged, unchanged};
