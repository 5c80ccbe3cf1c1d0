//! Computations and checks that are carried out once: an address, a load or a check that was
//! carried out before on every way is not carried out again.
#![tactic(auto)]

mod alive;
mod marks;
mod pairs;
mod renaming;
mod rewriting;
mod sharing;
mod temps;

pub use sharing::{share, try_share};
