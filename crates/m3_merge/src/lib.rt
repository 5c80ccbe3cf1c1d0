//! Calls that end both arms of an IF are one call, where they are equal but for their actuals. Then
//! an actual by reference may have two origins.
#![tactic(auto)]

mod arms;
mod merging;

pub use merging::try_merge;
