//! The outermost scopes of units: what each is, imports, declares and exports (rules 20, 21, 23 and
//! 24).
#![tactic(auto)]

mod bodies;
mod outermost;

pub use outermost::{add_infos, declare_units, judge_units, walk_units};
