//! When two types are the same: their definitions, written out without end, are equal (`sameness`).
//! When one type is a subtype of another or can be assigned to it, in the view of a unit.
#![tactic(auto)]

mod arrays;
mod assign;
mod assigning;
mod assumptions;
mod below;
mod direct;
mod heights;
mod named;
mod partition;
mod procedures;
mod raises;
mod reached;
mod relations;
mod sameness;
mod seen;
mod upward;

pub use assign::Assign;
pub use relations::{assignable, subtype};
pub use sameness::same;
pub use seen::structure;
