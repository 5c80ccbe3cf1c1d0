//! What `^`, a dot and an index make of what stands before them in constant expressions; methods
//! as constants.
#![tactic(auto)]

mod method_constants;
mod places;

pub use places::{Index, dereference, dot, element};
