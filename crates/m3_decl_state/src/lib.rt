//! What declares the types and constants of a program: what it knows, what its tasks note, and the
//! rules that they break.
#![tactic(auto)]

mod declarer;
mod doubts;
mod trees;

pub use declarer::{BrandAt, Declarer, MethodValue, Plan};
pub use doubts::{Doubtful, Doubts, Promise};
pub use trees::{Trees, Writings, Written};
