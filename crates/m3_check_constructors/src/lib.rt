//! Sets, arrays and records that are written out, whose parts were checked (the report, section
//! 2.6.8).
#![tactic(auto)]

mod arrays;
mod constructing;
mod parts;
mod records;
mod sets;

pub use constructing::constructor;
pub use parts::{Part, Written};
