//! The limits of a program: rules 90 to 95.
#![tactic(auto)]

mod cells;
mod limits;
mod lists;

pub use limits::judge_limits;
pub use lists::{Lists, WrittenType};
