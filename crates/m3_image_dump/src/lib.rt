//! The text of an image: its procedures with their instructions, the rows of its points, and its
//! variables.
#![tactic(auto)]

mod lines;
mod names;
mod rows;
mod words;

pub use lines::dump;
pub use names::name_of;
