//! The commands over sources: `build IMAGE FILE..`, `exec FILE..` and `bench N`; and every command
//! by its words.
#![tactic(auto)]

mod checking;
mod commands;
mod compiling;
mod imaging;
mod sources;

pub use checking::{Checker, Checks};
pub use commands::command;
