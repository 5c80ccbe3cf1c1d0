//! The threads of the machine: who they are, who may go, who goes, and what the instructions on
//! threads, mutexes and conditions do to them.
#![tactic(auto)]

mod alerts;
mod answers;
mod choice;
mod forks;
mod joins;
mod list;
mod mutexes;
mod readers;
mod stacks;
mod status;
mod threads;

pub use answers::{Done, ThreadsFull};
pub use status::{Status, Thread};
pub use threads::Threads;
