//! A program that carries out middle code as it is defined: one thread, and a memory of numbered
//! parts. Tests compare what it gives with what a program has to give; nothing else stands on it.
#![tactic(auto)]

mod calls;
mod machine;
mod points;
mod services;
mod stepping;
mod words;

pub use machine::{CellType, Ending, Program, Stop, run};
