//! From units to a linked program: revelations, bodies, the module Main, imports that lie on a
//! cycle (rule 22), and the order of module bodies (the report, section 2.5).
#![tactic(auto)]

mod bodies;
mod cycles;
mod linking;
mod mains;
mod order;
mod reveals;

pub use linking::link;
