//! The machine that runs images: it passes points, chooses threads, carries out their instructions
//! and collects the heap. Its states, steps and runs are defined in `m3_run_meaning`.
#![tactic(auto)]

mod acts;
mod calls;
mod inputs;
mod machine;
mod points;
mod readers;
mod runs;
mod start;
mod threading;
mod whole;

pub use machine::Machine;
pub use start::Stacks;
