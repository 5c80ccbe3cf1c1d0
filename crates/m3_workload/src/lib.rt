//! The workload of `bench`: a program of twenty small units and a module Main with four threads,
//! and a schedule, each fixed by a number.
#![tactic(auto)]

mod schedules;
mod texts;

pub use schedules::schedule;
pub use texts::{Workload, make};
