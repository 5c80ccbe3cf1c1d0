//! Loops that count a variable, the addresses that go with it, and what is kept in temporaries in
//! their places while the loop runs.
#![tactic(auto)]

mod findings;
mod loops;
mod pairs;
mod pointers;
mod sums;
mod temps;
mod writing;

pub use findings::{Access, Findings};
pub use loops::{Loop, loops_of, may_count};
pub use pointers::{Pointer, Stand, Sum, difference, distance, taken, times_in, without_number};
pub use writing::Written;
