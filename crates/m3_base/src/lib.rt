//! The numbers, places and answers that every crate of m3c speaks of.
#![tactic(auto)]

mod byte_list;
mod least;
mod memory;
mod outcomes;
mod places;
mod refusals;
pub mod rules;
mod schedules;

pub use byte_list::Bytes;
pub use least::Least;
pub use memory::{NoMemory, gap, place_number};
pub use outcomes::{Entry, FaultKind, Options, Outcome, fault_name};
pub use places::{Pos, Source};
pub use refusals::{Refusal, Refused};
pub use rules::rule_text;
pub use schedules::{ScheduleRefusal, read_schedule};
