//! What is known in the blocks of a procedure: which answers to questions are there on every way
//! to a place, and which temporaries hold sums of others.
#![tactic(auto)]

mod facts;
mod flow;
mod naming;
mod places;
mod walk;

pub use facts::{Answer, Facts, Held, MANY_ANSWERS, MANY_FACTS, fact_number};
pub use flow::Flow;
pub use places::{Holder, Places};
pub use walk::{Step, Walk};
