//! The types and constants of a program's declarations (the report, sections 2.2, 2.4 and
//! 2.6.15).
//!
//! `declare` goes in steps, each over a list: one walk gathers what is to be typed
//! (`m3_link_gather`); places in the graph, names and what no constant decides come first
//! (`m3_decl_types`); then the tasks are done that take constants (`m3_decl_solver`); and then the
//! rules are judged that take all types and constants (`m3_decl_rules`), here those on initial
//! values and labels.
#![tactic(auto)]

mod declaring;
mod judging;

pub use declaring::{Declarations, declare};
