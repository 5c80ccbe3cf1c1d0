//! Whether each definition of a graph of types has its form.
#![tactic(auto)]

mod forms;
mod graphs;
mod kinds;

pub use graphs::is_well_formed;
