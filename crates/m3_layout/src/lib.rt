//! How the cells of a type are laid out: how many words they have, and which of these are
//! pointers.
#![tactic(auto)]

mod cells;
mod copies;
mod lines;
mod open;
mod tasks;
mod values;
mod walk;

pub use cells::{Shape, cell_shape, has_cell, shape_of_value};
