//! The tables of an image, written: each row whole at every sixteenth, and else as what changed.
#![tactic(auto)]

mod comparing;
mod plain;
mod writing;

pub use plain::{DerivedPlain, RowPlain, Way};
pub use writing::write_rows;
