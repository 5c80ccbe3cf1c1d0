//! The tables of an image: for each point of the code, where the words are that a collector has to
//! know of.
#![tactic(auto)]

mod bounds;
mod derivation;
mod fields;
mod form;
mod marks;
mod numbers;
mod place;
mod row;
mod rows;
mod section;
mod table;
mod tidy;

pub use derivation::Derivation;
pub use fields::{Entries, WayView, Ways, list_at, word_at};
pub use numbers::{Numbers, word};
pub use place::Location;
pub use row::Row;
pub use table::{TableFront, TableView};
