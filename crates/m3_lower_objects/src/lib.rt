//! How values of a type are kept, where the fields and methods of objects stand, and the numbers of
//! the types of heap cells.
#![tactic(auto)]

mod cells;
mod forms;
mod objects;

pub use cells::{Cells, TEXT_CELL, THREAD_CELL};
pub use forms::{Form, bounds, form_of, members, node_of, number_of, word_number, words_of};
pub use objects::{Objects, parent_of, unveiled};
