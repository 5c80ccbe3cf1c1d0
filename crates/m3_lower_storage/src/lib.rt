//! Where a program keeps its things: the words of its variables, the fields and methods of its
//! objects, and the numbers of the types of its heap cells.
#![tactic(auto)]

mod defaults;
mod expressions;
mod heads;
mod statements;
mod storage;
mod uses;
mod variables;

pub use heads::Head;
pub use m3_lower_objects::{
    Cells, Form, Objects, TEXT_CELL, THREAD_CELL, bounds, form_of, number_of, parent_of, unveiled,
    word_number,
};
pub use storage::Storage;
pub use variables::{
    GlobalPlace, Room, VarPlace, is_shown, open_dims, stores_result, type_of_variable,
    words_of_variable,
};
