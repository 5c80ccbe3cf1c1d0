//! What operators and routines make of constant values: integers, words, sets and texts.
#![tactic(auto)]

mod integers;
mod sets;
mod texts;
mod words;

pub use integers::{absolute, difference, negative, product, quotient, rest, sum};
pub use sets::{add_range, common, has, is_within, joined, unshared, without};
pub use texts::spelled;
pub use words::{WordRoutine, routine_named, word_routine};
