//! The values of a checked program as trees in an arena, what operators make of them, and the
//! places of values in others: what the definitions of `m3_values` say, carried out.
#![tactic(auto)]

mod arrays;
mod integers;
mod places;
mod sets;
mod values;
mod words;

pub use arrays::{
    LONGEST_ROW, appended, array_filled, array_of, as_shape, count, fits, part_of, row_of,
    same_shape, shape, up_to, with_part,
};
pub use integers::{
    absolute, difference, divided, is_between, modulo, negated, product, sum, within_integer,
};
pub use places::{Name, Place, Selector, Thing, further, value_in, value_with};
pub use sets::{
    difference_of, intersection, is_in, is_properly_within, is_within, symmetric_difference, union,
    with_member, with_range,
};
pub use values::{Value, number, same, truth};
pub use words::{word_function, word_test};
