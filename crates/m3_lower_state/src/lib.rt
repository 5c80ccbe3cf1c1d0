//! A procedure of middle code in the making: code that grows at its front, blocks, temporaries and
//! slots, and the operations that load, store and copy the words of places.
#![tactic(auto)]

mod builder;
mod copies;
mod operations;
mod pending;
mod places;
mod values;

pub use builder::{Around, Builder};
pub use copies::{
    clear, cleared_value, copy_row, copy_words, load_words, set, slots_of, store_words, zero_words,
};
pub use operations::{arith, check, choice, compare, not_nil, temp_in};
pub use pending::Pending;
pub use places::{
    Location, Place, added, address_kind, address_of, load_at, load_word, set_temp, store_word,
    take_address,
};
pub use values::{Value, form_of, kind_of, kind_of_form};
