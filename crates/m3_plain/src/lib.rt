//! From a text of the plain form to what it puts: modules whose body prints whole numbers.
#![tactic(auto)]

mod lexing;
mod parsing;
mod plain;
mod reading;
mod tokens;

pub use plain::{Arith, Plain, PlainRefused};
pub use reading::read_plain;
