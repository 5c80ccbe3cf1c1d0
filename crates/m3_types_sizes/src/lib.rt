//! How many words the values of types take.
#![tactic(auto)]

mod sized;
mod words;

pub use sized::SizedTypes;
