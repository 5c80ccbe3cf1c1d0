//! Addresses that move along: where a loop counts a variable, the address of an element that goes
//! with it stands in a temporary, to which each turn adds a number.
#![tactic(auto)]

mod placing;
mod reducing;

pub use reducing::try_reduce;
