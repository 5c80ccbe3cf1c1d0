//! The parser of Modula-3: the tokens of a file to its unit.
#![tactic(auto)]

mod units;

pub use units::parse;
