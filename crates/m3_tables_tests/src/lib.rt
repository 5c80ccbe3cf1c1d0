//! The tests of the tables.
#![tactic(auto)]

#[cfg(test)]
mod tests;
