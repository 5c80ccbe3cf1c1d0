//! The tests of the instructions.
#![tactic(auto)]

#[cfg(test)]
mod tests;
