//! The tests of the numbers, places and answers.
#![tactic(auto)]

#[cfg(test)]
mod tests;
