//! The tests of the types.
#![tactic(auto)]

#[cfg(test)]
mod classes;
#[cfg(test)]
mod tests;
