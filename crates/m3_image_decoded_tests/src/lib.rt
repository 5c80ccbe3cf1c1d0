//! The tests of images made ready to run, at their real sizes.
#![tactic(auto)]

#[cfg(test)]
mod tests;
