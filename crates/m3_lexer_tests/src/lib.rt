//! The tests of the lexer.
#![tactic(auto)]

#[cfg(test)]
mod tests;
