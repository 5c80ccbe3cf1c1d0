//! Histories of threads, mutexes, conditions and alerts, worked out by hand.
#![tactic(auto)]

#[cfg(test)]
mod tests;
