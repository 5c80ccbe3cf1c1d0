//! The tests of shelves and sinks in memory, and of files on a disk that gets full.
#![tactic(auto)]

#[cfg(test)]
mod small_disk;
#[cfg(test)]
mod tests;
