//! What a checked program lists: its procedures, variables, exceptions, texts and types, by their
//! numbers.
#![tactic(auto)]

mod globals;
mod listing;

pub use globals::is_given;
pub use listing::list_all;
