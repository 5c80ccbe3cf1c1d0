//! Two arrays, one pointer: where a loop counts a variable and reads elements of several arrays by
//! it, one pointer moves along the first of them, and an element of another is at that pointer plus
//! the difference of the two references, which stands in a temporary while the loop runs.
#![tactic(auto)]

mod pairing;
mod partners;
mod places;

pub use pairing::try_pair;
