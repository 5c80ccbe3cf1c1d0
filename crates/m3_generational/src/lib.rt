//! A heap of generations: new cells are young, and a collection of the young cells alone leaves the
//! old ones where they are.
#![tactic(auto)]

mod copying;
mod forwarding;
mod generational;
mod generations;
mod remembering;
mod spaces;
mod tracing;

pub use generational::Generational;
