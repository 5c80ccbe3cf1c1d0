//! The heap: cells that a collection moves, behind one trait, and Cheney's copying collector.
#![tactic(auto)]

mod closed;
mod copying;
mod half;
mod halves;
mod maps;
mod marks;
mod pair;
mod semi_space;
mod steps;
mod store;

pub use closed::Closed;
pub use copying::{Copying, scan};
pub use half::Half;
pub use maps::Maps;
pub use marks::Marks;
pub use semi_space::SemiSpace;
pub use steps::Steps;
pub use store::Store;
