//! What a machine is, as definitions (`specs/`): its state, what each instruction makes of it, what
//! a collection leaves, the point between two turns, and a run. Beside them stand the calls that
//! need no more than a thread's own place: frames entered and left, methods, and types of cells
//! (`near`).
#![tactic(auto)]

pub mod near;
mod progress;

pub use near::{Place, Stack};
pub use progress::Progress;
