//! Where each temporary of a procedure is: in a register, or in a slot of the frame.
#![tactic(auto)]

mod allocating;
mod busy;
mod choosing;
mod cover;
mod extents;
mod homes;
mod needs;
mod sharing;
mod slots;

pub use allocating::{Placed, allocate, outgoing_words};
pub use busy::Busy;
pub use needs::Idle;
