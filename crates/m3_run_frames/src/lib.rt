//! The frames of a thread, from the newest to the oldest, by the rows of its image.
#![tactic(auto)]

mod frame;
mod walk;

pub use frame::Frame;
pub use walk::{frame_at, older_frame};
