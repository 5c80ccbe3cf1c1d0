//! What a machine shows that has stopped: its globals, and the activations of its threads with the
//! variables that are in scope there.
#![tactic(auto)]

mod cells;
mod frames;
mod laws;
mod locals;
mod machines;
mod texts;
mod values;
mod views;

pub use laws::{
    collections_change_no_view, places_are_in_stacks, views_are_one, views_have_all_frames,
};
pub use machines::{Quiet, view};
pub use texts::text;
pub use values::{FrameView, ThreadView, Value, VarValue, View};
pub use views::{ViewRefused, view_of};
