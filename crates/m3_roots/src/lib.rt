//! A collection over all frames of all threads, by the rows of the image.
#![tactic(auto)]

mod apart;
mod bases;
mod collecting;
mod gathering;
mod listing;
mod lists;
mod marks;
mod places;
mod room;
mod tidy;
mod visits;
mod walk;

pub use collecting::collect;
pub use room::Room;
