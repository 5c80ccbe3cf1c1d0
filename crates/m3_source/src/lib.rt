//! How large a checked program is: the words of each procedure's frame, and the size of its image,
//! by which the limits are judged; and the shapes of the arrays in it that constants fix.
#![tactic(auto)]

mod counts;
mod expressions;
mod frames;
mod images;
mod parts;
mod shapes;
mod statements;

pub use frames::{Sizes, frame_words};
pub use images::image_size;
pub use shapes::KnownShape;
