//! From what a module of the plain form puts to the bytes of an image.
#![tactic(auto)]

mod code;
mod parts;

pub use parts::plain_image;
