//! The image of a program as it is written: its parts, section by section, and its bytes.
#![tactic(auto)]

mod fields;
mod image;
mod parts;
mod sections;
mod variables;

pub use image::write_image;
pub use parts::{GlobalPart, ImageParts, PlacePart, TypePart, VarPart};
