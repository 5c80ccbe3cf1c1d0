//! The image: how a program stands in bytes, the reader that refuses all else, and views of its parts.
#![tactic(auto)]

mod image;
mod program;
mod rows;
mod shown;
mod targets;

pub use image::ImageView;
pub use m3_image_sections::{
    ImageRefusal, Names, Pairs, ProcPart, Procs, TypeView, Types, VarView, Variables,
};
