//! The sections of an image, each by itself: how they are cut, what each says, and what each has to keep.
#![tactic(auto)]

mod code;
mod lists;
mod procs;
mod refusal;
mod sections;
mod types;
mod variables;

pub use code::Code;
pub use lists::{Longs, Names, Pairs};
pub use procs::{ProcPart, Procs};
pub use refusal::ImageRefusal;
pub use sections::Sections;
pub use types::{Globals, NONE, TypeView, Types};
pub use variables::{VarView, Variables};
