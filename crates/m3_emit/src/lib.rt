//! From a procedure with places to instructions, with the rows of its points and with what is shown
//! there.
#![tactic(auto)]

mod blocks;
mod calls;
mod emitting;
mod part;
mod rows;
mod services;
mod starts;
mod writer;

pub use emitting::emit;
pub use m3_gen_instructions::{Links, Places};
pub use part::{Part, SpanPart};
