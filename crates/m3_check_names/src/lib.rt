//! The types that type expressions stand for (rule 60), and what names stand for as operands.
#![tactic(auto)]

mod judging;
mod names;
mod naming;

pub use judging::judge_declaration;
pub use names::{entity_thing, inner_name, thing_named};
pub use naming::{entity_named, type_of};
