//! The types of a program: their definitions, the constants in them, and the reveals of opaque types.
#![tactic(auto)]

mod graph;
mod heads;
mod kinds;
mod marks;
mod nodes;
mod parts;
mod places;

pub use graph::TypeGraph;
pub use heads::heads_match_at;
pub use kinds::{
    has_nil_at, is_below_refany_at, is_below_root_at, is_null_at, is_opaque_at, is_refany_at,
    is_reference_at, is_root_at, named_above_at, node_at, size_at, span,
};
pub use nodes::{
    Brand, ConstId, ConstValue, Field, Formal, Initial, Method, Mode, Override, Raises, Reveal,
    Secret, TypeId, TypeNode,
};
pub use parts::{parts_at, types_at};
