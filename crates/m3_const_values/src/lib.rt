//! What expressions are worth before a program runs, and what is known of the program for that: of
//! types as long as they are worked out, of names and of the members of types.
//!
//! An expression is judged once, from its parts to the whole, on the syntax tree (`m3_const_walk`).
//! What breaks a rule of expressions has no worth, silently: it is judged again with the
//! expressions of bodies. What is well formed has a type, and either a value or the first reason
//! why it has none (rules 40 to 43). Where a name or a type is needed that isn't worked out yet,
//! the need is noted and the judging goes on, so that all needs of an expression are found
//! together; whoever asked works them out, and asks once more.
#![tactic(auto)]

mod conversions;
mod evaluator;
mod kinds;
mod listing;
mod names;
mod worth;

pub use conversions::converted;
pub use evaluator::{Assumed, Evaluator, Need, both};
pub use kinds::{
    are_comparable, are_same, are_sets, assignability, base_of, bounds_of, fits, is_array,
    is_boolean, is_integer, is_known_reference, is_ordinal, is_reference, is_subtype, plain_node,
    seen_structure, share_base,
};
pub use listing::{newest_member, own_member};
pub use names::{
    entity_named, entity_thing, is_built_in, thing_named, type_of, type_of_entity, type_of_name,
};
pub use worth::{Known, Reason, Thing, Worth};
