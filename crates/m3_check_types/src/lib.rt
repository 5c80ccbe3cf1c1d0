//! What a checker of expressions knows of types, and what a unit sees of opaque ones; fields,
//! methods and formals by their names, and what a dot behind a type gives (rule 62).
#![tactic(auto)]

mod kinds;
mod listing;
mod method_constants;
mod views;

pub use kinds::{
    are_same, assignability, base_of, element_type, fits, is_array, is_boolean, is_integer,
    is_open, is_ordinal, is_procedure, is_reference, is_subtype, ordinal_bounds, result_type,
    share_base,
};
pub use listing::{formals_of, newest_member, own_member};
pub use method_constants::type_member;
pub use views::{is_unveiled, visible_type};
