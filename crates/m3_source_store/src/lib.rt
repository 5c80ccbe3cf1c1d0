//! What the meaning of a checked program asks of its types and constants, and the store that its
//! threads share: what the definitions of `m3_values` say, carried out.
#![tactic(auto)]

mod constants;
mod methods;
mod objects;
mod program;
mod store;
mod types;

pub use constants::{constant_at, default_of, field_default, first_content, zero_of};
pub use methods::{method_place, procedure_of};
pub use objects::{is_below, is_mutex, object_field, object_fields, parent, unveiled};
pub use program::{Heading, Program, type_of};
pub use store::{Cell, Here, Life, Store};
pub use types::{
    Bounds, bounds_of, element, elements, first_index, formals_of, holds_reference, index_bounds,
    is_open, kind_of, methods_of_type, node_of, open_dimensions, type_shape, type_sizes,
};
