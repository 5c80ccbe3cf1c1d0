//! Arrays, constants and defaults in middle code: the shapes of arrays and the addresses of their
//! elements, new cells, and what stands in them at first.
#![tactic(auto)]

mod cells;
mod constants;
mod constructors;
mod defaults;
mod elements;
mod shapes;

pub use cells::{cell_defaults, copy_into_cell, make};
pub use constants::{code_of, constant_words, first_member, set_word};
pub use constructors::{Element, element_of, field_type, filled, plan_constant, plan_open};
pub use defaults::store_default;
pub use elements::{
    Index, Subarray, check_index, check_subarray, index_of, indexed, known_distance, limit_of,
    plan_element, subarray_address,
};
pub use shapes::{
    Counting, check_equal, check_shape, dims_of, element_words, fitted, inner_element, new_sizes,
    shape_of, total_words,
};
