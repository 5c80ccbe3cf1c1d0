//! What operators, conversions and the routines of built-in interfaces do with operands that are
//! evaluated already.
#![tactic(auto)]

mod comparisons;
mod conversions;
mod operators;
mod routines;
mod services;
mod sets;

pub use comparisons::ordered;
pub use conversions::{CheckedConversion, checked, in_range, not_nested, tested};
pub use operators::{
    Operands, TypedValue, check_text, is_short, is_turned, operate, prefix_into, result_of,
    value_at,
};
pub use routines::{action, check_operand, operand_at};
pub use sets::{PlannedElement, TempRow, add_bits, move_row, zero_temps};
