//! The constants that declarations need: their worth, with what it assumes (`judging`), and
//! constants as types contain them (`interning`). And the parts of types that take constants:
//! fields, formals, defaults, bounds, brands and RAISES.
#![tactic(auto)]

mod interning;
mod judging;
mod parts;

pub use judging::{constant_of, typed_constant, worth_of};
pub use parts::{brand_of, field_row, initial_of, signature_node, subrange};
