//! Statements that hold no statements, and the tests of those that do, lowered to middle code,
//! backward.
#![tactic(auto)]

mod assignments;
mod bindings;
mod globals;
mod labels;
mod loops;
mod raising;

pub use assignments::{Adjustment, assign, change, evaluate};
pub use bindings::{bind_all, clear_bindings, scopes_of};
pub use globals::{called, init_globals};
pub use labels::{Label, add_labels, search, test_exceptions, test_types};
pub use loops::{Course, Pace, Progression, begin, first_test, limit, pace_of, turned};
pub use raising::{raise, return_value};
