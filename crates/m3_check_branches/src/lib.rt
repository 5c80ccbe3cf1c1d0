//! The labels of CASE, the types of TYPECASE and conditions (rules 73, 74, 76 and 81); RAISE and
//! the heads of handlers (rules 78 to 80), and with it all statements that hold no statements.
#![tactic(auto)]

mod branches;
mod conditions;
mod labels;
mod leaves;
mod raises;

pub use branches::{branch_types, branch_variable};
pub use conditions::condition;
pub use labels::{all_ranges, ranges_at};
pub use leaves::simple;
pub use raises::{HandlerHead, handler_head};
