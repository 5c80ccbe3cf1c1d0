//! Checked expressions: from the tree of an expression to its checked form, or the rules that it
//! breaks (the report, section 2.6). What holds no expression is in `leaves`.
#![tactic(auto)]

mod elements;
mod expressions;
mod leaves;

pub use expressions::{call_actuals, expression, given, operand};
