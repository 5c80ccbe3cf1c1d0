//! The phrases of Modula-3: expressions, types and signatures, read off the tokens of a file.
#![tactic(auto)]

mod expressions;
mod members;
mod operands;
mod settings;
mod trees;
mod types;

pub use expressions::{expression, statement_head};
pub use members::{assigned, initial, signature};
pub use trees::keep_expr;
pub use types::type_expression;
