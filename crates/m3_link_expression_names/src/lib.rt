//! The names in expressions, types and all declarations but procedures: each is looked up, and the
//! names of fields, methods, formals and members are judged. And the names that declarations
//! declare.
#![tactic(auto)]

mod declarations;
mod expressions;
mod types;

pub use declarations::{
    declare_all, declare_formals, walk_constants, walk_exceptions, walk_reveals, walk_types,
    walk_variables,
};
pub use expressions::{walk_actuals, walk_expression};
pub use types::{walk_signature, walk_type};
