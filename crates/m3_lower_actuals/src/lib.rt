//! Where the values of expressions will be, before their code is made: the stages of chains, the
//! operands of rows, the actuals of calls.
#![tactic(auto)]

mod actuals;
mod bindings;
mod calls;
mod chains;
mod rows;

pub use actuals::{Passed, PlannedActual, kind_of_actual, places_of, plan_actuals};
pub use bindings::{plan_bindings, store_bindings, store_value};
pub use calls::{
    Call, Method, Signature, call_with, callee_of, check_method, signature_of, signature_of_method,
};
pub use chains::{plan_chain, plan_structure, plan_value};
pub use rows::{Row, fold_before, plan_operands, plan_row, plan_set_element, plan_sizes};
