//! The names that statements bind: those of WITH, the variable of FOR, and the hidden name of LOCK
//! (rules 75 and 77).
#![tactic(auto)]

mod bindings;
mod locks;
mod loops;

pub use bindings::bind_all;
pub use locks::{Hidden, add_lock, hide};
pub use loops::{ForHead, for_head};
