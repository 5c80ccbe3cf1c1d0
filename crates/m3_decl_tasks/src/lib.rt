//! The tasks behind the types and constants of a program: constants and the types of variables
//! that name none (`constants`), the definitions of types that take constants (`definitions`), and
//! what is bound to methods (`methods`). A task is one call that does it, or goes on past what it
//! lacks and collects all of it.
#![tactic(auto)]

mod constants;
mod definitions;
mod methods;

pub use constants::{make_constant, make_kind};
pub use definitions::make_node;
pub use methods::make_methods;
