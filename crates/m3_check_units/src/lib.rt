//! The walk over the units of a program: the numbers of their variables, the initial values, the
//! procedures and the bodies.
#![tactic(auto)]

mod globals;
mod modules;
mod units;

pub use globals::declare_globals;
pub use units::check_units;
