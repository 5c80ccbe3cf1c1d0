//! Calls whose actuals were checked: of procedures, methods, routines of the built-in interfaces
//! and predeclared routines (the report, sections 2.3.2 and 2.6.8 to 2.6.13); which formal each
//! actual is for, and the actuals as the formals take them (rules 51 to 54).
#![tactic(auto)]

mod actuals;
mod built_in;
mod calls;
mod matching;

pub use calls::call;
