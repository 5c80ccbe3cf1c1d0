//! Places in the graph of types for all type expressions, found again by the place of their first
//! token (`reserving`), numbers for texts, procedures and exceptions (`numbering`), what names of
//! types stand for (`naming`), and the definitions that take no constant (`defining`).
#![tactic(auto)]

mod defining;
mod naming;
mod numbering;
mod reserving;

pub use defining::define_all;
pub use naming::name_all;
pub use reserving::reserve_all;
