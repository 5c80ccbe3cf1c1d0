//! The rules that declarations break once their types are known: types that contain themselves
//! (46), the parts of types and variables, with ordinal types that are wanted or empty, open arrays
//! and large sets (47 and 48), and parents, methods, overrides, arguments of exceptions, brands and
//! the bodies of an interface's procedures (49).
#![tactic(auto)]

mod headings;
mod methods;
mod parts;
mod recursion;
mod wideness;

pub use headings::{judge_arguments, judge_bodies, judge_brands};
pub use methods::judge_methods;
pub use parts::judge_parts;
pub use recursion::judge_recursion;
