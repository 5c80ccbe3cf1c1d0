//! A reader of the tokens of a file that keeps its first error, the names and operators that stand
//! among them, and what the file is refused for where its reading stopped (`stops`).
#![tactic(auto)]

mod bindings;
mod kinds;
mod names;
mod operators;
mod reader;
mod stops;
mod units;

pub use bindings::{binding, lone_name};
pub use kinds::{begins_expression, begins_type};
pub use names::{name_list, names_between, qualid, qualid_list, raises};
pub use operators::{operator_here, prefix_sign};
pub use reader::Reader;
pub use stops::{counted, refusal_of};
pub use units::{FirstWords, closing_name, unit_heading};
