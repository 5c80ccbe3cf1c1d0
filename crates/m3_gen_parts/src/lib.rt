//! The parts of an image that say what a program's types, constants, globals and variables are, and
//! the bytes of parts that aren't known to be those of an image: the reader of images judges them.
#![tactic(auto)]

mod cells;
mod constants;
mod fields;
mod judging;
mod methods;
mod names;
mod quiet;
mod rows;
mod sections;
mod variables;

pub use cells::{global_part, type_parts};
pub use constants::Constants;
pub use judging::judged_image;
pub use names::{exception_names, place_part};
pub use quiet::quiet_procs;
pub use rows::table_section;
pub use variables::var_parts;
