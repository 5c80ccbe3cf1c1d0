//! From sources to a linked program: the files of a program are read, generic units are written
//! out, and the units are linked with the built-in interfaces, whose texts stand here.
#![tactic(auto)]

mod built_in;
mod reading;

pub use reading::read_program;
