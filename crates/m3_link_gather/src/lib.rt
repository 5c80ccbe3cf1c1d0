//! One walk over a program's text, which lists what declarations and bodies are judged by: type
//! expressions, text literals, the labels of CASE, and what the names of statements are bound to.
#![tactic(auto)]

mod declarations;
mod expressions;
mod gathered;
mod statements;
mod types;

pub use gathered::{Bound, Gathered, LabelAt, TextAt, TypeAt};
pub use statements::gather;
