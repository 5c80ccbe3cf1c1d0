//! The lexer of Modula-3: a file's bytes to its tokens, which borrow them.
#![tactic(auto)]

mod characters;
mod fronts;
mod laws;
mod marks;
mod names;
mod numbers;
mod places;
mod signs;
mod tokens;

pub use laws::{one_list, one_refusal, tokens_or_refusal};
pub use m3_syntax::Lexed;
pub use tokens::lex;
