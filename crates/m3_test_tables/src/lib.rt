//! What the programs of tests share: tables of texts with what each is to give, and a count of the
//! cases that come out otherwise. A program of tests has a `Trial`, which says what some sources
//! give.
//!
//! A table of cases has for each a title behind `== `, its files behind `--- NAME`, and behind
//! `>>> ` what they give. `case_files` says how a long file is written in short.
//!
//! A table of pieces is tried in the module of a prelude. A line in brackets says what the lines
//! behind it are, and each of these has the number of the rule that it breaks, or `ok`, and a
//! piece of a program with `@` at the place where it breaks the rule.
#![tactic(auto)]

mod case_files;
mod cases;
mod pieces;
mod sources;
mod tables;
mod tally;

pub use case_files::CaseFile;
pub use pieces::try_pieces;
pub use sources::{copies, place_text, refused_text};
pub use tables::try_file;
pub use tally::{Tally, Trial};
