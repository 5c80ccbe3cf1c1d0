//! The command line of `m3c`: what its words ask for.
#![tactic(auto)]

ghost use Rattle.std.specs.Prelude.{◌≡◌, ℕ, List, Some, IfSome, codes};
ghost use Rattle.m3c_words.specs.Asked.{asked};
ghost use Rattle.m3c_words.specs.Orders.{Order};
ghost use Rattle.m3c_words.specs.Sentences.{BeginsWithCommand, HasNamesBehind, HasOptionsBefore};
ghost use Rattle.m3c_words.specs.Sentences.{IsInRange};

mod defaults;
mod grammar;
mod limits;
mod ranges;
mod words;

pub use limits::Limits;
pub use words::{MOST_FILES, Request, RunOptions, read_words};

/// Words ask for something only where the first of them is the name of the command: no option, no
/// `--` and no other word stands before it.
pub fn first_word_is_the_command()
    ensures { (words : List (List ℕ)) (order : Order) → asked words ≡ Some order
        → BeginsWithCommand words order }
{}

/// A word behind `--` is never an option: whatever stands there, the options of `run`, `exec` and
/// `inspect` are those of the words before it. For `exec` each word behind it, also one as `--heap=64` or another
/// `--`, is a FILE, in its place behind those before it.
pub fn words_behind_dashes_are_names()
    ensures run { HasOptionsBefore (codes "run") }
    ensures exec { HasOptionsBefore (codes "exec") }
    ensures inspect { HasOptionsBefore (codes "inspect") }
    ensures files { HasNamesBehind (codes "exec") }
{}

/// Whatever the words are, a name that they ask for has a byte, each number is in its range, also
/// where no option sets it, and there are at most 256 FILEs.
pub fn what_is_asked_is_in_range()
    ensures { (words : List (List ℕ)) → IfSome (asked words) IsInRange }
{}
