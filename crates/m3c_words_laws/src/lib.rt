//! Laws of the command line of `m3c`: its words are read as docs/COMMANDS.md says it.
#![tactic(auto)]

ghost use Rattle.std.specs.Prelude.{◌≡◌, ◌↔◌, List, Some, codes};
ghost use Rattle.clap.specs.Walk.{Text};
ghost use Rattle.m3c_words.specs.Asked.{asked};
ghost use Rattle.m3c_words.specs.Orders.{Order};
ghost use Rattle.m3c_words_laws.specs.Reads.{AreTexts, Reads, options_of_inspect};
ghost use Rattle.m3c_words_laws.specs.Reads.{options_of_runs};
ghost use Rattle.m3c_words_laws.specs.Moving.{HasBehind, IsSameMoved, NeverTwice};

/// Words ask for a command exactly where the sentences of docs/COMMANDS.md read it from them.
pub fn words_are_read_by_the_sentences()
    ensures { (words : List Text) (order : Order) → AreTexts words
        → (asked words ≡ Some order) ↔ Reads words order }
{}

/// Where an option changes places with a name or another option before it, the words ask for the
/// same: so it may stand anywhere before `--`.
pub fn an_option_may_move()
    ensures run { IsSameMoved options_of_runs (codes "run") }
    ensures exec { IsSameMoved options_of_runs (codes "exec") }
    ensures inspect { IsSameMoved options_of_inspect (codes "inspect") }
{}

/// Where an option stands twice before `--`, the words ask for nothing.
pub fn an_option_stands_once()
    ensures run { NeverTwice options_of_runs (codes "run") }
    ensures exec { NeverTwice options_of_runs (codes "exec") }
    ensures inspect { NeverTwice options_of_inspect (codes "inspect") }
{}

/// Each word behind `--`, whatever it is, is a name that is asked for, in its place.
pub fn words_behind_dashes_are_names()
    ensures build { HasBehind (codes "build") }
    ensures run { HasBehind (codes "run") }
    ensures exec { HasBehind (codes "exec") }
    ensures dump { HasBehind (codes "dump") }
    ensures inspect { HasBehind (codes "inspect") }
{}
