//! The checker of sources, as the commands call it.
ghost use Rattle.std.specs.Prelude.{◌<◌, All, None, IfErr, IfOk, length};
ghost use Rattle.m3c_source_commands.specs.Judging.{ByChecker, Judgement, MaySay};
ghost use Rattle.m3c_source_commands.specs.Judging.{names_in, texts_in};

use bumpalo::Bump;
use m3_base::{Refused, Source};
use m3_checker::check;
use m3_core::Core;
use std::alloc::Global;

/// A checker of programs. A command that calls it can rest what it answers on nothing else but what
/// the checker said of these very sources.
pub trait Checks {
    /// What the checker may say of files, by their names and their texts.
    ghost judges: { Judgement };

    /// The checked program of some sources, whose trees stand in the arena, or a rule that they
    /// break.
    fn check<'a>(
        alloc: Global,
        arena: &'a Bump,
        sources: &[Source<'a>],
    ) -> Result<Core<'a>, Refused>
        requires { All (λ source. length source.text.now < 4294967295) sources.now }
        ensures accepted { IfOk result
            (λ core. judges (names_in sources.now) (texts_in sources.now) None) }
        ensures refused { IfErr result
            (MaySay (judges (names_in sources.now) (texts_in sources.now))) };
}

/// The checker of m3c.
pub struct Checker;

impl Checks for Checker {
    ghost judges = { ByChecker };

    fn check<'a>(
        alloc: Global,
        arena: &'a Bump,
        sources: &[Source<'a>],
    ) -> Result<Core<'a>, Refused> {
        check(alloc, arena, sources)
    }
}
