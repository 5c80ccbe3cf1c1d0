ghost use Rattle.std.specs.Prelude.{◌<◌, All, length};

use crate::built_in::built_in_units;
use bumpalo::Bump;
use m3_base::{Least, NoMemory, Refused, Source, place_number};
use m3_generics::expand;
use m3_lexer::lex;
use m3_link_scopes::Linked;
use m3_modules::link;
use m3_parser::parse;
use m3_syntax::{Lexed, Unit};
use std::alloc::Global;

/// The linked program of some sources, whose trees stand in the arena. Each step is taken only
/// where no source broke a rule of the steps before; the least broken rule of a step is the answer.
pub fn read_program<'a>(
    alloc: Global,
    arena: &'a Bump,
    sources: &[Source<'a>],
) -> Result<Linked<'a>, Refused>
    requires { All (λ source. length source.text.now < 4294967295) sources.now }
{
    let given = read_units(alloc, arena, sources)?;
    let built_in = built_in_units(alloc, arena, sources.len())?;
    link_units(alloc, arena, given.as_slice(), built_in.as_slice())
}

/// The units of the sources, as they are written.
fn read_units<'a>(
    alloc: Global,
    arena: &'a Bump,
    sources: &[Source<'a>],
) -> Result<Vec<Unit<'a>>, Refused>
    requires { All (λ source. length source.text.now < 4294967295) sources.now }
{
    let lexed = lex_all(alloc, sources)?;
    parse_all(alloc, arena, lexed.as_slice())
}

/// Writes the instances of generics out, and links the units with the built-in ones.
fn link_units<'a>(
    alloc: Global,
    arena: &'a Bump,
    given: &[Unit<'a>],
    built_in: &[Unit<'a>],
) -> Result<Linked<'a>, Refused> {
    let expanded = expand(alloc, arena, given)?;
    link(alloc, expanded, given, built_in)
}

/// Keeps the least refusal, and lets want of memory through.
fn note(least: &mut Least, refused: Refused) -> Result<(), NoMemory> {
    match refused {
        Refused::Rule(refusal) => {
            least.note(refusal);
            Ok(())
        }
        Refused::NoMemory => Err(NoMemory),
    }
}

fn lex_all<'a>(alloc: Global, sources: &[Source<'a>]) -> Result<Vec<Lexed<'a>>, Refused>
    requires { All (λ source. length source.text.now < 4294967295) sources.now }
{
    let mut least = Least::new();
    let mut all = Vec::new(alloc);
    for (place, source) in sources.iter().enumerate() {
        lex_one(&mut all, &mut least, alloc, place, source)?;
    }
    least.check()?;
    Ok(all)
}

/// Adds the tokens of a source, or notes why it has none.
fn lex_one<'a>(
    all: &mut Vec<Lexed<'a>>,
    least: &mut Least,
    alloc: Global,
    place: usize,
    source: &Source<'a>,
) -> Result<(), NoMemory>
    requires { length source.now.text.now < 4294967295 }
{
    let file = place_number(place)?;
    match lex(alloc, file, source.text) {
        Ok(lexed) => {
            all.push(lexed)?;
            Ok(())
        }
        Err(refused) => note(least, refused),
    }
}

fn parse_all<'a>(
    alloc: Global,
    arena: &'a Bump,
    lexed: &[Lexed<'a>],
) -> Result<Vec<Unit<'a>>, Refused> {
    let mut least = Least::new();
    let mut units = Vec::new(alloc);
    for tokens in lexed {
        match parse(alloc, arena, tokens) {
            Ok(unit) => units.push(unit)?,
            Err(refused) => note(&mut least, refused)?,
        }
    }
    least.check()?;
    Ok(units)
}
