ghost use Rattle.std.specs.Prelude.{◌<◌, All, length, IfOk, OnOk};

use bumpalo::Bump;
use m3_base::{Pos, Refused, Source};
use std::alloc::{AllocError, Global};

/// The most bytes that a file may have.
const MOST_BYTES: usize = 1_048_576;

/// Copies of some sources in an arena, where the trees of a program may borrow them; one that is
/// too long for a file is left out.
pub fn copies<'a>(
    alloc: Global,
    arena: &'a Bump,
    sources: &[Source<'_>],
) -> Result<Vec<Source<'a>>, AllocError>
    ensures { IfOk result
        (λ copies. All (λ source. length source.text.now < 4294967295) copies.items) }
{
    let mut copies = Vec::new(alloc);
    'sources: for source in sources {
        add_copy(&mut copies, arena, source)?;
    }
    Ok(copies)
}

fn add_copy<'a>(
    copies: &mut Vec<Source<'a>>,
    arena: &'a Bump,
    source: &Source<'_>,
) -> Result<(), AllocError>
    ensures { OnOk result
        (All (λ source. length source.text.now < 4294967295) copies.old.items
        → All (λ source. length source.text.now < 4294967295) copies.new.items) }
{
    let name = &*arena.try_alloc_slice_copy(source.name)?;
    let text = &*arena.try_alloc_slice_copy(source.text)?;
    if text.len() <= MOST_BYTES {
        copies.push(Source { name, text })?;
    }
    Ok(())
}

/// A place as `FILE:LINE:COLUMN`; a file of no name is `?`.
pub fn place_text(alloc: Global, sources: &[Source<'_>], pos: Pos) -> Result<String, AllocError> {
    let mut text = String::new(alloc);
    match sources.get(pos.file as usize) {
        Some(source) => add_name(&mut text, source.name)?,
        None => text.push('?')?,
    }
    let (line, col) = (pos.line, pos.col);
    let place = format!(in alloc; ":{line}:{col}")?;
    text.push_str(place.as_str())?;
    Ok(text)
}

fn add_name(text: &mut String, name: &[u8]) -> Result<(), AllocError> {
    for byte in name {
        text.push(char::from(*byte))?;
    }
    Ok(())
}

/// A refusal as `FILE:LINE:COLUMN: rule N`, or that memory ran out.
pub fn refused_text(
    alloc: Global,
    sources: &[Source<'_>],
    refused: &Refused,
) -> Result<String, AllocError> {
    match refused {
        Refused::NoMemory => String::from_str(alloc, "out of memory"),
        Refused::Rule(refusal) => {
            let place = place_text(alloc, sources, refusal.pos)?;
            let rule = refusal.rule;
            format!(in alloc; "{place}: rule {rule}")
        }
    }
}
