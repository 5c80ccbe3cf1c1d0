use bumpalo::Bump;
use m3_base::{Pos, Refused, Source};
use m3_consts::declare;
use m3_link_program::read_program;
use m3_link_scopes::Linked;
use m3_test_tables::{Trial, copies, place_text, refused_text};
use std::alloc::{AllocError, Global};

/// Tries what declares the types and constants of a program. A case gives `ok`, the least refusal,
/// or `doubtful FILE:LINE:COLUMN` with the first constant that breaks a rule of expressions.
pub struct Declaring;

impl Trial for Declaring {
    fn answer(
        &self,
        alloc: Global,
        sources: &[Source<'_>],
        _wanted: &str,
    ) -> Result<String, AllocError> {
        match judged(alloc, sources) {
            Ok(None) => String::from_str(alloc, "ok"),
            Ok(Some(pos)) => {
                let place = place_text(alloc, sources, pos)?;
                format!(in alloc; "doubtful {place}")
            }
            Err(refused) => refused_text(alloc, sources, &refused),
        }
    }
}

/// The place of the first constant that breaks a rule of expressions, or none.
fn judged(alloc: Global, sources: &[Source<'_>]) -> Result<Option<Pos>, Refused> {
    // Trees borrow the arena, so the texts stand in it too.
    let owner = Bump::new(alloc);
    let arena = &owner;
    let copies = copies(alloc, arena, sources)?;
    let linked = read_program(alloc, arena, copies.as_slice())?;
    first_doubt(alloc, arena, &linked)
}

fn first_doubt<'a>(
    alloc: Global,
    arena: &'a Bump,
    linked: &Linked<'a>,
) -> Result<Option<Pos>, Refused> {
    let declarations = declare(alloc, arena, linked)?;
    declarations.declared.later.check()?;
    match declarations.doubtful.first() {
        Some(doubt) => Ok(Some(doubt.value.pos())),
        None => Ok(None),
    }
}
