use m3_base::{Pos, Source};
use m3_link_scopes::Program;
use m3_test_tables::place_text;
use std::alloc::{AllocError, Global};

/// What a case wants to know of a program that is accepted.
pub fn answer_of_program(
    alloc: Global,
    sources: &[Source<'_>],
    program: &Program<'_>,
    wanted: &str,
) -> Result<String, AllocError> {
    if let Some((asked, place)) = place_of(sources, wanted) {
        return declaration(alloc, sources, program, asked, place);
    }
    if wanted.starts_with("order") {
        return order(alloc, program.order.as_slice());
    }
    if wanted.starts_with("units") {
        let count = program
            .infos
            .iter()
            .filter(|info| !info.is_built_in)
            .count();
        return format!(in alloc; "units {count}");
    }
    String::from_str(alloc, "ok")
}

/// The place behind `at`, as `FILE:LINE:COLUMN` and as a place, where a case asks for the
/// declaration of a name.
fn place_of<'w>(sources: &[Source<'_>], wanted: &'w str) -> Option<(&'w str, Pos)> {
    let (asked, _) = wanted.strip_prefix("at ")?.split_once(" ")?;
    let (name, rest) = asked.split_once(":")?;
    let (line, col) = rest.split_once(":")?;
    let name = name.as_bytes();
    let file = sources.iter().position(|source| source.name == name)?;
    let place = Pos {
        file: u32::try_from(file).ok()?,
        line: line.parse::<u32>().ok()?,
        col: col.parse::<u32>().ok()?,
    };
    Some((asked, place))
}

/// The question with the place of the declaration behind it, or `none`.
fn declaration(
    alloc: Global,
    sources: &[Source<'_>],
    program: &Program<'_>,
    asked: &str,
    place: Pos,
) -> Result<String, AllocError> {
    match program.binds.declaration(place, place.file) {
        Some((unit, pos)) => {
            let found = place_text(alloc, sources, Pos { file: unit, ..pos })?;
            format!(in alloc; "at {asked} {found}")
        }
        None => format!(in alloc; "at {asked} none"),
    }
}

/// The places of the modules in the order of their bodies.
fn order(alloc: Global, places: &[u32]) -> Result<String, AllocError> {
    let mut answer = String::from_str(alloc, "order")?;
    for place in places {
        let place = *place;
        let word = format!(in alloc; " {place}")?;
        answer.push_str(word.as_str())?;
    }
    Ok(answer)
}
