use crate::globals::list_globals;
use bumpalo::Bump;
use bumpalo::collections::into_bump_slice;
use m3_base::{NoMemory, Source, place_number};
use m3_check_limits::{Lists, WrittenType};
use m3_check_state::Checker;
use m3_core::{ExcDef, ProcDef};
use m3_link_gather::{TypeAt, gather};
use m3_link_scopes::Linked;
use m3_syntax::{Decl, Name, Unit};

/// Lists what the checked program has, whose procedures are given with their numbers.
pub fn list_all<'a>(
    checker: &mut Checker<'_, 'a>,
    linked: &Linked<'a>,
    procedures: &[(u32, ProcDef<'a>)],
    sources: &[Source<'a>],
) -> Result<Lists<'a>, NoMemory> {
    let exceptions = list_exceptions(checker, &linked.units)?;
    let (globals, units) = list_globals(checker, &linked.units)?;
    Ok(Lists {
        procs: list_procedures(checker.arena, procedures)?,
        globals,
        units,
        written: list_types(checker, linked)?,
        exceptions,
        texts: &*checker
            .arena
            .try_alloc_slice_copy(checker.declared.texts.as_slice())?,
        order: list_order(checker)?,
        values: &*checker
            .arena
            .try_alloc_slice_copy(checker.declared.values.as_slice())?,
        files: list_files(checker, sources)?,
        alerted: alerted_among(exceptions)?,
    })
}

/// The type expressions of given units, as they stand in the text.
fn list_types<'a>(
    checker: &Checker<'_, 'a>,
    linked: &Linked<'a>,
) -> Result<&'a [WrittenType], NoMemory> {
    let gathered = gather(checker.alloc, linked)?;
    written_among(checker, gathered.types.as_slice())
}

fn written_among<'a>(
    checker: &Checker<'_, 'a>,
    types: &[TypeAt<'a>],
) -> Result<&'a [WrittenType], NoMemory> {
    let mut written = Vec::new(checker.arena);
    for found in types {
        if let Some(kind) = written_type(checker, found) {
            written.push(kind)?;
        }
    }
    Ok(into_bump_slice(written))
}

fn written_type<'a>(checker: &Checker<'_, 'a>, found: &TypeAt<'a>) -> Option<WrittenType> {
    let info = checker.program.infos.get(found.unit as usize)?;
    if info.is_built_in {
        return None;
    }
    let pos = found.kind.pos();
    Some(WrittenType {
        unit: info.number,
        pos,
        kind: checker.declared.type_at(found.unit, pos)?,
    })
}

/// The procedures, by their numbers.
fn list_procedures<'a>(
    arena: &'a Bump,
    checked: &[(u32, ProcDef<'a>)],
) -> Result<&'a [ProcDef<'a>], NoMemory> {
    let mut places = vec![in arena; None; checked.len()]?;
    for (place, procedure) in checked.iter().enumerate() {
        if let Some(found) = places.get_mut(procedure.0 as usize) {
            *found = Some(place);
        }
    }
    let mut procedures = Vec::new(arena);
    for place in &places {
        if let Some(procedure) = procedure_at(checked, *place) {
            procedures.push(procedure)?;
        }
    }
    Ok(into_bump_slice(procedures))
}

fn procedure_at<'a>(checked: &[(u32, ProcDef<'a>)], place: Option<usize>) -> Option<ProcDef<'a>> {
    match checked.get(place?) {
        Some(procedure) => Some(procedure.1),
        None => None,
    }
}

/// The exceptions, by their numbers: by unit and place.
fn list_exceptions<'a>(
    checker: &mut Checker<'_, 'a>,
    units: &[Unit<'a>],
) -> Result<&'a [ExcDef<'a>], NoMemory> {
    let mut exceptions = Vec::new(checker.arena);
    for (place, unit) in units.iter().enumerate() {
        checker.unit = place_number(place)?;
        list_unit(checker, &mut exceptions, unit)?;
    }
    Ok(into_bump_slice(exceptions))
}

fn list_unit<'a>(
    checker: &Checker<'_, 'a>,
    exceptions: &mut Vec<ExcDef<'a>, &'a Bump>,
    unit: &Unit<'a>,
) -> Result<(), NoMemory> {
    for declaration in unit.declarations() {
        if let Decl::Exception {
            exceptions: row,
            ..
        } = declaration
        {
            for exception in *row {
                exceptions.push(exception_of(checker, unit, exception.name))?;
            }
        }
    }
    Ok(())
}

fn exception_of<'a>(checker: &Checker<'_, 'a>, unit: &Unit<'a>, name: Name<'a>) -> ExcDef<'a> {
    let argument = match checker.program.binds.at(checker.unit, name.pos) {
        Some(id) => checker.declared.kind_of(id),
        None => None,
    };
    ExcDef {
        unit: unit.name.text,
        name: name.text,
        argument,
    }
}

/// The place of Thread.Alerted, the last exception of the built-in units.
fn alerted_among(exceptions: &[ExcDef<'_>]) -> Result<u32, NoMemory> {
    place_number(exceptions.len().saturating_sub(1))
}

/// The module bodies in the order in which they run.
fn list_order<'a>(checker: &Checker<'_, 'a>) -> Result<&'a [u32], NoMemory> {
    let mut order = Vec::new(checker.arena);
    for unit in &checker.program.order {
        if let Some(number) = checker.declared.module_number(*unit) {
            order.push(number)?;
        }
    }
    Ok(into_bump_slice(order))
}

fn list_files<'a>(
    checker: &Checker<'_, 'a>,
    sources: &[Source<'a>],
) -> Result<&'a [&'a [u8]], NoMemory> {
    let mut files = Vec::new(checker.arena);
    for source in sources {
        files.push(source.name)?;
    }
    Ok(into_bump_slice(files))
}
