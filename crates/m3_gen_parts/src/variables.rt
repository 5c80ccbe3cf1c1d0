use crate::names::full_name;
use m3_base::{Bytes, NoMemory, place_number};
use m3_core::{Core, VarDef, VarKind};
use m3_emit::SpanPart;
use m3_image_writer::VarPart;
use m3_lower_objects::{Form, number_of};
use m3_lower_storage::{Storage, is_shown, type_of_variable};
use std::alloc::Global;

/// The procedure of a global variable, in an image.
const NO_PROCEDURE: u32 = u32::MAX;

fn form_of(storage: &Storage, kind: VarKind) -> u8 {
    match storage.form(type_of_variable(kind)) {
        Form::Reference => 1,
        Form::Number | Form::Numbers(_) | Form::Structure(_) | Form::Open => 0,
    }
}

/// The variables that an image shows: the global ones, and then those of each procedure, with what
/// is shown of them at its points.
pub fn var_parts(
    alloc: Global,
    core: &Core,
    storage: &Storage,
    spans: &[Vec<SpanPart>],
) -> Result<Vec<VarPart>, NoMemory> {
    let mut parts = Vec::new(alloc);
    add_globals(alloc, core.globals, storage, &mut parts)?;
    for (place, proc) in core.procs.iter().enumerate() {
        let first = parts.len();
        let number = place_number(place.saturating_add(2))?;
        add_all(alloc, storage, number, proc.formals, &mut parts)?;
        add_all(alloc, storage, number, proc.locals, &mut parts)?;
        if let Some(spans) = spans.get(place) {
            add_spans(&mut parts, first, spans)?;
        }
    }
    Ok(parts)
}

fn add_globals(
    alloc: Global,
    globals: &[VarDef],
    storage: &Storage,
    parts: &mut Vec<VarPart>,
) -> Result<(), NoMemory> {
    for (place, global) in globals.iter().enumerate() {
        if is_shown(storage.types, global.kind, global.role) {
            parts.push(VarPart {
                proc: NO_PROCEDURE,
                word: storage.global(number_of(place)),
                name: full_name(alloc, global.unit, global.name)?,
                form: form_of(storage, global.kind),
                spans: Vec::new(alloc),
            })?;
        }
    }
    Ok(())
}

fn add_all(
    alloc: Global,
    storage: &Storage,
    number: u32,
    variables: &[VarDef],
    parts: &mut Vec<VarPart>,
) -> Result<(), NoMemory> {
    for variable in variables {
        add_one(alloc, storage, number, variable, parts)?;
    }
    Ok(())
}

fn add_one(
    alloc: Global,
    storage: &Storage,
    number: u32,
    variable: &VarDef,
    parts: &mut Vec<VarPart>,
) -> Result<(), NoMemory> {
    if is_shown(storage.types, variable.kind, variable.role) {
        parts.push(VarPart {
            proc: number,
            word: 0,
            name: Bytes::of(alloc, variable.name)?,
            form: form_of(storage, variable.kind),
            spans: Vec::new(alloc),
        })?;
    }
    Ok(())
}

/// Adds where variables are to those of a procedure, which stand from a place on.
fn add_spans(parts: &mut Vec<VarPart>, first: usize, spans: &[SpanPart]) -> Result<(), NoMemory> {
    for span in spans {
        let place = first.saturating_add(span.var as usize);
        if let Some(part) = parts.get_mut(place) {
            part.spans.push((span.instr, span.location))?;
        }
    }
    Ok(())
}
