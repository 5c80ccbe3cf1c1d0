use crate::fields::{put_count, put_list, put_text, put_texts, put_word};
use m3_base::{Bytes, NoMemory};
use m3_image::ProcPart;
use m3_image_writer::{GlobalPart, PlacePart, TypePart, VarPart};
use m3_isa::{Instr, encode};
use m3_tables::Location;
use std::alloc::Global;

/// The instructions, of eight bytes each.
pub(crate) fn put_code(alloc: Global, out: &mut Vec<u8>, code: &[Instr]) -> Result<(), NoMemory> {
    let mut section = Vec::new(alloc);
    for instr in code {
        section.extend_from_slice(&encode(*instr))?;
    }
    put_text(out, &section)
}

pub(crate) fn put_procs(
    alloc: Global,
    out: &mut Vec<u8>,
    procs: &[ProcPart],
) -> Result<(), NoMemory> {
    let mut section = Vec::new(alloc);
    for proc in procs {
        put_proc(&mut section, *proc)?;
    }
    put_text(out, &section)
}

fn put_proc(out: &mut Vec<u8>, proc: ProcPart) -> Result<(), NoMemory> {
    put_word(out, proc.first)?;
    put_word(out, proc.count)?;
    put_word(out, proc.body)?;
    put_word(out, proc.frame)
}

pub(crate) fn put_types(
    alloc: Global,
    out: &mut Vec<u8>,
    types: &[TypePart],
) -> Result<(), NoMemory> {
    let mut section = Vec::new(alloc);
    for part in types {
        put_type(&mut section, part)?;
    }
    put_text(out, &section)
}

fn put_type(out: &mut Vec<u8>, part: &TypePart) -> Result<(), NoMemory> {
    put_word(out, part.kind)?;
    put_word(out, part.parent)?;
    put_word(out, part.words)?;
    put_word(out, part.dims)?;
    put_list(out, &part.methods)?;
    put_list(out, &part.pointers)
}

pub(crate) fn put_globals(
    alloc: Global,
    out: &mut Vec<u8>,
    globals: &GlobalPart,
) -> Result<(), NoMemory> {
    let mut section = Vec::new(alloc);
    put_word(&mut section, globals.words)?;
    put_list(&mut section, &globals.pointers)?;
    put_text(out, &section)
}

pub(crate) fn put_constants(
    alloc: Global,
    out: &mut Vec<u8>,
    constants: &[u64],
) -> Result<(), NoMemory> {
    let mut section = Vec::new(alloc);
    put_count(&mut section, constants.len())?;
    for constant in constants {
        section.extend_from_slice(&constant.to_le_bytes())?;
    }
    put_text(out, &section)
}

pub(crate) fn put_places(
    alloc: Global,
    out: &mut Vec<u8>,
    places: &PlacePart,
) -> Result<(), NoMemory> {
    let mut section = Vec::new(alloc);
    put_texts(&mut section, &places.files)?;
    put_count(&mut section, places.places.len())?;
    for (file, line) in &places.places {
        put_word(&mut section, *file)?;
        put_word(&mut section, *line)?;
    }
    put_text(out, &section)
}

pub(crate) fn put_exceptions(
    alloc: Global,
    out: &mut Vec<u8>,
    exceptions: &[Bytes],
) -> Result<(), NoMemory> {
    let mut section = Vec::new(alloc);
    put_texts(&mut section, exceptions)?;
    put_text(out, &section)
}

pub(crate) fn put_variables(
    alloc: Global,
    out: &mut Vec<u8>,
    variables: &[VarPart],
) -> Result<(), NoMemory> {
    let mut section = Vec::new(alloc);
    put_count(&mut section, variables.len())?;
    for variable in variables {
        put_variable(&mut section, variable)?;
    }
    put_text(out, &section)
}

fn put_variable(out: &mut Vec<u8>, variable: &VarPart) -> Result<(), NoMemory> {
    put_word(out, variable.proc)?;
    put_word(out, variable.word)?;
    put_text(out, variable.name.as_slice())?;
    out.push(variable.form)?;
    put_spans(out, &variable.spans)
}

fn put_spans(out: &mut Vec<u8>, spans: &[(u32, Location)]) -> Result<(), NoMemory> {
    put_count(out, spans.len())?;
    for (instr, place) in spans {
        put_word(out, *instr)?;
        put_word(out, number_of(*place)?)?;
    }
    Ok(())
}

/// The number of a place. A frame so long that a word of it has none fits in no memory.
pub(crate) fn number_of(place: Location) -> Result<u32, NoMemory> {
    match place.number() {
        Some(number) => Ok(number),
        None => Err(NoMemory),
    }
}
