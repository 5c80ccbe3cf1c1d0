//! The sections of an image, each behind its length.
ghost use Rattle.std.specs.Prelude.{◌≡◌, ◌<◌, ◌^◌, ◌++◌, length, map, OnOk, Ok, Some};
ghost use Rattle.std.specs.List.{flat_map, AllByRecursion};
ghost use Rattle.m3_isa.specs.Instructions.{IsInstruction};
ghost use Rattle.m3_isa.specs.CodeBytes.{bytes_of, instruction_in};
ghost use Rattle.m3_image_sections.specs.Parts.{proc_in, procs_at, type_at, types_at, globals_at};
ghost use Rattle.m3_image_sections.specs.Parts.{constants_at, pair_in, places_at, names_at};
ghost use Rattle.m3_image_sections.specs.Reading.{code_of};
ghost use Rattle.m3_image_writer.specs.Again.{Reads, ReadsAll, ReadsFixed};
ghost use Rattle.m3_image_writer.specs.Views.{cell_type, globals_of, places_of};
ghost use Rattle.m3_image_writer.specs.Fields.{place_bytes, text_bytes};
ghost use Rattle.m3_image_writer.specs.Sections.{code_bytes, proc_bytes, procs_bytes, type_bytes};
ghost use Rattle.m3_image_writer.specs.Sections.{types_bytes, globals_bytes, constants_bytes};
ghost use Rattle.m3_image_writer.specs.Sections.{places_bytes, exceptions_bytes};

use crate::fields::{put_list, put_long, put_text, put_texts, put_word};
use crate::parts::{GlobalPart, PlacePart, TypePart};
use m3_base::{Bytes, NoMemory};
use m3_image::ProcPart;
use m3_isa::{Instr, encode, same_instruction};
use std::alloc::Global;

fn put_instr(out: &mut Vec<u8>, instr: Instr) -> Result<(), NoMemory>
    requires { IsInstruction instr }
    ensures again { OnOk result (ReadsFixed 8 instruction_in (bytes_of instr) (Some instr)) }
    ensures bytes { OnOk result (out.new.items ≡ out.old.items ++ bytes_of instr) }
{
    same_instruction();
    out.extend_from_slice(&encode(instr))?;
    Ok(())
}

/// The instructions, of eight bytes each.
#[tactic(auto, unfolding(crate::specs::Sections::code_bytes))]
pub(crate) fn put_code(alloc: Global, out: &mut Vec<u8>, code: &[Instr]) -> Result<(), NoMemory>
    requires form { AllByRecursion IsInstruction code.now }
    requires size { length (code_bytes code.now) < 2 ^ 32 }
    ensures again { OnOk result (code_of (code_bytes code.now) ≡ Ok code.now) }
    ensures bytes { OnOk result (out.new.items
        ≡ out.old.items ++ text_bytes (code_bytes code.now)) }
{
    let mut section = Vec::new(alloc);
    for instr in code {
        put_instr(&mut section, *instr)?;
    }
    put_text(out, &section)
}

#[tactic(auto, unfolding(crate::specs::Sections::proc_bytes))]
fn put_proc(out: &mut Vec<u8>, proc: &ProcPart) -> Result<(), NoMemory>
    ensures again { OnOk result (ReadsFixed 16 proc_in (proc_bytes proc.now) proc.now) }
    ensures bytes { OnOk result (out.new.items ≡ out.old.items ++ proc_bytes proc.now) }
{
    put_word(out, proc.first)?;
    put_word(out, proc.count)?;
    put_word(out, proc.body)?;
    put_word(out, proc.frame)
}

#[tactic(auto, unfolding(crate::specs::Sections::procs_bytes))]
pub(crate) fn put_procs(
    alloc: Global,
    out: &mut Vec<u8>,
    procs: &[ProcPart],
) -> Result<(), NoMemory>
    requires { length (procs_bytes procs.now) < 2 ^ 32 }
    ensures again { OnOk result (ReadsAll procs_at (procs_bytes procs.now) procs.now) }
    ensures bytes { OnOk result (out.new.items
        ≡ out.old.items ++ text_bytes (procs_bytes procs.now)) }
{
    let mut section = Vec::new(alloc);
    for proc in procs {
        put_proc(&mut section, proc)?;
    }
    put_text(out, &section)
}

#[tactic(auto, unfolding(crate::specs::Sections::type_bytes))]
fn put_type(out: &mut Vec<u8>, part: &TypePart) -> Result<(), NoMemory>
    requires { length (type_bytes part.now) < 2 ^ 32 }
    ensures again { OnOk result (Reads type_at (type_bytes part.now) (cell_type part.now)) }
    ensures bytes { OnOk result (out.new.items ≡ out.old.items ++ type_bytes part.now) }
{
    put_word(out, part.kind)?;
    put_word(out, part.parent)?;
    put_word(out, part.words)?;
    put_word(out, part.dims)?;
    put_list(out, &part.methods)?;
    put_list(out, &part.pointers)?;
    Ok(())
}

fn put_each_type(out: &mut Vec<u8>, types: &[TypePart]) -> Result<(), NoMemory>
    requires { AllByRecursion (λ part. length (type_bytes part) < 2 ^ 32) types.now }
    ensures again { OnOk result (AllByRecursion
        (λ part. Reads type_at (type_bytes part) (cell_type part)) types.now) }
    ensures bytes { OnOk result (out.new.items ≡ out.old.items ++ flat_map type_bytes types.now) }
{
    for part in types {
        put_type(out, part)?;
    }
    Ok(())
}

#[tactic(auto, unfolding(crate::specs::Sections::types_bytes))]
pub(crate) fn put_types(
    alloc: Global,
    out: &mut Vec<u8>,
    types: &[TypePart],
) -> Result<(), NoMemory>
    requires { length (types_bytes types.now) < 2 ^ 32 }
    ensures again { OnOk result (ReadsAll types_at (types_bytes types.now)
        (map cell_type types.now)) }
    ensures bytes { OnOk result (out.new.items
        ≡ out.old.items ++ text_bytes (types_bytes types.now)) }
{
    let mut section = Vec::new(alloc);
    put_each_type(&mut section, types)?;
    put_text(out, &section)
}

#[tactic(auto, unfolding(crate::specs::Sections::globals_bytes))]
pub(crate) fn put_globals(
    alloc: Global,
    out: &mut Vec<u8>,
    globals: &GlobalPart,
) -> Result<(), NoMemory>
    requires { length (globals_bytes globals.now) < 2 ^ 32 }
    ensures again { OnOk result (ReadsAll globals_at (globals_bytes globals.now)
        (globals_of globals.now)) }
    ensures bytes { OnOk result (out.new.items
        ≡ out.old.items ++ text_bytes (globals_bytes globals.now)) }
{
    let mut section = Vec::new(alloc);
    put_word(&mut section, globals.words)?;
    put_list(&mut section, &globals.pointers)?;
    put_text(out, &section)
}

#[tactic(auto, unfolding(crate::specs::Sections::constants_bytes))]
pub(crate) fn put_constants(
    alloc: Global,
    out: &mut Vec<u8>,
    constants: &[u64],
) -> Result<(), NoMemory>
    requires { length (constants_bytes constants.now) < 2 ^ 32 }
    ensures again { OnOk result (ReadsAll constants_at (constants_bytes constants.now)
        constants.now) }
    ensures bytes { OnOk result (out.new.items
        ≡ out.old.items ++ text_bytes (constants_bytes constants.now)) }
{
    let mut section = Vec::new(alloc);
    put_word(&mut section, constants.len() as u32)?;
    for constant in constants {
        put_long(&mut section, *constant)?;
    }
    put_text(out, &section)
}

#[tactic(auto, unfolding(crate::specs::Fields::place_bytes))]
fn put_place(out: &mut Vec<u8>, file: u32, line: u32) -> Result<(), NoMemory>
    ensures again { OnOk result (ReadsFixed 8 pair_in (place_bytes (file, line)) (file, line)) }
    ensures bytes { OnOk result (out.new.items ≡ out.old.items ++ place_bytes (file, line)) }
{
    put_word(out, file)?;
    put_word(out, line)
}

fn put_each_place(out: &mut Vec<u8>, places: &[(u32, u32)]) -> Result<(), NoMemory>
    ensures again { OnOk result (AllByRecursion
        (λ place. ReadsFixed 8 pair_in (place_bytes place) place) places.now) }
    ensures bytes { OnOk result (out.new.items ≡ out.old.items ++ flat_map place_bytes places.now) }
{
    for (file, line) in places {
        put_place(out, *file, *line)?;
    }
    Ok(())
}

#[tactic(auto, unfolding(crate::specs::Sections::places_bytes))]
pub(crate) fn put_places(
    alloc: Global,
    out: &mut Vec<u8>,
    places: &PlacePart,
) -> Result<(), NoMemory>
    requires { length (places_bytes places.now) < 2 ^ 32 }
    ensures again { OnOk result (ReadsAll places_at (places_bytes places.now)
        (places_of places.now)) }
    ensures bytes { OnOk result (out.new.items
        ≡ out.old.items ++ text_bytes (places_bytes places.now)) }
{
    let mut section = Vec::new(alloc);
    put_word(&mut section, places.files.len() as u32)?;
    put_texts(&mut section, &places.files)?;
    put_word(&mut section, places.places.len() as u32)?;
    put_each_place(&mut section, &places.places)?;
    put_text(out, &section)
}

#[tactic(auto, unfolding(crate::specs::Sections::exceptions_bytes))]
pub(crate) fn put_exceptions(
    alloc: Global,
    out: &mut Vec<u8>,
    exceptions: &[Bytes],
) -> Result<(), NoMemory>
    requires { length (exceptions_bytes exceptions.now) < 2 ^ 32 }
    ensures again { OnOk result (ReadsAll names_at (exceptions_bytes exceptions.now)
        exceptions.now) }
    ensures bytes { OnOk result (out.new.items
        ≡ out.old.items ++ text_bytes (exceptions_bytes exceptions.now)) }
{
    let mut section = Vec::new(alloc);
    put_word(&mut section, exceptions.len() as u32)?;
    put_texts(&mut section, exceptions)?;
    put_text(out, &section)
}
