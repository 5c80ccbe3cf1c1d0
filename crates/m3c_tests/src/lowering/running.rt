use crate::lowering::lowered::Lowered;
use crate::lowering::stops::stop_text;
use bumpalo::Bump;
use bumpalo::collections::into_bump_slice;
use m3_base::NoMemory;
use m3_gen_parts::{Constants, type_parts};
use m3_image_writer::TypePart;
use m3_mid_run::{CellType, Ending, Program, run};
use std::alloc::Global;

/// The most steps of a run.
const STEPS: u64 = 200_000_000;

/// How the run of a program ends and how many points it passes, and what it puts where that isn't
/// what is expected.
pub fn run_lowered<'a>(
    alloc: Global,
    arena: &'a Bump,
    lowered: Lowered<'a>,
    input: &[u8],
    expected: &[u8],
) -> Result<String, NoMemory> {
    let program = program_of(alloc, arena, lowered)?;
    let input = &*arena.try_alloc_slice_copy(input)?;
    let Ending {
        stop,
        output,
        points,
    } = run(alloc, program, input, STEPS);
    let stop = stop_text(alloc, lowered.core, stop)?;
    let mut answer = format!(in alloc; "{stop} points {points}")?;
    if output.as_slice() != expected {
        answer.push_str(", and puts ")?;
        add_bytes(&mut answer, output.as_slice())?;
    }
    Ok(answer)
}

/// A program that can be carried out, all of it in the arena.
fn program_of<'a>(
    alloc: Global,
    arena: &'a Bump,
    lowered: Lowered<'a>,
) -> Result<Program<'a>, NoMemory> {
    let Lowered {
        core,
        storage,
        procs,
    } = lowered;
    let parts = type_parts(alloc, storage)?;
    let constants = Constants::of(alloc, core.texts, storage)?;
    Ok(Program {
        procs,
        order: core.order,
        global_words: storage.global_words,
        types: cell_types(arena, parts.as_slice())?,
        constants: &*arena.try_alloc_slice_copy(constants.words.as_slice())?,
        texts: &*arena.try_alloc_slice_copy(constants.texts.as_slice())?,
        values: &*arena.try_alloc_slice_copy(constants.values.as_slice())?,
    })
}

fn cell_types<'a>(arena: &'a Bump, parts: &[TypePart]) -> Result<&'a [CellType<'a>], NoMemory> {
    let mut types = Vec::new(arena);
    for part in parts {
        types.push(cell_type(arena, part)?)?;
    }
    Ok(into_bump_slice(types))
}

/// A type of cells, with a copy of its methods in the arena.
fn cell_type<'a>(arena: &'a Bump, part: &TypePart) -> Result<CellType<'a>, NoMemory> {
    Ok(CellType {
        parent: if part.parent == u32::MAX {
            None
        } else {
            Some(part.parent)
        },
        words: u64::from(part.words),
        dims: part.dims,
        methods: &*arena.try_alloc_slice_copy(part.methods.as_slice())?,
    })
}

/// Adds bytes, each as the character of its number.
pub fn add_bytes(text: &mut String, bytes: &[u8]) -> Result<(), NoMemory> {
    for byte in bytes {
        text.push(char::from(*byte))?;
    }
    Ok(())
}
