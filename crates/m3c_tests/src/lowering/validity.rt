use crate::lowering::lowered::Lowered;
use m3_base::{NoMemory, place_number};
use m3_gen_parts::type_parts;
use m3_mid::Proc;
use m3_mid_text::Text;
use m3_mid_valid::{Surroundings, is_block, is_valid};
use std::alloc::Global;

/// The first procedure of a program that isn't well formed, as its text; none where all are.
pub fn first_broken(alloc: Global, program: Lowered<'_>) -> Result<Option<String>, NoMemory> {
    let Lowered {
        core,
        storage,
        procs,
    } = program;
    let formals = formals_of(alloc, program)?;
    let parts = type_parts(alloc, storage)?;
    let around = Surroundings {
        formals: formals.as_slice(),
        global_words: storage.global_words,
        texts: place_number(core.texts.len())?,
        constants: place_number(core.values.len())?,
        types: place_number(parts.len())?,
        exceptions: place_number(core.exceptions.len())?,
    };
    broken_of(alloc, procs, &around)
}

/// For each procedure the words of its formals.
fn formals_of(alloc: Global, program: Lowered<'_>) -> Result<Vec<u32>, NoMemory> {
    let mut formals = Vec::new(alloc);
    for number in 0..program.procs.len() {
        formals.push(program.storage.room(place_number(number)?).formals)?;
    }
    Ok(formals)
}

fn broken_of(
    alloc: Global,
    procs: &[Proc<'_>],
    around: &Surroundings<'_>,
) -> Result<Option<String>, NoMemory> {
    for (number, proc) in procs.iter().enumerate() {
        if !is_valid(proc, around) {
            let place = broken_block(proc, around);
            let text = Text(proc);
            return Ok(Some(format!(in alloc; "not valid: P{number} B{place}\n{text}")?));
        }
    }
    Ok(None)
}

/// The first block that isn't well formed, or how many there are where all are.
fn broken_block(p: &Proc<'_>, around: &Surroundings<'_>) -> usize {
    for (place, block) in p.blocks.iter().enumerate() {
        if !is_block(p, around, block) {
            return place;
        }
    }
    p.blocks.len()
}
