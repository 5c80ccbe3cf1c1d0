use crate::lowering::lowered::Lowered;
use bumpalo::Bump;
use m3_alloc::allocate;
use m3_base::{NoMemory, place_number};
use m3_derive::derive;
use m3_mid::Proc;
use m3_source::frame_words;
use std::alloc::Global;

/// The first procedure whose frame is larger than its share; none where all are within it.
pub fn first_large<'a>(
    alloc: Global,
    arena: &'a Bump,
    program: Lowered<'a>,
) -> Result<Option<String>, NoMemory> {
    for (number, proc) in program.procs.iter().enumerate() {
        let words = words_of_frame(alloc, arena, proc)?;
        let most = frame_words(program.core, place_number(number)?);
        if u64::from(words) > most {
            return Ok(Some(format!(in alloc; "P{number} has {words} words for {most}")?));
        }
    }
    Ok(None)
}

/// The words of the frame that a procedure gets.
fn words_of_frame<'a>(alloc: Global, arena: &'a Bump, proc: &Proc<'a>) -> Result<u32, NoMemory> {
    let derived = derive(alloc, arena, proc)?;
    let placed = allocate(alloc, &derived)?;
    Ok(placed.frame)
}
