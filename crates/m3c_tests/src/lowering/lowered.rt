use bumpalo::Bump;
use bumpalo::collections::into_bump_slice;
use m3_base::{NoMemory, place_number};
use m3_core::Core;
use m3_lower_stmt::lower_proc;
use m3_lower_storage::Storage;
use m3_mid::Proc;
use std::alloc::Global;

/// A checked program, where it keeps its things, and the middle code of its procedures.
#[derive(Clone, Copy)]
pub struct Lowered<'a> {
    pub core: &'a Core<'a>,
    pub storage: &'a Storage<'a>,
    pub procs: &'a [Proc<'a>],
}

impl<'a> Lowered<'a> {
    /// Lowers a checked program, which goes to the arena.
    pub fn of(alloc: Global, arena: &'a Bump, core: Core<'a>) -> Result<Lowered<'a>, NoMemory> {
        let mut kept = Vec::new(arena);
        kept.push(core)?;
        match into_bump_slice(kept) {
            [core, ..] => lower(alloc, arena, core),
            [] => Err(NoMemory),
        }
    }

    /// The middle code of the procedure with a name; none where the program hasn't it.
    pub fn procedure(&self, name: &str) -> Option<&'a Proc<'a>> {
        for (number, proc) in self.core.procs.iter().enumerate() {
            if proc.name == name.as_bytes() {
                return self.procs.get(number);
            }
        }
        None
    }
}

/// Lowers a program in the arena.
fn lower<'a>(alloc: Global, arena: &'a Bump, core: &'a Core<'a>) -> Result<Lowered<'a>, NoMemory> {
    let mut kept = Vec::new(arena);
    kept.push(Storage::of(alloc, core)?)?;
    match into_bump_slice(kept) {
        [storage, ..] => Ok(Lowered {
            core,
            storage,
            procs: lower_procs(alloc, arena, core, storage)?,
        }),
        [] => Err(NoMemory),
    }
}

/// The middle code of all procedures.
fn lower_procs<'a>(
    alloc: Global,
    arena: &'a Bump,
    core: &'a Core<'a>,
    storage: &'a Storage<'a>,
) -> Result<&'a [Proc<'a>], NoMemory> {
    let mut procs = Vec::new(arena);
    for number in 0..core.procs.len() {
        procs.push(lower_proc(alloc, arena, core, storage, place_number(number)?)?)?;
    }
    Ok(into_bump_slice(procs))
}
