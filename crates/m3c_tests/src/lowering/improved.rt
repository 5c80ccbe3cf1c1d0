use crate::lowering::lowered::Lowered;
use bumpalo::Bump;
use bumpalo::collections::into_bump_slice;
use m3_base::NoMemory;
use m3_passes::improve;
use std::alloc::Global;

/// A program behind the passes, and how many times one of them gave a procedure back.
#[derive(Clone, Copy)]
pub struct Improved<'a> {
    pub program: Lowered<'a>,
    pub given_back: u32,
}

impl<'a> Improved<'a> {
    /// Carries out the passes on each procedure.
    pub fn of(
        alloc: Global,
        arena: &'a Bump,
        program: Lowered<'a>,
    ) -> Result<Improved<'a>, NoMemory> {
        let mut procs = Vec::new(arena);
        let mut given_back = 0u32;
        for proc in program.procs {
            let improved = improve(alloc, arena, proc)?;
            given_back = given_back.saturating_add(improved.given_back);
            procs.push(improved.proc)?;
        }
        Ok(Improved {
            program: Lowered {
                procs: into_bump_slice(procs),
                ..program
            },
            given_back,
        })
    }
}
