use crate::cover::Cover;
use crate::extents::Extents;
use m3_base::{NoMemory, place_number};
use m3_derive::Derived;
use std::alloc::Global;

/// The registers that temporaries have somewhere in a block, and those that they have at its end,
/// each as a bit.
#[derive(Clone, Copy, PartialEq, Eq)]
pub struct Busy {
    pub whole: u64,
    pub end: u64,
}

/// By block, the registers of temporaries that are live there, or set for nobody.
pub(crate) fn busy_of(
    alloc: Global,
    d: &Derived,
    extents: &Extents,
    cover: &Cover,
) -> Result<Vec<Busy>, NoMemory> {
    let mut busy = Vec::new(alloc);
    for (at, block) in d.proc.blocks.iter().enumerate() {
        let number = place_number(at)?;
        let front = extents.live.place(number, 0) as usize;
        let end = front.saturating_add(block.ops.len());
        let behind = end.saturating_add(1);
        busy.push(Busy {
            whole: cover.taken(front, behind),
            end: cover.taken(end, behind),
        })?;
    }
    Ok(busy)
}
