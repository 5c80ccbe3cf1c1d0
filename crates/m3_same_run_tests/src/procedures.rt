use crate::operations::{end_of, operation_of};
use bumpalo::Bump;
use bumpalo::collections::into_bump_slice;
use m3_mid::{Block, End, Kind, Proc, Slot};
use std::alloc::AllocError;

/// A formal, a slot whose address isn't taken, and one whose address is.
static SLOTS: [Slot; 3] = [
    Slot {
        kind: Kind::Number,
        is_shared: false,
    },
    Slot {
        kind: Kind::Number,
        is_shared: false,
    },
    Slot {
        kind: Kind::Number,
        is_shared: true,
    },
];

/// The procedure with these blocks, which begins at the first one and has so many temporaries.
pub fn procedure_of<'a>(arena: &'a Bump, temps: u32, text: &str) -> Result<Proc<'a>, AllocError> {
    let mut blocks = Vec::new(arena);
    for block in text.split("\nB") {
        blocks.push(block_of(arena, block)?)?;
    }
    let mut kinds = Vec::new(arena);
    for _ in 0..temps {
        kinds.push(Kind::Number)?;
    }
    Ok(Proc {
        temps: into_bump_slice(kinds),
        slots: &SLOTS,
        formals: 1,
        blocks: into_bump_slice(blocks),
        start: 0,
        loops: &[],
    })
}

/// The block of the lines behind the one that names it.
fn block_of<'a>(arena: &'a Bump, text: &str) -> Result<Block<'a>, AllocError> {
    let mut ops = Vec::new(arena);
    let mut end = End::Return { value: None };
    for line in text.lines().skip(1) {
        let line = line.strip_prefix("    ").unwrap_or(line);
        match end_of(line) {
            Some(found) => end = found,
            None => ops.push(operation_of(arena, line)?)?,
        }
    }
    Ok(Block {
        ops: into_bump_slice(ops),
        end,
    })
}
