//! The marks of loops, by the operations that now give the addresses.
use crate::alive::only_set;
use crate::rewriting::Rewriting;
use bumpalo::Bump;
use bumpalo::collections::into_bump_slice;
use m3_base::{NoMemory, place_number};
use m3_flow::ops_of;
use m3_mid::{AccessMark, Block, ForMark, Proc};
use std::alloc::Global;

/// An operation of a procedure.
#[derive(Clone, Copy)]
struct Place {
    block: u32,
    op: u32,
}

/// By temporary the last operation that sets it and does nothing else.
#[derive(Drop)]
struct Setters {
    places: Vec<Option<Place>>,
}

impl Setters {
    fn of(alloc: Global, temps: usize, blocks: &[Block<'_>]) -> Result<Setters, NoMemory> {
        let mut setters = Setters {
            places: vec![in alloc; None; temps]?,
        };
        for (block, content) in blocks.iter().enumerate() {
            let block = place_number(block)?;
            for (op, operation) in content.ops.iter().enumerate() {
                let op = place_number(op)?;
                if let Some(to) = only_set(*operation)
                    && let Some(place) = setters.places.get_mut(to as usize)
                {
                    *place = Some(Place { block, op });
                }
            }
        }
        Ok(setters)
    }

    fn place(&self, temp: u32) -> Option<Place> {
        self.places.get(temp as usize).copied().flatten()
    }
}

/// The mark of an access; none where nothing uses its address any more, or where several operations
/// set the temporary that holds it.
fn access_of(
    p: &Proc<'_>,
    rewriting: &Rewriting<'_>,
    setters: &Setters,
    mark: AccessMark,
) -> Option<AccessMark> {
    let op = ops_of(p, mark.block).get(mark.op as usize)?;
    let to = rewriting.names.temp(only_set(*op)?);
    if !rewriting.is_set_once(to) {
        return None;
    }
    let Place { block, op } = setters.place(to)?;
    Some(AccessMark {
        block,
        op,
        array: rewriting.names.temp(mark.array),
        words: mark.words,
    })
}

/// The marks of a procedure's loops in the blocks that were written.
pub(crate) fn loops_of<'a>(
    alloc: Global,
    arena: &'a Bump,
    p: &Proc<'a>,
    rewriting: &Rewriting<'a>,
    blocks: &[Block<'a>],
) -> Result<&'a [ForMark<'a>], NoMemory> {
    if p.loops.is_empty() {
        return Ok(p.loops);
    }
    let setters = Setters::of(alloc, p.temps.len(), blocks)?;
    let mut loops = Vec::new(arena);
    for mark in p.loops {
        let mut accesses = Vec::new(arena);
        for access in mark.accesses {
            if let Some(access) = access_of(p, rewriting, &setters, *access) {
                accesses.push(access)?;
            }
        }
        loops.push(ForMark {
            before: mark.before,
            turn: mark.turn,
            index: mark.index,
            accesses: into_bump_slice(accesses),
        })?;
    }
    Ok(into_bump_slice(loops))
}
