//! The blocks with pointers in the places of addresses.
use crate::findings::{Findings, word_base};
use crate::pointers::Stand;
use bumpalo::Bump;
use bumpalo::collections::into_bump_slice;
use m3_base::{NoMemory, place_number};
use m3_flow::{Groups, Pair as Link};
use m3_mid::{Block, Kind, MemoryWord, MidOp, Operand, Proc, WordOperator};
use m3_same_forms::Pair;
use std::alloc::Global;

/// A procedure that was written again, and the proof that it has the same run.
#[derive(Drop)]
pub struct Written<'a> {
    pub proc: Proc<'a>,
    /// By temporary of the procedure as it was whether it is set as it was.
    pub common: Vec<bool>,
    /// At the number of each block its pair.
    pub pairs: Vec<Pair>,
}

/// The temporary that an operation sets that does nothing else.
fn only_set(op: MidOp<'_>) -> Option<u32> {
    match op {
        MidOp::Number { to, .. }
        | MidOp::Move { to, .. }
        | MidOp::Arith { to, .. }
        | MidOp::Compare { to, .. }
        | MidOp::Load { to, .. }
        | MidOp::SlotAddress { to, .. }
        | MidOp::FrameAddress { to }
        | MidOp::GlobalAddress { to, .. }
        | MidOp::ConstantAddress { to, .. }
        | MidOp::Index { to, .. } => Some(to),
        _ => None,
    }
}

fn at_stand(stand: Stand, offset: i32) -> MemoryWord {
    MemoryWord::At {
        base: stand.temp,
        offset: offset.saturating_add(stand.distance),
    }
}

/// Puts an operation before the first that loads or stores at a temporary, or before all: so what it
/// sets wants a register no longer than needed. The list is from the last operation to the first.
fn put_before<'a>(ops: &mut Vec<MidOp<'a>>, temp: u32, op: MidOp<'a>) -> Result<(), NoMemory> {
    let mut place = ops.len();
    for (at, other) in ops.iter().enumerate() {
        if word_base(*other) == Some(temp) {
            place = at.saturating_add(1);
        }
    }
    if place <= ops.len() {
        ops.insert(place, op)?;
    }
    Ok(())
}

impl<'a> Findings<'a> {
    /// A word of memory by the pointer that stands in the place of its address.
    fn word(&self, word: MemoryWord) -> MemoryWord {
        if let MemoryWord::At { base, offset } = word
            && let Some(stand) = self.stand(base)
        {
            return at_stand(stand, offset);
        }
        word
    }

    fn renamed(&self, op: MidOp<'a>) -> MidOp<'a> {
        match op {
            MidOp::Load { to, from } => MidOp::Load {
                to,
                from: self.word(from),
            },
            MidOp::Store { at, from } => MidOp::Store {
                at: self.word(at),
                from,
            },
            _ => op,
        }
    }

    /// The sum to which an operation sets its temporary instead.
    fn changed(&self, op: MidOp<'a>) -> Option<MidOp<'a>> {
        let to = only_set(op)?;
        let sum = self.changed.get(to as usize).copied().flatten()?;
        Some(MidOp::Arith {
            to,
            operator: WordOperator::Add,
            left: Operand::Temp(sum.left),
            right: Operand::Temp(sum.right),
        })
    }

    /// The temporary that an operation sets, where it does nothing else and that isn't used any more.
    fn idle_result(&self, op: MidOp<'a>) -> Option<u32> {
        let to = only_set(op)?;
        let is_idle = self.stand(to).is_some()
            || (self.temps.uses(to) == 0 && self.temps.is_set_once(to));
        if is_idle { Some(to) } else { None }
    }

    /// The operations of a block that are still needed, from its end to its front.
    fn needed(
        &mut self,
        alloc: Global,
        ops: &[MidOp<'a>],
        common: &mut Vec<bool>,
    ) -> Result<Vec<MidOp<'a>>, NoMemory> {
        let mut kept = Vec::new(alloc);
        for op in ops.iter().rev() {
            match self.idle_result(*op) {
                Some(to) => {
                    self.temps.forget(*op)?;
                    if let Some(is_common) = common.get_mut(to as usize) {
                        *is_common = false;
                    }
                    if let Some(sum) = self.changed(*op) {
                        put_before(&mut kept, to, sum)?;
                    }
                }
                None => kept.push(self.renamed(*op))?,
            }
        }
        kept.reverse();
        Ok(kept)
    }

    /// What a block before loops does at its end for the pointers that begin there.
    fn begin(&self, row: &[u32], ops: &mut Vec<MidOp<'a>>) -> Result<(), NoMemory> {
        for number in row {
            if let Some(pointer) = self.pointers.get(*number as usize) {
                for op in &pointer.begin {
                    ops.push(*op)?;
                }
            }
        }
        Ok(())
    }

    /// What a block that ends a turn does for the pointers that move there, before the last operation,
    /// which counts.
    fn go_on(&self, row: &[u32], ops: &mut Vec<MidOp<'a>>) -> Result<(), NoMemory> {
        let count = if row.is_empty() { None } else { ops.pop() };
        for number in row {
            if let Some(pointer) = self.pointers.get(*number as usize)
                && pointer.step != 0
            {
                ops.push(MidOp::Arith {
                    to: pointer.temp,
                    operator: WordOperator::Add,
                    left: Operand::Temp(pointer.temp),
                    right: Operand::Number(pointer.step.cast_signed()),
                })?;
            }
        }
        if let Some(op) = count {
            ops.push(op)?;
        }
        Ok(())
    }

    /// By block the pointers that begin there, and those that move there.
    fn moves(&self, alloc: Global, blocks: usize) -> Result<(Groups, Groups), NoMemory> {
        let mut begun = Vec::new(alloc);
        let mut moved = Vec::new(alloc);
        for (number, pointer) in self.pointers.iter().enumerate() {
            let item = place_number(number)?;
            begun.push(Link {
                group: pointer.before,
                item,
            })?;
            moved.push(Link {
                group: pointer.turn,
                item,
            })?;
        }
        Ok((
            Groups::of(alloc, blocks, &begun)?,
            Groups::of(alloc, blocks, &moved)?,
        ))
    }

    /// The blocks again, and which temporaries are set as they were.
    fn blocks(
        &mut self,
        alloc: Global,
        arena: &'a Bump,
        blocks: &[Block<'a>],
        common: &mut Vec<bool>,
    ) -> Result<&'a [Block<'a>], NoMemory> {
        let (begun, moved) = self.moves(alloc, blocks.len())?;
        let mut all = Vec::new(arena);
        for (number, block) in blocks.iter().enumerate() {
            let number = place_number(number)?;
            let mut ops = self.needed(alloc, block.ops, common)?;
            self.go_on(moved.row(number), &mut ops)?;
            self.begin(begun.row(number), &mut ops)?;
            all.push(Block {
                ops: into_bump_slice(Vec::from_slice(arena, &ops)?),
                end: block.end,
            })?;
        }
        Ok(into_bump_slice(all))
    }

    /// The kinds of the temporaries, with those of the pointers behind them.
    fn kinds(&self, arena: &'a Bump) -> Result<&'a [Kind], NoMemory> {
        let mut kinds = Vec::new(arena);
        kinds.extend_from_slice(self.proc.temps)?;
        for pointer in &self.pointers {
            kinds.push(pointer.kind)?;
        }
        Ok(into_bump_slice(kinds))
    }

    /// The procedure with what was found in the places of addresses.
    pub fn written(&mut self, alloc: Global, arena: &'a Bump) -> Result<Written<'a>, NoMemory> {
        let p = self.proc;
        let mut common = vec![in alloc; true; p.temps.len()]?;
        let blocks = self.blocks(alloc, arena, p.blocks, &mut common)?;
        let temps = self.kinds(arena)?;
        let pairs = self.pairs(alloc, p.blocks.len())?;
        Ok(Written {
            proc: Proc { temps, blocks, ..p },
            common,
            pairs,
        })
    }
}
