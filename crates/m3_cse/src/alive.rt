//! Results that are used no more are not computed.
use crate::rewriting::{Draft, Rewriting};
use m3_base::NoMemory;
use m3_flow::{end_operands, temp_of, uses_of};
use m3_mid::{MidOp, Proc};
use std::alloc::Global;

/// How often each temporary is used, and which are set no more.
#[derive(Drop)]
pub(crate) struct Alive {
    counts: Vec<u32>,
    pub(crate) is_gone: Vec<bool>,
    uses: Vec<u32>,
}

/// The temporary that an operation sets that does nothing else.
pub(crate) fn only_set(op: MidOp<'_>) -> Option<u32> {
    match op {
        MidOp::Number { to, .. }
        | MidOp::Move { to, .. }
        | MidOp::Arith { to, .. }
        | MidOp::Compare { to, .. }
        | MidOp::Load { to, .. }
        | MidOp::SlotAddress { to, .. }
        | MidOp::FrameAddress { to }
        | MidOp::GlobalAddress { to, .. }
        | MidOp::TextCell { to, .. }
        | MidOp::ConstantAddress { to, .. }
        | MidOp::Index { to, .. }
        | MidOp::EqualWords { to, .. }
        | MidOp::TypeTest { to, .. }
        | MidOp::MethodOf { to, .. }
        | MidOp::TextByte { to, .. }
        | MidOp::EqualTexts { to, .. } => Some(to),
        _ => None,
    }
}

impl Alive {
    pub(crate) fn of(alloc: Global, p: &Proc<'_>, drafts: &[Draft<'_>]) -> Result<Alive, NoMemory> {
        let mut alive = Alive {
            counts: vec![in alloc; 0u32; p.temps.len()]?,
            is_gone: vec![in alloc; false; p.temps.len()]?,
            uses: Vec::new(alloc),
        };
        for draft in drafts {
            for op in &draft.ops {
                alive.list(*op)?;
                alive.count();
            }
            for operand in end_operands(draft.end) {
                if let Some(temp) = temp_of(operand) {
                    alive.add(temp);
                }
            }
        }
        Ok(alive)
    }

    fn list(&mut self, op: MidOp<'_>) -> Result<(), NoMemory> {
        self.uses.clear();
        uses_of(op, &mut self.uses)
    }

    fn add(&mut self, temp: u32) {
        if let Some(count) = self.counts.get_mut(temp as usize) {
            *count = count.saturating_add(1);
        }
    }

    fn count(&mut self) {
        for temp in &self.uses {
            if let Some(count) = self.counts.get_mut(*temp as usize) {
                *count = count.saturating_add(1);
            }
        }
    }

    fn uncount(&mut self) {
        for temp in &self.uses {
            if let Some(count) = self.counts.get_mut(*temp as usize) {
                *count = count.saturating_sub(1);
            }
        }
    }

    /// Whether an operation does nothing that is used.
    fn is_idle(&self, rewriting: &Rewriting<'_>, op: MidOp<'_>) -> bool {
        match only_set(op) {
            Some(to) => {
                rewriting.is_set_once(to) && self.counts.get(to as usize).copied() == Some(0)
            }
            None => false,
        }
    }

    /// Takes out of a block, from its end to its front, what does nothing that is used.
    pub(crate) fn thin<'a>(
        &mut self,
        alloc: Global,
        rewriting: &Rewriting<'a>,
        ops: &[MidOp<'a>],
    ) -> Result<Vec<MidOp<'a>>, NoMemory> {
        let mut kept = Vec::new(alloc);
        for op in ops.iter().rev() {
            if self.is_idle(rewriting, *op) {
                self.list(*op)?;
                self.uncount();
                if let Some(to) = only_set(*op)
                    && let Some(is_gone) = self.is_gone.get_mut(to as usize)
                {
                    *is_gone = true;
                }
            } else {
                kept.push(*op)?;
            }
        }
        kept.reverse();
        Ok(kept)
    }
}
