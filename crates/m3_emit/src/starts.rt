use crate::writer::Writer;
use m3_base::{NoMemory, place_number};
use m3_flow::is_point;
use m3_gen_instructions::word_of;
use m3_isa::Op;
use m3_mid::{Block, MemoryWord, MidOp, Proc};
use m3_tables::Location;
use std::alloc::Global;

/// Whether the operations behind one can't be told from before it: it passes a point, or reads
/// words of the frame that it doesn't name.
fn may_read_frame(op: MidOp) -> bool {
    is_point(op)
        || matches!(
            op,
            MidOp::SlotAddress { .. }
                | MidOp::FrameAddress { .. }
                | MidOp::Copy { .. }
                | MidOp::EqualWords { .. }
                | MidOp::Load {
                    to: _,
                    from: MemoryWord::At { .. }
                }
        )
}

/// The slots that the start sets before anything can read or list them.
fn note_set(start: Block, is_set: &mut Vec<bool>, is_read: &mut Vec<bool>) {
    for op in start.ops {
        if may_read_frame(*op) {
            return;
        }
        match op {
            MidOp::Load {
                to: _,
                from: MemoryWord::Slot(slot),
            } => {
                if let Some(item) = is_read.get_mut(*slot as usize) {
                    *item = true;
                }
            }
            MidOp::Store {
                at: MemoryWord::Slot(slot),
                from: _,
            } => {
                if let Some(item) = is_set.get_mut(*slot as usize) {
                    *item = true;
                }
            }
            _ => {}
        }
    }
}

/// The words of the slots that have to be made 0 at the start, rising.
pub(crate) fn unset_words(alloc: Global, p: &Proc) -> Result<Vec<u32>, NoMemory> {
    let mut is_set = vec![in alloc; false; p.slots.len()]?;
    let mut is_read = vec![in alloc; false; p.slots.len()]?;
    if let Some(start) = p.blocks.get(p.start as usize) {
        note_set(*start, &mut is_set, &mut is_read);
    }
    let mut words = Vec::new(alloc);
    for at in 0..p.slots.len() {
        let slot = place_number(at)?;
        let is_set = is_set.get(at).copied().unwrap_or(false);
        let is_read = is_read.get(at).copied().unwrap_or(true);
        if p.formals <= slot && (!is_set || is_read) {
            words.push(word_of(slot))?;
        }
    }
    Ok(words)
}

impl<'a> Writer<'a> {
    /// Makes words in a row 0.
    fn clear_run(&mut self, first: u32, count: u32) -> Result<(), NoMemory> {
        self.emitter.unpin();
        let zero = self.emitter.number(0)?;
        if count < 6 {
            for at in 0..count {
                self.emitter
                    .put_word(Op::Sts, zero, first.saturating_add(at))?;
            }
            return Ok(());
        }
        self.emitter.put_word(Op::Sts, zero, first)?;
        let at = self.emitter.scratch()?;
        self.emitter.put_word(Op::Slot, at, first)?;
        let rest = self.emitter.number(i64::from(count).saturating_sub(1))?;
        let one = self.emitter.number(1)?;
        self.emitter.put_abc(Op::Fill, at, rest, one)
    }

    /// Makes words 0 that rise.
    fn clear_words(&mut self, words: &[u32]) -> Result<(), NoMemory> {
        let mut first = 0u32;
        let mut count = 0u32;
        for word in words {
            if count > 0 && first.saturating_add(count) == *word {
                count = count.saturating_add(1);
            } else {
                if count > 0 {
                    self.clear_run(first, count)?;
                }
                first = *word;
                count = 1;
            }
        }
        if count > 0 {
            self.clear_run(first, count)?;
        }
        Ok(())
    }

    /// Makes 0 what is read or listed before it is set.
    pub(crate) fn put_start(&mut self, words: &mut Vec<u32>) -> Result<(), NoMemory> {
        let placed = self.emitter.placed;
        for temp in &placed.at_start {
            match self.emitter.place_of(*temp) {
                Location::Register(register) => {
                    self.emitter.put_imm(Op::Li, register, 0, 0)?;
                }
                Location::Slot(word) => words.push(word)?,
            }
        }
        words.sort()?;
        self.clear_words(words)
    }
}
