use m3_base::{NoMemory, place_number};
use m3_derive::Derived;
use m3_flow::{actuals_of, exits_of, ops_of, settings_of, shown_at};
use m3_mid::{Actual, Held, Kind, MemoryWord, MidOp, Proc};
use std::alloc::Global;

/// How often the slots are named, and the temporaries set.
#[derive(Drop)]
struct Counts {
    /// At a slot the namings that begin, less those that ended at the slot before.
    begins: Vec<i64>,
    settings: Vec<u32>,
}

impl Counts {
    fn change(&mut self, slot: usize, by: i64) {
        if let Some(count) = self.begins.get_mut(slot) {
            *count = count.saturating_add(by);
        }
    }

    fn name(&mut self, first: u32, count: u32) {
        self.change(first as usize, 1);
        self.change((first as usize).saturating_add(count as usize), -1);
    }

    fn name_word(&mut self, word: MemoryWord) {
        if let MemoryWord::Slot(slot) = word {
            self.name(slot, 1);
        }
    }

    fn name_op(&mut self, op: MidOp) {
        match op {
            MidOp::Load { to: _, from } => self.name_word(from),
            MidOp::Store { at, from: _ } => self.name_word(at),
            // Words behind it can be reached from an address too.
            MidOp::SlotAddress { to: _, slot } => self.name(slot, u32::MAX),
            MidOp::Make {
                sizes: Some(slot),
                ..
            } => self.name(slot, 1),
            _ => {}
        }
    }

    fn add_op(&mut self, op: MidOp) {
        self.name_op(op);
        for actual in actuals_of(op) {
            if let Actual::Slots { first, count } = actual {
                self.name(*first, *count);
            }
        }
        for shown in shown_at(op) {
            if let Held::Slot(slot) = shown.at {
                self.name(slot, 1);
            }
        }
        for setting in settings_of(op) {
            if let Some(temp) = setting
                && let Some(count) = self.settings.get_mut(temp as usize)
            {
                *count = count.saturating_add(1);
            }
        }
    }

    /// Puts in the place of the changes the sums.
    fn sum(&mut self) {
        let mut total = 0i64;
        for count in self.begins.iter_mut() {
            total = total.saturating_add(*count);
            *count = total;
        }
    }
}

fn is_entered(p: &Proc, block: u32) -> bool {
    for other in p.blocks {
        for exit in exits_of(other.end) {
            if exit == Some(block) {
                return true;
            }
        }
    }
    false
}

/// Whether a temporary that is loaded from a slot can have the slot itself as its place.
fn is_home(d: &Derived, counts: &Counts, temp: u32, slot: u32) -> bool {
    let kind = d.proc.temps.get(temp as usize).copied();
    let settings = counts.settings.get(temp as usize).copied().unwrap_or(0);
    match d.proc.slots.get(slot as usize) {
        Some(word) => {
            slot < d.proc.formals
                && !word.is_shared
                && word.kind != Kind::Address
                && kind == Some(word.kind)
                && (settings == 1 || word.kind == Kind::Number)
                && counts.begins.get(slot as usize).copied() == Some(1)
        }
        None => false,
    }
}

/// For each temporary that a procedure loads at its start from a formal which nothing else names:
/// the slot of that formal.
pub(crate) fn homes_of(alloc: Global, d: &Derived) -> Result<Vec<Option<u32>>, NoMemory> {
    let mut homes = vec![in alloc; None; d.proc.temps.len()]?;
    let mut counts = Counts {
        begins: vec![in alloc; 0i64; d.proc.slots.len().saturating_add(1)]?,
        settings: vec![in alloc; 0u32; d.proc.temps.len()]?,
    };
    for block in d.proc.blocks {
        for op in block.ops {
            counts.add_op(*op);
        }
    }
    counts.sum();
    let _slots = place_number(d.proc.slots.len())?;
    if !is_entered(&d.proc, d.proc.start) {
        for op in ops_of(&d.proc, d.proc.start) {
            if let MidOp::Load {
                to,
                from: MemoryWord::Slot(slot),
            } = op
                && is_home(d, &counts, *to, *slot)
                && let Some(home) = homes.get_mut(*to as usize)
            {
                *home = Some(*slot);
            }
        }
    }
    Ok(homes)
}
