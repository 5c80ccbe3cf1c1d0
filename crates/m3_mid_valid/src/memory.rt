ghost use Rattle.std.specs.Prelude.{◌↔◌, ◌<◌, IsTrue, length};
ghost use Rattle.m3_mid_valid.specs.Memory.{HasSlotKind, IsSharedSlot, AreSlots, LoadsSlot};
ghost use Rattle.m3_mid_valid.specs.Memory.{FitsLoad, StoresSlot, FitsStore, FitsRow, FitsFill};

use crate::operands::{has_kind, is_operand, is_temp, is_tidy, is_untidy, is_word};
use m3_mid::{Kind, MemoryWord, Operand, Proc, Slot};

/// Whether a slot is there and of a kind.
pub(crate) fn has_slot_kind(slots: &[Slot], slot: usize, kind: Kind) -> bool
    ensures { IsTrue result ↔ HasSlotKind slots.now slot kind }
{
    match slots.get(slot) {
        Some(slot) => slot.kind == kind,
        None => false,
    }
}

/// Whether a slot is there, and its address may be taken.
pub(crate) fn is_shared_slot(slots: &[Slot], slot: u32) -> bool
    ensures { IsTrue result ↔ IsSharedSlot slots.now slot }
{
    match slots.get(slot as usize) {
        Some(slot) => slot.is_shared,
        None => false,
    }
}

/// Whether so many slots from one on are there.
pub(crate) fn are_slots(slots: &[Slot], first: u32, count: u32) -> bool
    ensures { IsTrue result ↔ AreSlots slots.now first count }
{
    first as usize + count as usize <= slots.len()
}

/// Whether a slot may be loaded into a temporary.
fn loads_slot(p: &Proc, to: u32, slot: u32) -> bool
    ensures { IsTrue result ↔ LoadsSlot p.now to slot }
{
    (has_slot_kind(p.slots, slot as usize, Kind::Number) && is_temp(p.temps, to))
        || ((has_slot_kind(p.slots, slot as usize, Kind::Tidy) && has_kind(p.temps, to, Kind::Tidy))
            || ((slot as usize) < p.slots.len() && has_kind(p.temps, to, Kind::Address)))
}

/// Whether a word of memory may be loaded into a temporary.
pub(crate) fn fits_load(p: &Proc, global_words: u32, to: u32, from: MemoryWord) -> bool
    ensures { IsTrue result ↔ FitsLoad p.now global_words to from }
{
    match from {
        MemoryWord::Slot(slot) => loads_slot(p, to, slot),
        MemoryWord::Environment => is_untidy(p.temps, to),
        MemoryWord::Global(word) => is_temp(p.temps, to) && word < global_words,
        MemoryWord::At { base, offset: _ } => is_temp(p.temps, to) && is_temp(p.temps, base),
    }
}

/// Whether an operand may be stored in a slot.
fn stores_slot(p: &Proc, slot: u32, from: Operand) -> bool
    ensures { IsTrue result ↔ StoresSlot p.now slot from }
{
    (has_slot_kind(p.slots, slot as usize, Kind::Number) && is_word(p.temps, from))
        || (has_slot_kind(p.slots, slot as usize, Kind::Tidy) && is_tidy(p.temps, from))
}

/// Whether an operand may be stored in a word of memory.
pub(crate) fn fits_store(p: &Proc, global_words: u32, at: MemoryWord, from: Operand) -> bool
    ensures { IsTrue result ↔ FitsStore p.now global_words at from }
{
    match at {
        MemoryWord::Slot(slot) => stores_slot(p, slot, from),
        MemoryWord::Environment => false,
        MemoryWord::Global(word) => is_word(p.temps, from) && word < global_words,
        MemoryWord::At { base, offset: _ } => is_word(p.temps, from) && is_temp(p.temps, base),
    }
}

/// Whether words at two addresses may be copied or compared.
pub(crate) fn fits_row(p: &Proc, first: u32, second: u32, count: Operand) -> bool
    ensures { IsTrue result ↔ FitsRow p.now first second count }
{
    is_temp(p.temps, first) && (is_temp(p.temps, second) && is_operand(p.temps, count))
}

/// Whether words at an address may be filled.
pub(crate) fn fits_fill(p: &Proc, at: u32, count: Operand, distance: Operand) -> bool
    ensures { IsTrue result ↔ FitsFill p.now at count distance }
{
    is_temp(p.temps, at) && (is_operand(p.temps, count) && is_operand(p.temps, distance))
}
