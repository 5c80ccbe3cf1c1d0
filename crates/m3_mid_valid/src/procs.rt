ghost use Rattle.std.specs.Prelude.{◌≡◌, ◌↔◌, ◌<◌, ◌≤◌, ℕ, [], IsTrue, length, All, slice_get};
ghost use Rattle.std.specs.Prelude.{IsSomeAnd};
ghost use Rattle.m3_mid_valid.specs.WellFormed.{IsOp, IsBlock, IsSlot, IsIndex, IsAccess, IsMark};
ghost use Rattle.m3_mid_valid.specs.WellFormed.{IsWellFormed};

use crate::memory::has_slot_kind;
use crate::operands::{Surroundings, has_kind};
use crate::ops::{is_end, is_op};
use m3_mid::{AccessMark, Block, ForMark, Kind, MidOp, Proc};

/// Whether a block of a procedure is well formed.
pub fn is_block(p: &Proc, around: &Surroundings, block: &Block) -> bool
    ensures { IsTrue result ↔ IsBlock p.now around.now block.now }
{
    are_ops(p, around, block.ops) && is_end(p, around, block.end)
}

fn are_ops(p: &Proc, around: &Surroundings, ops: &[MidOp]) -> bool
    ensures { IsTrue result ↔ All (IsOp p.now around.now) ops.now }
{
    ops.iter().all(|op| is_op(p, around, *op))
}

fn are_blocks(p: &Proc, around: &Surroundings, blocks: &[Block]) -> bool
    ensures { IsTrue result ↔ All (IsBlock p.now around.now) blocks.now }
{
    blocks.iter().all(|block| is_block(p, around, block))
}

fn is_slot(p: &Proc, slot: usize) -> bool
    requires { slot < length p.now.slots.now }
    ensures { IsTrue result ↔ IsSlot p.now slot }
{
    has_slot_kind(p.slots, slot, Kind::Number)
        || (has_slot_kind(p.slots, slot, Kind::Tidy)
            || (slot + 1 < p.formals as usize && has_slot_kind(p.slots, slot + 1, Kind::Tidy)))
}

fn are_slots_well(p: &Proc) -> bool
    ensures { IsTrue result ↔ ((s : ℕ) → s < length p.now.slots.now → IsSlot p.now s) }
{
    for slot in 0..p.slots.len() {
        if !is_slot(p, slot) {
            return false;
        }
    }
    true
}

fn is_index(op: &MidOp) -> bool
    ensures { IsTrue result ↔ IsIndex op.now }
{
    match op {
        MidOp::Index { .. } => true,
        _ => false,
    }
}

fn is_index_at(ops: &[MidOp], place: u32) -> bool
    ensures { IsTrue result ↔ IsSomeAnd (slice_get ops.now place) IsIndex }
{
    match ops.get(place as usize) {
        Some(op) => is_index(op),
        None => false,
    }
}

fn is_access(p: &Proc, access: &AccessMark) -> bool
    ensures { IsTrue result ↔ IsAccess p.now access.now }
{
    has_kind(p.temps, access.array, Kind::Tidy)
        && match p.blocks.get(access.block as usize) {
            Some(block) => is_index_at(block.ops, access.op),
            None => false,
        }
}

fn are_accesses(p: &Proc, accesses: &[AccessMark]) -> bool
    ensures { IsTrue result ↔ All (IsAccess p.now) accesses.now }
{
    accesses.iter().all(|access| is_access(p, access))
}

fn is_mark(p: &Proc, mark: &ForMark) -> bool
    ensures { IsTrue result ↔ IsMark p.now mark.now }
{
    (mark.before as usize) < p.blocks.len()
        && ((mark.turn as usize) < p.blocks.len()
            && ((mark.accesses.len() == 0 || has_kind(p.temps, mark.index, Kind::Number))
                && are_accesses(p, mark.accesses)))
}

fn are_marks(p: &Proc, loops: &[ForMark]) -> bool
    ensures { IsTrue result ↔ All (IsMark p.now) loops.now }
{
    loops.iter().all(|mark| is_mark(p, mark))
}

/// Whether a procedure is well formed in its program.
pub fn is_valid(p: &Proc, around: &Surroundings) -> bool
    ensures { IsTrue result ↔ IsWellFormed p.now around.now }
{
    p.formals as usize <= p.slots.len()
        && (are_slots_well(p)
            && ((p.start as usize) < p.blocks.len()
                && (are_blocks(p, around, p.blocks) && are_marks(p, p.loops))))
}
