use m3_alloc::Placed;
use m3_base::NoMemory;
use m3_flow::{end_operands, settings_of, temp_of, uses_of};
use m3_mid::{Block, MemoryWord, MidOp, Operand, WordOperator};
use std::alloc::Global;

/// Shifts and the offsets of loads and stores are below this number, so that the sum of two fits an
/// instruction.
const BOUND: i64 = 1 << 30;

fn is_small(offset: i64) -> bool {
    -BOUND < offset && offset < BOUND
}

/// A temporary that grows by a small number right behind the operator that sets it.
fn growth_of(before: Option<MidOp>, op: MidOp) -> Option<(u32, i64)> {
    match (before, op) {
        (
            Some(MidOp::Arith { to: set, .. }),
            MidOp::Arith {
                to,
                operator: WordOperator::Add,
                left: Operand::Temp(from),
                right: Operand::Number(by),
            },
        ) if to == from && to == set && is_small(by) => Some((to, by)),
        _ => None,
    }
}

/// How temporaries are set and used.
#[derive(Drop)]
struct Uses {
    settings: Vec<u32>,
    /// How often a temporary grows right behind where it is set.
    growths: Vec<u32>,
    /// Whether a temporary is used as a word, and not only as the address of a word nearby or of
    /// an array.
    is_word: Vec<bool>,
    buffer: Vec<u32>,
}

impl Uses {
    fn use_word(&mut self, temp: u32) {
        if let Some(item) = self.is_word.get_mut(temp as usize) {
            *item = true;
        }
    }

    fn use_operand(&mut self, operand: Operand) {
        if let Some(temp) = temp_of(operand) {
            self.use_word(temp);
        }
    }

    fn use_address(&mut self, base: u32, offset: i32) {
        if !is_small(i64::from(offset)) {
            self.use_word(base);
        }
    }

    fn use_all(&mut self, op: MidOp) -> Result<(), NoMemory> {
        self.buffer.clear();
        uses_of(op, &mut self.buffer)?;
        for at in 0..self.buffer.len() {
            if let Some(temp) = self.buffer.get(at).copied() {
                self.use_word(temp);
            }
        }
        Ok(())
    }

    fn add_op(&mut self, before: Option<MidOp>, op: MidOp) -> Result<(), NoMemory> {
        for setting in settings_of(op) {
            if let Some(temp) = setting {
                count(&mut self.settings, temp);
            }
        }
        if let Some((temp, _by)) = growth_of(before, op) {
            count(&mut self.growths, temp);
            return Ok(());
        }
        match op {
            MidOp::Load {
                to: _,
                from: MemoryWord::At { base, offset },
            } => self.use_address(base, offset),
            MidOp::Store {
                at: MemoryWord::At { base, offset },
                from,
            } => {
                self.use_address(base, offset);
                self.use_operand(from);
            }
            MidOp::Index { index, .. } => self.use_operand(index),
            _ => self.use_all(op)?,
        }
        Ok(())
    }

    fn add_block(&mut self, block: Block) -> Result<(), NoMemory> {
        let mut before = None;
        for op in block.ops {
            self.add_op(before, *op)?;
            before = Some(*op);
        }
        for operand in end_operands(block.end) {
            self.use_operand(operand);
        }
        Ok(())
    }

    /// Whether what a temporary holds may differ from its word by a number: it is set once, but for
    /// so many growths right behind, and used as an address alone.
    fn can_shift(&self, temp: u32, growths: u32) -> bool {
        let at = temp as usize;
        self.settings.get(at).copied() == Some(growths.saturating_add(1))
            && self.growths.get(at).copied() == Some(growths)
            && self.is_word.get(at).copied() == Some(false)
    }
}

fn count(counts: &mut Vec<u32>, temp: u32) {
    if let Some(count) = counts.get_mut(temp as usize) {
        *count = count.saturating_add(1);
    }
}

fn uses_in(alloc: Global, placed: &Placed) -> Result<Uses, NoMemory> {
    let p = &placed.derived.proc;
    let mut uses = Uses {
        settings: vec![in alloc; 0u32; p.temps.len()]?,
        growths: vec![in alloc; 0u32; p.temps.len()]?,
        is_word: vec![in alloc; false; p.temps.len()]?,
        buffer: Vec::new(alloc),
    };
    for block in p.blocks {
        uses.add_block(*block)?;
    }
    for row_use in placed.derived.uses {
        uses.use_word(row_use.temp);
    }
    Ok(uses)
}

/// What an operation leaves to those that use the address which it sets: its temporary, and the
/// number.
fn shift_by(uses: &Uses, shifts: &[i32], before: Option<MidOp>, op: MidOp) -> Option<(u32, i64)> {
    if let Some((to, by)) = growth_of(before, op) {
        return if uses.can_shift(to, 1) {
            Some((to, by))
        } else {
            None
        };
    }
    match op {
        MidOp::Index {
            to,
            array,
            index: Operand::Temp(_),
            offset,
            ..
        } if uses.can_shift(to, 0) => {
            let before = shifts.get(array as usize).copied().unwrap_or(0);
            Some((to, offset.wrapping_add(i64::from(before))))
        }
        _ => None,
    }
}

/// By temporary, by how much the address that its place holds is less than it is. Where an address
/// in an array is used by loads and stores alone, and by addresses that go on from it, its offset is
/// left to these.
pub fn shifts_of(alloc: Global, placed: &Placed) -> Result<Vec<i32>, NoMemory> {
    let p = &placed.derived.proc;
    let uses = uses_in(alloc, placed)?;
    let mut shifts = vec![in alloc; 0i32; p.temps.len()]?;
    for block in p.blocks {
        let mut before = None;
        for op in block.ops {
            if let Some((to, sum)) = shift_by(&uses, &shifts, before, *op)
                && is_small(sum)
                && let Ok(shift) = i32::try_from(sum)
                && let Some(item) = shifts.get_mut(to as usize)
            {
                *item = shift;
            }
            before = Some(*op);
        }
    }
    Ok(shifts)
}
