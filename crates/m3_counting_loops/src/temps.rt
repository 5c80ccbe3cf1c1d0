//! How the temporaries of a procedure are set and used.
use crate::loops::Loop;
use m3_base::NoMemory;
use m3_flow::{end_of, end_operands, ops_of, settings_of, temp_of, uses_of};
use m3_mid::{End, MidOp, Proc};
use std::alloc::Global;

/// How often each temporary is set and used, in the procedure and in the loop at hand.
#[derive(Drop)]
pub(crate) struct Temps {
    sets: Vec<u32>,
    uses: Vec<u32>,
    /// By temporary the loop in which it was last found to be set, and 1 more.
    set_in: Vec<u32>,
    /// By temporary the block of the loop at hand that set it last, and 1 more.
    set_by: Vec<u32>,
    /// By temporary the loop for which it was last found to be live from block to block, and 1 more.
    held_in: Vec<u32>,
    /// How many are live from block to block in the loop at hand.
    pub(crate) held: u32,
    stamp: u32,
    listed: Vec<u32>,
}

pub(crate) fn add_to(counts: &mut [u32], at: u32, by: u32) {
    if let Some(count) = counts.get_mut(at as usize) {
        *count = count.saturating_add(by);
    }
}

fn has(stamps: &[u32], at: u32, stamp: u32) -> bool {
    stamps.get(at as usize).copied() == Some(stamp)
}

fn put(stamps: &mut [u32], at: u32, stamp: u32) {
    if let Some(place) = stamps.get_mut(at as usize) {
        *place = stamp;
    }
}

impl Temps {
    pub(crate) fn of(alloc: Global, p: &Proc<'_>) -> Result<Temps, NoMemory> {
        let count = p.temps.len();
        let mut temps = Temps {
            sets: vec![in alloc; 0u32; count]?,
            uses: vec![in alloc; 0u32; count]?,
            set_in: vec![in alloc; 0u32; count]?,
            set_by: vec![in alloc; 0u32; count]?,
            held_in: vec![in alloc; 0u32; count]?,
            held: 0,
            stamp: 0,
            listed: Vec::new(alloc),
        };
        for block in p.blocks {
            for op in block.ops {
                for setting in settings_of(*op) {
                    if let Some(temp) = setting {
                        add_to(&mut temps.sets, temp, 1);
                    }
                }
                temps.list(*op)?;
                temps.count_listed();
            }
            temps.count_end(block.end);
        }
        Ok(temps)
    }

    fn list(&mut self, op: MidOp<'_>) -> Result<(), NoMemory> {
        self.listed.clear();
        uses_of(op, &mut self.listed)
    }

    fn count_listed(&mut self) {
        for temp in &self.listed {
            add_to(&mut self.uses, *temp, 1);
        }
    }

    fn count_end(&mut self, end: End) {
        for operand in end_operands(end) {
            if let Some(temp) = temp_of(operand) {
                add_to(&mut self.uses, temp, 1);
            }
        }
    }

    /// The temporaries of an operation are used once more.
    pub(crate) fn use_once_more(&mut self, op: MidOp<'_>) -> Result<(), NoMemory> {
        self.list(op)?;
        self.count_listed();
        Ok(())
    }

    /// An operation is gone.
    pub(crate) fn forget(&mut self, op: MidOp<'_>) -> Result<(), NoMemory> {
        self.list(op)?;
        for temp in &self.listed {
            if let Some(count) = self.uses.get_mut(*temp as usize) {
                *count = count.saturating_sub(1);
            }
        }
        Ok(())
    }

    /// How often a temporary is used.
    pub(crate) fn uses(&self, temp: u32) -> u32 {
        self.uses.get(temp as usize).copied().unwrap_or(0)
    }

    /// Whether one operation alone sets a temporary.
    pub(crate) fn is_set_once(&self, temp: u32) -> bool {
        has(&self.sets, temp, 1)
    }

    /// Whether the loop at hand sets a temporary.
    pub(crate) fn is_set_inside(&self, temp: u32) -> bool {
        has(&self.set_in, temp, self.stamp)
    }

    /// A block of the loop at hand uses a temporary.
    fn hold(&mut self, temp: u32, block_stamp: u32) {
        if !has(&self.set_by, temp, block_stamp) && !has(&self.held_in, temp, self.stamp) {
            put(&mut self.held_in, temp, self.stamp);
            self.held = self.held.saturating_add(1);
        }
    }

    fn hold_listed(&mut self, block_stamp: u32) {
        for at in 0..self.listed.len() {
            if let Some(temp) = self.listed.get(at).copied() {
                self.hold(temp, block_stamp);
            }
        }
    }

    fn enter_block(&mut self, p: &Proc<'_>, block: u32) -> Result<(), NoMemory> {
        let block_stamp = block.saturating_add(1);
        for op in ops_of(p, block) {
            self.list(*op)?;
            self.hold_listed(block_stamp);
            for setting in settings_of(*op) {
                if let Some(temp) = setting {
                    put(&mut self.set_in, temp, self.stamp);
                    put(&mut self.set_by, temp, block_stamp);
                }
            }
        }
        for operand in end_operands(end_of(p, block)) {
            if let Some(temp) = temp_of(operand) {
                self.hold(temp, block_stamp);
            }
        }
        Ok(())
    }

    /// Begins a loop. Gives whether it sets its variable at the end of its turn alone.
    pub(crate) fn enter(&mut self, p: &Proc<'_>, counted: &Loop) -> Result<bool, NoMemory> {
        self.stamp = counted.turn.saturating_add(1);
        self.held = 0;
        for block in &counted.blocks {
            self.enter_block(p, *block)?;
        }
        Ok(sets_once(p, counted))
    }
}

/// Whether a loop sets its variable once.
fn sets_once(p: &Proc<'_>, counted: &Loop) -> bool {
    let mut sets = 0u32;
    for block in &counted.blocks {
        for op in ops_of(p, *block) {
            for setting in settings_of(*op) {
                if setting == Some(counted.index) {
                    sets = sets.saturating_add(1);
                }
            }
        }
    }
    sets == 1
}
