//! How the temporaries of a procedure are set and used.
use m3_base::{NoMemory, place_number};
use m3_flow::{end_operands, settings_of, temp_of, uses_of};
use m3_mid::{Block, Proc};
use std::alloc::Global;

#[derive(Clone, Copy)]
struct Temp {
    sets: u32,
    /// The block in which it was set last, and 1 more.
    set_in: u32,
    /// Whether it is used behind its setting in the same block alone.
    is_local: bool,
}

/// How each temporary is set and used.
#[derive(Drop)]
pub(crate) struct Temps {
    temps: Vec<Temp>,
    /// The places in the block at hand at which each temporary is set last, and 1 more.
    last: Vec<u32>,
    set: Vec<u32>,
}

impl Temps {
    pub(crate) fn of(alloc: Global, p: &Proc<'_>) -> Result<Temps, NoMemory> {
        let unset = Temp {
            sets: 0,
            set_in: 0,
            is_local: true,
        };
        let mut temps = Temps {
            temps: vec![in alloc; unset; p.temps.len()]?,
            last: vec![in alloc; 0u32; p.temps.len()]?,
            set: Vec::new(alloc),
        };
        let mut uses = Vec::new(alloc);
        for (number, block) in p.blocks.iter().enumerate() {
            let stamp = place_number(number)?.saturating_add(1);
            temps.add_block(*block, stamp, &mut uses)?;
        }
        Ok(temps)
    }

    fn add_block(
        &mut self,
        block: Block<'_>,
        stamp: u32,
        uses: &mut Vec<u32>,
    ) -> Result<(), NoMemory> {
        for op in block.ops {
            uses.clear();
            uses_of(*op, uses)?;
            for temp in uses.as_slice() {
                self.note_use(*temp, stamp);
            }
            for setting in settings_of(*op) {
                if let Some(temp) = setting {
                    self.note_set(temp, stamp);
                }
            }
        }
        for operand in end_operands(block.end) {
            if let Some(temp) = temp_of(operand) {
                self.note_use(temp, stamp);
            }
        }
        Ok(())
    }

    fn note_use(&mut self, temp: u32, stamp: u32) {
        if let Some(temp) = self.temps.get_mut(temp as usize)
            && temp.set_in != stamp
        {
            temp.is_local = false;
        }
    }

    fn note_set(&mut self, temp: u32, stamp: u32) {
        if let Some(temp) = self.temps.get_mut(temp as usize) {
            temp.sets = temp.sets.saturating_add(1);
            temp.set_in = stamp;
        }
    }

    /// Whether one operation alone sets a temporary.
    pub(crate) fn is_set_once(&self, temp: u32) -> bool {
        match self.temps.get(temp as usize) {
            Some(temp) => temp.sets == 1,
            None => false,
        }
    }

    /// Whether one operation alone sets a temporary, and it is used behind that in the same block
    /// alone.
    pub(crate) fn is_local(&self, temp: u32) -> bool {
        match self.temps.get(temp as usize) {
            Some(temp) => temp.sets == 1 && temp.is_local,
            None => false,
        }
    }

    /// Begins a block.
    pub(crate) fn enter(&mut self, block: Block<'_>) -> Result<(), NoMemory> {
        for temp in &self.set {
            if let Some(last) = self.last.get_mut(*temp as usize) {
                *last = 0;
            }
        }
        self.set.clear();
        for (place, op) in block.ops.iter().enumerate() {
            let place = place_number(place)?;
            for setting in settings_of(*op) {
                if let Some(temp) = setting {
                    if let Some(last) = self.last.get_mut(temp as usize) {
                        *last = place.saturating_add(1);
                    }
                    self.set.push(temp)?;
                }
            }
        }
        Ok(())
    }

    /// The temporaries that the block at hand sets.
    pub(crate) fn set_here(&self) -> &[u32] {
        &self.set
    }

    /// Whether a temporary stays what it is from the operation at a place of the block on.
    pub(crate) fn stays(&self, temp: u32, place: u32) -> bool {
        match self.last.get(temp as usize) {
            Some(last) => *last <= place,
            None => false,
        }
    }
}
