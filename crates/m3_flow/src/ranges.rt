use crate::groups::{Groups, Pair};
use crate::live::{LiveRange, uses_of};
use crate::operations::{end_operands, settings_of, temp_of};
use m3_base::{NoMemory, place_number};
use m3_mid::Block;
use std::alloc::Global;

/// A stretch of places at which a temporary is live; whether it begins at the front of a block.
#[derive(Clone, Copy)]
struct Piece {
    temp: u32,
    range: LiveRange,
    is_front: bool,
}

/// Where temporaries are live, block by block from the last place to the first.
#[derive(Drop)]
pub(crate) struct Ranges {
    /// The place behind the last one at which a temporary is live, on the way to its setting; 0
    /// where it isn't.
    ends: Vec<u32>,
    pieces: Vec<Piece>,
    uses: Vec<u32>,
}

impl Ranges {
    pub(crate) fn new(alloc: Global, temps: usize) -> Result<Ranges, NoMemory> {
        Ok(Ranges {
            ends: vec![in alloc; 0u32; temps]?,
            pieces: Vec::new(alloc),
            uses: Vec::new(alloc),
        })
    }

    /// The temporary is live up to this place.
    fn live_to(&mut self, temp: u32, place: u32) {
        if let Some(end) = self.ends.get_mut(temp as usize)
            && *end == 0
        {
            *end = place.saturating_add(1);
        }
    }

    /// The temporary is live from this place on and not before.
    fn live_from(&mut self, temp: u32, from: u32, is_front: bool) -> Result<(), NoMemory> {
        let mut to = 0;
        if let Some(end) = self.ends.get_mut(temp as usize) {
            to = *end;
            *end = 0;
        }
        if to > from {
            self.pieces.push(Piece {
                temp,
                range: LiveRange { from, to },
                is_front,
            })?;
        }
        Ok(())
    }

    /// Adds the stretches of a block that begins at a place, by what is live at its front and at
    /// its back, and by what the rows of its points name.
    pub(crate) fn add_block(
        &mut self,
        block: Block,
        front: u32,
        front_live: &[u32],
        back_live: &[u32],
        rows: &Groups,
    ) -> Result<(), NoMemory> {
        let back = front.saturating_add(place_number(block.ops.len())?);
        for temp in back_live {
            self.live_to(*temp, back);
        }
        for operand in end_operands(block.end) {
            if let Some(temp) = temp_of(operand) {
                self.live_to(temp, back);
            }
        }
        let mut place = back;
        for op in block.ops.iter().rev() {
            for setting in settings_of(*op) {
                if let Some(temp) = setting {
                    self.live_from(temp, place, false)?;
                }
            }
            place = place.saturating_sub(1);
            self.use_all(place, rows.row(place))?;
            self.uses.clear();
            uses_of(*op, &mut self.uses)?;
            self.use_listed(place);
        }
        for temp in front_live {
            self.live_from(*temp, front, true)?;
        }
        Ok(())
    }

    fn use_all(&mut self, place: u32, temps: &[u32]) -> Result<(), NoMemory> {
        for temp in temps {
            self.live_to(*temp, place);
        }
        Ok(())
    }

    fn use_listed(&mut self, place: u32) {
        for at in 0..self.uses.len() {
            if let Some(temp) = self.uses.get(at).copied() {
                self.live_to(temp, place);
            }
        }
    }

    /// The stretches of each temporary, rising; those that meet at the front of a block are one.
    pub(crate) fn by_temp(
        &self,
        alloc: Global,
        firsts: &mut Vec<u32>,
        ranges: &mut Vec<LiveRange>,
    ) -> Result<(), NoMemory> {
        let mut pairs = Vec::new(alloc);
        for (at, piece) in self.pieces.iter().enumerate() {
            pairs.push(Pair {
                group: piece.temp,
                item: place_number(at)?,
            })?;
        }
        let rows = Groups::of(alloc, self.ends.len(), &pairs)?;
        for temp in 0..self.ends.len() {
            firsts.push(place_number(ranges.len())?)?;
            self.join_row(rows.row(place_number(temp)?), ranges)?;
        }
        firsts.push(place_number(ranges.len())?)?;
        Ok(())
    }

    /// Adds the stretches of one temporary, which stand in the row from the last to the first.
    fn join_row(&self, row: &[u32], ranges: &mut Vec<LiveRange>) -> Result<(), NoMemory> {
        let mut open: Option<LiveRange> = None;
        for at in row.iter().rev() {
            if let Some(piece) = self.pieces.get(*at as usize) {
                open = match open {
                    Some(range) if piece.is_front && range.to == piece.range.from => {
                        Some(LiveRange {
                            from: range.from,
                            to: piece.range.to,
                        })
                    }
                    Some(range) => {
                        ranges.push(range)?;
                        Some(piece.range)
                    }
                    None => Some(piece.range),
                };
            }
        }
        if let Some(range) = open {
            ranges.push(range)?;
        }
        Ok(())
    }
}
