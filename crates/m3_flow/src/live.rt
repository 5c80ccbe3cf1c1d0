use crate::graph::entries_of;
use crate::groups::{Groups, Pair};
use crate::operations::{
    actual_temps, actuals_of, end_operands, operands_of, service_operands, settings_of, shown_at,
    shown_temp, temp_of,
};
use crate::order::{Order, block_order};
use crate::ranges::Ranges;
use m3_base::{NoMemory, gap, place_number};
use m3_mid::{Block, MidOp, Proc};
use std::alloc::Global;

/// Places in a row: the first, and the one behind the last.
#[derive(Clone, Copy, PartialEq, Eq)]
pub struct LiveRange {
    pub from: u32,
    pub to: u32,
}

/// A use of a temporary by the row of a point, beside those by the operation itself.
#[derive(Clone, Copy, PartialEq, Eq)]
pub struct RowUse {
    pub block: u32,
    pub op: u32,
    pub temp: u32,
}

/// Where each temporary is live. Each operation, and each end of a block, has a place: the blocks
/// follow each other in their order, and a block has a place for each of its operations and one for
/// its end. A temporary is live at a place if what stands there, or what comes behind it on some
/// way, uses the temporary before it is set.
#[derive(Drop)]
pub struct LiveSets {
    fronts: Vec<u32>,
    firsts: Vec<u32>,
    ranges: Vec<LiveRange>,
}

impl LiveSets {
    /// The place of an operation of a block, counted from 0; its end follows its operations.
    pub fn place(&self, block: u32, op: u32) -> u32 {
        self.fronts
            .get(block as usize)
            .copied()
            .unwrap_or(0)
            .saturating_add(op)
    }

    /// The stretches at which a temporary is live, rising. Where it is set and used before that by
    /// the same operation, one ends and another begins.
    pub fn ranges_of(&self, temp: u32) -> &[LiveRange] {
        let at = temp as usize;
        let first = self.firsts.get(at).copied().unwrap_or(0) as usize;
        let end = self.firsts.get(at.saturating_add(1)).copied().unwrap_or(0) as usize;
        if first <= end && end <= self.ranges.len() {
            &self.ranges[first..end]
        } else {
            &[]
        }
    }

    /// Whether a temporary is live at a place.
    pub fn is_live(&self, place: u32, temp: u32) -> bool {
        holds(self.ranges_of(temp), place)
    }

    /// Whether a temporary is live at an operation of a block, or at its end.
    pub fn has(&self, block: u32, op: u32, temp: u32) -> bool {
        self.is_live(self.place(block, op), temp)
    }
}

/// Whether a place lies in one of the stretches, which rise.
fn holds(ranges: &[LiveRange], place: u32) -> bool {
    let mut low = 0;
    let mut high = ranges.len();
    for _halving in 0..64 {
        if low < high {
            let middle = low + (high - low) / 2;
            match ranges.get(middle) {
                Some(range) if place < range.from => high = middle,
                Some(range) if range.to <= place => low = middle + 1,
                Some(_) => return true,
                None => return false,
            }
        }
    }
    false
}

/// Adds the temporaries that an operation uses.
pub fn uses_of(op: MidOp, uses: &mut Vec<u32>) -> Result<(), NoMemory> {
    for operand in operands_of(op) {
        if let Some(temp) = temp_of(operand) {
            uses.push(temp)?;
        }
    }
    for operand in service_operands(op) {
        if let Some(temp) = temp_of(*operand) {
            uses.push(temp)?;
        }
    }
    for actual in actuals_of(op) {
        for part in actual_temps(*actual) {
            if let Some(temp) = part {
                uses.push(temp)?;
            }
        }
    }
    for shown in shown_at(op) {
        if let Some(temp) = shown_temp(*shown) {
            uses.push(temp)?;
        }
    }
    Ok(())
}

/// What the blocks use before they set it, and what they set.
#[derive(Drop)]
struct Locals {
    uses: Vec<u32>,
    touched: Vec<u32>,
    /// By temporary, the block in which it was touched, used first, or set, and 1 more.
    touches: Vec<u32>,
    exposures: Vec<u32>,
    settings: Vec<u32>,
    exposed: Vec<Pair>,
    set: Vec<Pair>,
}

fn mark(list: &mut Vec<u32>, temp: u32, value: u32) -> bool {
    if let Some(item) = list.get_mut(temp as usize) {
        let is_new = *item != value;
        *item = value;
        is_new
    } else {
        false
    }
}

fn is_marked(list: &[u32], temp: u32, value: u32) -> bool {
    list.get(temp as usize).copied() == Some(value)
}

impl Locals {
    fn touch(&mut self, temp: u32, stamp: u32) -> Result<(), NoMemory> {
        if mark(&mut self.touches, temp, stamp) {
            self.touched.push(temp)?;
        }
        Ok(())
    }

    fn expose(&mut self, temp: u32, stamp: u32) -> Result<(), NoMemory> {
        self.touch(temp, stamp)?;
        mark(&mut self.exposures, temp, stamp);
        Ok(())
    }

    fn set(&mut self, temp: u32, stamp: u32) -> Result<(), NoMemory> {
        self.touch(temp, stamp)?;
        mark(&mut self.settings, temp, stamp);
        mark(&mut self.exposures, temp, 0);
        Ok(())
    }

    fn expose_listed(&mut self, stamp: u32) -> Result<(), NoMemory> {
        for at in 0..self.uses.len() {
            if let Some(temp) = self.uses.get(at).copied() {
                self.expose(temp, stamp)?;
            }
        }
        Ok(())
    }

    fn expose_all(&mut self, temps: &[u32], stamp: u32) -> Result<(), NoMemory> {
        for temp in temps {
            self.expose(*temp, stamp)?;
        }
        Ok(())
    }

    /// Goes through a block from its end to its front.
    fn add_block(
        &mut self,
        block: Block,
        number: u32,
        front: u32,
        rows: &Groups,
    ) -> Result<(), NoMemory> {
        let stamp = number.saturating_add(1);
        self.touched.clear();
        for operand in end_operands(block.end) {
            if let Some(temp) = temp_of(operand) {
                self.expose(temp, stamp)?;
            }
        }
        let mut place = front.saturating_add(place_number(block.ops.len())?);
        for op in block.ops.iter().rev() {
            place = place.saturating_sub(1);
            for setting in settings_of(*op) {
                if let Some(temp) = setting {
                    self.set(temp, stamp)?;
                }
            }
            self.expose_all(rows.row(place), stamp)?;
            self.uses.clear();
            uses_of(*op, &mut self.uses)?;
            self.expose_listed(stamp)?;
        }
        self.note_touched(number, stamp)
    }

    fn note_touched(&mut self, number: u32, stamp: u32) -> Result<(), NoMemory> {
        for temp in &self.touched {
            let pair = Pair {
                group: *temp,
                item: number,
            };
            if is_marked(&self.exposures, *temp, stamp) {
                self.exposed.push(pair)?;
            }
            if is_marked(&self.settings, *temp, stamp) {
                self.set.push(pair)?;
            }
        }
        Ok(())
    }
}

/// From the uses of a temporary back to its settings.
#[derive(Drop)]
struct Spread {
    fronts: Vec<u32>,
    backs: Vec<u32>,
    settings: Vec<u32>,
    open: Vec<u32>,
    /// A block and a temporary that is live at its front, or at its back.
    at_fronts: Vec<Pair>,
    at_backs: Vec<Pair>,
}

impl Spread {
    fn reach(&mut self, block: u32, stamp: u32) -> Result<(), NoMemory> {
        if mark(&mut self.fronts, block, stamp) {
            self.open.push(block)?;
        }
        Ok(())
    }

    /// Goes on to the blocks before one at whose front the temporary is live.
    fn go_on(
        &mut self,
        block: u32,
        temp: u32,
        stamp: u32,
        entries: &Groups,
    ) -> Result<(), NoMemory> {
        self.at_fronts.push(Pair {
            group: block,
            item: temp,
        })?;
        for entry in entries.row(block) {
            if mark(&mut self.backs, *entry, stamp) {
                self.at_backs.push(Pair {
                    group: *entry,
                    item: temp,
                })?;
                if !is_marked(&self.settings, *entry, stamp) {
                    self.reach(*entry, stamp)?;
                }
            }
        }
        Ok(())
    }

    fn add_temp(
        &mut self,
        temp: u32,
        exposed: &[u32],
        set: &[u32],
        entries: &Groups,
    ) -> Result<(), NoMemory> {
        let stamp = temp.saturating_add(1);
        for block in set {
            mark(&mut self.settings, *block, stamp);
        }
        for block in exposed {
            self.reach(*block, stamp)?;
        }
        for _step in 0..u64::MAX {
            match self.open.pop() {
                None => return Ok(()),
                Some(block) => self.go_on(block, temp, stamp, entries)?,
            }
        }
        Err(gap())
    }
}

/// The place of the front of each block.
fn fronts_of(alloc: Global, p: &Proc, order: &Order) -> Result<(Vec<u32>, u32), NoMemory> {
    let mut fronts = vec![in alloc; 0u32; p.blocks.len()]?;
    let mut next = 0u32;
    for number in &order.blocks {
        if let Some(front) = fronts.get_mut(*number as usize) {
            *front = next;
        }
        if let Some(block) = p.blocks.get(*number as usize) {
            next = next
                .saturating_add(place_number(block.ops.len())?)
                .saturating_add(1);
        }
    }
    Ok((fronts, next))
}

/// What the rows use, by place.
fn rows_of(
    alloc: Global,
    fronts: &[u32],
    places: u32,
    uses: &[RowUse],
) -> Result<Groups, NoMemory> {
    let mut pairs = Vec::new(alloc);
    for row_use in uses {
        if let Some(front) = fronts.get(row_use.block as usize) {
            pairs.push(Pair {
                group: front.saturating_add(row_use.op),
                item: row_use.temp,
            })?;
        }
    }
    Groups::of(alloc, places as usize, &pairs)
}

fn locals_of(
    alloc: Global,
    p: &Proc,
    fronts: &[u32],
    rows: &Groups,
) -> Result<(Groups, Groups), NoMemory> {
    let temps = p.temps.len();
    let mut locals = Locals {
        uses: Vec::new(alloc),
        touched: Vec::new(alloc),
        touches: vec![in alloc; 0u32; temps]?,
        exposures: vec![in alloc; 0u32; temps]?,
        settings: vec![in alloc; 0u32; temps]?,
        exposed: Vec::new(alloc),
        set: Vec::new(alloc),
    };
    for (at, block) in p.blocks.iter().enumerate() {
        let front = fronts.get(at).copied().unwrap_or(0);
        locals.add_block(*block, place_number(at)?, front, rows)?;
    }
    Ok((
        Groups::of(alloc, temps, &locals.exposed)?,
        Groups::of(alloc, temps, &locals.set)?,
    ))
}

/// The temporaries that are live at the front, and at the back, of each block.
fn spread_all(
    alloc: Global,
    p: &Proc,
    exposed: &Groups,
    set: &Groups,
) -> Result<(Groups, Groups), NoMemory> {
    let blocks = p.blocks.len();
    let entries = entries_of(alloc, p)?;
    let mut spread = Spread {
        fronts: vec![in alloc; 0u32; blocks]?,
        backs: vec![in alloc; 0u32; blocks]?,
        settings: vec![in alloc; 0u32; blocks]?,
        open: Vec::new(alloc),
        at_fronts: Vec::new(alloc),
        at_backs: Vec::new(alloc),
    };
    for at in 0..p.temps.len() {
        let temp = place_number(at)?;
        spread.add_temp(temp, exposed.row(temp), set.row(temp), &entries)?;
    }
    Ok((
        Groups::of(alloc, blocks, &spread.at_fronts)?,
        Groups::of(alloc, blocks, &spread.at_backs)?,
    ))
}

/// The temporaries that are live at each place, where the blocks lie in this order and the rows of
/// points use what is listed beside.
pub fn live_with(
    alloc: Global,
    p: &Proc,
    order: &Order,
    uses: &[RowUse],
) -> Result<LiveSets, NoMemory> {
    let (fronts, places) = fronts_of(alloc, p, order)?;
    let rows = rows_of(alloc, &fronts, places, uses)?;
    let (exposed, set) = locals_of(alloc, p, &fronts, &rows)?;
    let (at_fronts, at_backs) = spread_all(alloc, p, &exposed, &set)?;
    let mut ranges = Ranges::new(alloc, p.temps.len())?;
    for number in order.blocks.iter().rev() {
        if let Some(block) = p.blocks.get(*number as usize) {
            let front = fronts.get(*number as usize).copied().unwrap_or(0);
            ranges.add_block(
                *block,
                front,
                at_fronts.row(*number),
                at_backs.row(*number),
                &rows,
            )?;
        }
    }
    let mut live = LiveSets {
        fronts,
        firsts: Vec::new(alloc),
        ranges: Vec::new(alloc),
    };
    ranges.by_temp(alloc, &mut live.firsts, &mut live.ranges)?;
    Ok(live)
}

/// The temporaries that are live at each operation: those that are used on some way from there
/// before they are set.
pub fn live_at(alloc: Global, p: &Proc) -> Result<LiveSets, NoMemory> {
    let order = block_order(alloc, p)?;
    live_with(alloc, p, &order, &[])
}
