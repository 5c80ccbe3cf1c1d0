use crate::cover::Cover;
use crate::extents::Extents;
use crate::needs::Needs;
use m3_base::{NoMemory, place_number};
use m3_derive::Derived;
use m3_flow::{Groups, Order, Pair, end_of, ops_of, settings_of, uses_of};
use m3_mid::{End, MidOp, Operand};
use m3_tables::Location;
use std::alloc::Global;

/// The register that a temporary should have where it can.
const NO_REGISTER: u8 = 255;

/// The registers that temporaries can have, those that calls use at last.
const REGISTERS: [u8; 12] = [4, 5, 6, 7, 8, 9, 10, 11, 3, 2, 1, 0];

/// Which places would save moves.
#[derive(Drop)]
pub(crate) struct Wishes {
    /// The temporaries that are moved to or from each one.
    likes: Groups,
    registers: Vec<u8>,
    /// How many loops lie around the operations that name a temporary.
    depths: Vec<u32>,
}

/// While the wishes are gathered.
#[derive(Drop)]
struct Gathering {
    moves: Vec<Pair>,
    registers: Vec<u8>,
    depths: Vec<u32>,
    uses: Vec<u32>,
}

impl Gathering {
    fn wish(&mut self, temp: u32, register: u8) {
        if let Some(item) = self.registers.get_mut(temp as usize) {
            *item = register;
        }
    }

    fn wish_operand(&mut self, operand: Operand, register: u8) {
        if let Operand::Temp(temp) = operand {
            self.wish(temp, register);
        }
    }

    fn deepen(&mut self, temp: u32, depth: u32) {
        if let Some(item) = self.depths.get_mut(temp as usize)
            && *item < depth
        {
            *item = depth;
        }
    }

    fn add_wishes(&mut self, op: MidOp) -> Result<(), NoMemory> {
        match op {
            MidOp::Move { to, from } => {
                self.moves.push(Pair {
                    group: to,
                    item: from,
                })?;
                self.moves.push(Pair {
                    group: from,
                    item: to,
                })?;
            }
            MidOp::Call { result, raised, .. } => {
                if let Some(result) = result {
                    self.wish(result, 0);
                }
                if let Some(raised) = raised {
                    self.wish(raised.exception, 1);
                    self.wish(raised.number, 2);
                    self.wish(raised.tidy, 3);
                }
            }
            _ => {}
        }
        Ok(())
    }

    fn add_op(&mut self, op: MidOp, depth: u32) -> Result<(), NoMemory> {
        self.add_wishes(op)?;
        if depth > 0 {
            self.uses.clear();
            uses_of(op, &mut self.uses)?;
            for at in 0..self.uses.len() {
                if let Some(temp) = self.uses.get(at).copied() {
                    self.deepen(temp, depth);
                }
            }
            for setting in settings_of(op) {
                if let Some(temp) = setting {
                    self.deepen(temp, depth);
                }
            }
        }
        Ok(())
    }

    fn add_end(&mut self, end: End) {
        match end {
            End::Return { value: Some(value) } => self.wish_operand(value, 0),
            End::Raise {
                exception,
                number,
                tidy,
            } => {
                self.wish_operand(exception, 1);
                self.wish_operand(number, 2);
                self.wish_operand(tidy, 3);
            }
            _ => {}
        }
    }
}

/// The wishes of a procedure's temporaries.
pub(crate) fn wishes_of(alloc: Global, d: &Derived, order: &Order) -> Result<Wishes, NoMemory> {
    let temps = d.proc.temps.len();
    let mut gathering = Gathering {
        moves: Vec::new(alloc),
        registers: vec![in alloc; NO_REGISTER; temps]?,
        depths: vec![in alloc; 0u32; temps]?,
        uses: Vec::new(alloc),
    };
    for number in order.blocks.iter().take(order.reached) {
        let depth = order.depths.get(*number as usize).copied().unwrap_or(0);
        for op in ops_of(&d.proc, *number) {
            gathering.add_op(*op, depth)?;
        }
        gathering.add_end(end_of(&d.proc, *number));
    }
    let Gathering {
        moves,
        registers,
        depths,
        uses: _,
    } = gathering;
    Ok(Wishes {
        likes: Groups::of(alloc, temps, &moves)?,
        registers,
        depths,
    })
}

fn bit_of(register: u8) -> u64 {
    if register < 12 { 1u64 << register } else { 0 }
}

fn is_free(free: u64, register: u8) -> bool {
    register < 12 && free & (1u64 << register) != 0
}

impl Wishes {
    fn register(&self, temp: u32) -> u8 {
        self.registers
            .get(temp as usize)
            .copied()
            .unwrap_or(NO_REGISTER)
    }

    /// The best of the registers that are free for a temporary.
    fn choose(&self, temp: u32, free: u64, places: &[Option<Location>]) -> Option<u8> {
        for like in self.likes.row(temp) {
            if let Some(Some(Location::Register(register))) = places.get(*like as usize)
                && is_free(free, *register)
            {
                return Some(*register);
            }
        }
        if is_free(free, self.register(temp)) {
            return Some(self.register(temp));
        }
        for like in self.likes.row(temp) {
            if is_free(free, self.register(*like)) {
                return Some(self.register(*like));
            }
        }
        for register in REGISTERS {
            if is_free(free, register) {
                return Some(register);
            }
        }
        None
    }
}

/// The temporaries in the order in which they choose: those of the deepest loops first, and of
/// those that which is live first.
fn queue_of(
    alloc: Global,
    wishes: &Wishes,
    extents: &Extents,
    needs: &Needs,
) -> Result<Vec<u32>, NoMemory> {
    let deepest = wishes.depths.iter().copied().max().unwrap_or(0);
    let mut begins = Vec::new(alloc);
    for (at, in_slot) in needs.in_slot.iter().enumerate() {
        let temp = place_number(at)?;
        if !*in_slot && let Some(range) = extents.ranges_of(temp).first() {
            begins.push((range.from, temp))?;
        }
    }
    for (temp, place) in &needs.lost {
        let in_slot = needs.in_slot.get(*temp as usize).copied().unwrap_or(true);
        if !in_slot && extents.ranges_of(*temp).is_empty() {
            begins.push((*place, *temp))?;
        }
    }
    begins.sort()?;
    let mut pairs = Vec::new(alloc);
    for (_place, temp) in &begins {
        let depth = wishes.depths.get(*temp as usize).copied().unwrap_or(0);
        pairs.push(Pair {
            group: deepest.saturating_sub(depth),
            item: *temp,
        })?;
    }
    let groups = Groups::of(alloc, (deepest as usize).saturating_add(1), &pairs)?;
    let mut queue = Vec::new(alloc);
    for group in 0..=deepest {
        queue.extend_from_slice(groups.row(group))?;
    }
    Ok(queue)
}

/// Gives registers to the temporaries that can have one; notes those for which none was free. Gives
/// which registers are taken where.
pub(crate) fn choose_registers(
    alloc: Global,
    wishes: &Wishes,
    extents: &Extents,
    needs: &mut Needs,
    places: &mut Vec<Option<Location>>,
) -> Result<Cover, NoMemory> {
    let mut cover = Cover::new(alloc, extents.places as usize)?;
    for temp in &queue_of(alloc, wishes, extents, needs)? {
        let free = cover.free_for(extents, *temp);
        match wishes.choose(*temp, free, places) {
            Some(register) => {
                give(places, *temp, Location::Register(register));
                cover.take_for(extents, *temp, bit_of(register));
            }
            None => {
                if let Some(in_slot) = needs.in_slot.get_mut(*temp as usize) {
                    *in_slot = true;
                }
            }
        }
    }
    Ok(cover)
}

pub(crate) fn give(places: &mut Vec<Option<Location>>, temp: u32, location: Location) {
    if let Some(place) = places.get_mut(temp as usize) {
        *place = Some(location);
    }
}
