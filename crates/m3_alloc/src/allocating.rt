use crate::busy::{Busy, busy_of};
use crate::choosing::{choose_registers, give, wishes_of};
use crate::extents::Extents;
use crate::homes::homes_of;
use crate::needs::{Idle, Needs, needs_of};
use crate::sharing::share_words;
use crate::slots::give_slots;
use m3_base::{NoMemory, place_number};
use m3_derive::Derived;
use m3_flow::{LiveSets, Order, actuals_of, block_order, is_call, live_with, ops_of};
use m3_mid::{Actual, MidOp};
use m3_tables::Location;
use std::alloc::Global;

/// A procedure whose temporaries have places, in registers 0 to 11 or in words of the frame. The
/// frame of what it calls begins at the word `body`, and `frame` are all words that it uses.
#[derive(Drop)]
pub struct Placed<'a> {
    pub derived: Derived<'a>,
    pub places: Vec<Location>,
    pub body: u32,
    pub frame: u32,
    /// The temporaries that are live at the start: what is read or listed of them there is 0.
    pub at_start: Vec<u32>,
    /// The operations that need no code, in the order in which the blocks lie.
    pub idle: Vec<Idle>,
    /// By block, which registers its temporaries have.
    pub busy: Vec<Busy>,
}

/// The words of a callee's formals that a call stores.
pub fn outgoing_words(op: MidOp) -> u32 {
    let mut words = 0u32;
    for actual in actuals_of(op) {
        let own = match actual {
            Actual::Word(_) => 1,
            Actual::Slots { first: _, count } => *count,
            Actual::Reference { .. } => 2,
        };
        words = words.saturating_add(own);
    }
    words
}

/// The words from the next frame's first one on that the calls of a procedure store.
fn outgoing_of(d: &Derived, order: &Order) -> u32 {
    let mut most = 0u32;
    for number in order.blocks.iter().take(order.reached) {
        for op in ops_of(&d.proc, *number) {
            if is_call(*op) {
                most = most.max(outgoing_words(*op).saturating_add(3));
            }
        }
    }
    most
}

/// How many places the operations of a procedure have.
fn places_of(d: &Derived) -> Result<u32, NoMemory> {
    let mut places = 1u32;
    for block in d.proc.blocks {
        places = places
            .saturating_add(place_number(block.ops.len())?)
            .saturating_add(1);
    }
    Ok(places)
}

/// Gives the slots of formals to the temporaries that can be there.
fn give_homes(
    homes: &[Option<u32>],
    needs: &Needs,
    places: &mut Vec<Option<Location>>,
) -> Result<(), NoMemory> {
    for (at, home) in homes.iter().enumerate() {
        let is_wanted = needs.in_slot.get(at).copied().unwrap_or(false);
        if is_wanted && let Some(slot) = home {
            let word = slot.saturating_add(3);
            give(places, place_number(at)?, Location::Slot(word));
        }
    }
    Ok(())
}

/// The temporaries that are live at the start.
fn live_at_start(alloc: Global, d: &Derived, live: &LiveSets) -> Result<Vec<u32>, NoMemory> {
    let start = live.place(d.proc.start, 0);
    let mut temps = Vec::new(alloc);
    for at in 0..d.proc.temps.len() {
        let temp = place_number(at)?;
        if live.is_live(start, temp) {
            temps.push(temp)?;
        }
    }
    Ok(temps)
}

/// Gives each temporary a place. Those that are live together have different places; those that no
/// call's row names and that aren't live across a call have a register, unless each of registers 0
/// to 11 is that of one that is live together with it.
pub fn allocate<'a>(alloc: Global, d: &Derived<'a>) -> Result<Placed<'a>, NoMemory> {
    let order = block_order(alloc, &d.proc)?;
    let live = live_with(alloc, &d.proc, &order, d.uses)?;
    let mut needs = needs_of(alloc, d, &order, &live)?;
    let extents = Extents {
        live,
        lost: needs.lost_by_temp(alloc)?,
        places: places_of(d)?,
    };
    let wishes = wishes_of(alloc, d, &order)?;
    let mut given = vec![in alloc; None; d.proc.temps.len()]?;
    let cover = choose_registers(alloc, &wishes, &extents, &mut needs, &mut given)?;
    let busy = busy_of(alloc, d, &extents, &cover)?;
    let homes = homes_of(alloc, d)?;
    give_homes(&homes, &needs, &mut given)?;
    let first = place_number(d.proc.slots.len())?.saturating_add(3);
    let next = share_words(alloc, &extents, &needs, first, &mut given)?;
    let body = give_slots(alloc, &extents, &needs, next, &mut given)?;
    let mut places = Vec::new(alloc);
    for place in &given {
        places.push(place.unwrap_or(Location::Register(0)))?;
    }
    let at_start = live_at_start(alloc, d, &extents.live)?;
    Ok(Placed {
        derived: *d,
        places,
        body,
        frame: body.saturating_add(outgoing_of(d, &order)),
        at_start,
        idle: Vec::from_slice(alloc, &needs.idle)?,
        busy,
    })
}
