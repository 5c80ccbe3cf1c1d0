use crate::choosing::give;
use crate::extents::Extents;
use crate::needs::Needs;
use m3_base::{NoMemory, place_number};
use m3_flow::{Groups, Pair};
use m3_tables::Location;
use std::alloc::Global;

/// The words of a frame that are given to temporaries.
#[derive(Drop)]
struct Words {
    free: Vec<u32>,
    next: u32,
}

impl Words {
    fn take(&mut self) -> u32 {
        match self.free.pop() {
            Some(word) => word,
            None => {
                let word = self.next;
                self.next = word.saturating_add(1);
                word
            }
        }
    }
}

/// The first place at which each temporary that wants a slot is live or set, and the place behind
/// the last.
#[derive(Drop)]
struct Hulls {
    froms: Vec<u32>,
    tos: Vec<u32>,
}

impl Hulls {
    fn widen(&mut self, temp: u32, from: u32, to: u32) {
        if let Some(item) = self.froms.get_mut(temp as usize)
            && from < *item
        {
            *item = from;
        }
        if let Some(item) = self.tos.get_mut(temp as usize)
            && *item < to
        {
            *item = to;
        }
    }
}

fn hulls_of(alloc: Global, extents: &Extents, needs: &Needs) -> Result<Hulls, NoMemory> {
    let temps = needs.in_slot.len();
    let mut hulls = Hulls {
        froms: vec![in alloc; u32::MAX; temps]?,
        tos: vec![in alloc; 0u32; temps]?,
    };
    for at in 0..temps {
        let temp = place_number(at)?;
        let ranges = extents.ranges_of(temp);
        if let Some(range) = ranges.first() {
            hulls.widen(temp, range.from, range.to);
        }
        if let Some(range) = ranges.last() {
            hulls.widen(temp, range.from, range.to);
        }
    }
    for (temp, place) in &needs.lost {
        hulls.widen(*temp, *place, place.saturating_add(1));
    }
    Ok(hulls)
}

/// Gives slots to the temporaries that want one and still have none, from a word on, and gives the
/// word behind them. Two temporaries share a word where one begins to live behind the last place of
/// the other.
pub(crate) fn give_slots(
    alloc: Global,
    extents: &Extents,
    needs: &Needs,
    first: u32,
    places: &mut Vec<Option<Location>>,
) -> Result<u32, NoMemory> {
    let hulls = hulls_of(alloc, extents, needs)?;
    let mut begins = Vec::new(alloc);
    let mut ends = Vec::new(alloc);
    for (at, from) in hulls.froms.iter().enumerate() {
        let is_wanted = needs.in_slot.get(at).copied().unwrap_or(false);
        let is_open = places.get(at).copied() == Some(None);
        if is_wanted && is_open && *from != u32::MAX {
            let item = place_number(at)?;
            begins.push(Pair { group: *from, item })?;
            let to = hulls.tos.get(at).copied().unwrap_or(0);
            ends.push(Pair { group: to, item })?;
        }
    }
    let rows = extents.places as usize;
    let begins = Groups::of(alloc, rows, &begins)?;
    let ends = Groups::of(alloc, rows, &ends)?;
    let mut words = Words {
        free: Vec::new(alloc),
        next: first,
    };
    for place in 0..extents.places {
        for temp in ends.row(place) {
            if let Some(Some(Location::Slot(word))) = places.get(*temp as usize) {
                words.free.push(*word)?;
            }
        }
        for temp in begins.row(place) {
            let word = words.take();
            give(places, *temp, Location::Slot(word));
        }
    }
    Ok(words.next)
}
