use m3_base::{NoMemory, place_number};
use m3_flow::{Groups, LiveSets, Pair};
use m3_mid::{Kind, Proc};
use std::alloc::Global;

const ABSENT: u32 = u32::MAX;

/// A temporary that is live, and the place behind the stretch in which it is.
#[derive(Clone, Copy)]
pub(crate) struct Active {
    pub(crate) temp: u32,
    pub(crate) to: u32,
}

/// The temporaries that hold pointers and are live at a place, from the first place to the last.
#[derive(Drop)]
pub(crate) struct ActiveSet {
    pub(crate) list: Vec<Active>,
    /// By temporary, its place in the list.
    spots: Vec<u32>,
    /// What begins to be live at each place, as pairs of a temporary and the place behind its
    /// stretch.
    begins: Groups,
    /// What is live no more from each place on.
    ends: Groups,
}

impl ActiveSet {
    pub(crate) fn new(
        alloc: Global,
        p: &Proc,
        live: &LiveSets,
        places: u32,
    ) -> Result<ActiveSet, NoMemory> {
        let mut begins = Vec::new(alloc);
        let mut ends = Vec::new(alloc);
        for (at, kind) in p.temps.iter().enumerate() {
            if *kind != Kind::Number {
                let temp = place_number(at)?;
                for range in live.ranges_of(temp) {
                    begins.push(Pair {
                        group: range.from,
                        item: temp,
                    })?;
                    begins.push(Pair {
                        group: range.from,
                        item: range.to,
                    })?;
                    ends.push(Pair {
                        group: range.to,
                        item: temp,
                    })?;
                }
            }
        }
        Ok(ActiveSet {
            list: Vec::new(alloc),
            spots: vec![in alloc; ABSENT; p.temps.len()]?,
            begins: Groups::of(alloc, places as usize, &begins)?,
            ends: Groups::of(alloc, places as usize, &ends)?,
        })
    }

    fn spot(&self, temp: u32) -> u32 {
        self.spots.get(temp as usize).copied().unwrap_or(ABSENT)
    }

    fn set_spot(&mut self, temp: u32, spot: u32) {
        if let Some(item) = self.spots.get_mut(temp as usize) {
            *item = spot;
        }
    }

    fn remove(&mut self, temp: u32) {
        let spot = self.spot(temp);
        let Some(last) = self.list.pop() else {
            return;
        };
        if let Some(item) = self.list.get_mut(spot as usize) {
            *item = last;
        }
        self.set_spot(last.temp, spot);
        self.set_spot(temp, ABSENT);
    }

    fn add(&mut self, temp: u32, to: u32) -> Result<(), NoMemory> {
        let spot = place_number(self.list.len())?;
        self.list.push(Active { temp, to })?;
        self.set_spot(temp, spot);
        Ok(())
    }

    /// Removes the temporaries that are live no more from a place on.
    fn leave(&mut self, place: u32) {
        for at in 0..self.ends.row(place).len() {
            if let Some(temp) = self.ends.row(place).get(at).copied() {
                if self.spot(temp) != ABSENT {
                    self.remove(temp);
                }
            }
        }
    }

    /// Goes on to a place, the one behind the last.
    pub(crate) fn go_to(&mut self, place: u32) -> Result<(), NoMemory> {
        self.leave(place);
        let count = self.begins.row(place).len() / 2;
        for at in 0..count {
            let row = self.begins.row(place);
            let temp = row.get(2 * at).copied();
            let to = row.get(2 * at + 1).copied();
            if let (Some(temp), Some(to)) = (temp, to) {
                self.add(temp, to)?;
            }
        }
        Ok(())
    }
}
