use crate::extents::Extents;
use m3_base::NoMemory;
use std::alloc::Global;

/// Which of 64 words or registers are taken at which places: a binary tree over the places, in
/// which a stretch of places is marked and asked for in logarithmic time.
#[derive(Drop)]
pub(crate) struct Cover {
    leaves: usize,
    /// Of each node, what is taken at all of its places.
    whole: Vec<u64>,
    /// Of each node, what is taken at some of its places by what was marked at or below it.
    parts: Vec<u64>,
}

fn at(list: &[u64], node: usize) -> u64 {
    list.get(node).copied().unwrap_or(0)
}

fn add(list: &mut Vec<u64>, node: usize, mask: u64) {
    if let Some(item) = list.get_mut(node) {
        *item |= mask;
    }
}

impl Cover {
    pub(crate) fn new(alloc: Global, places: usize) -> Result<Cover, NoMemory> {
        let mut leaves = 1usize;
        for _doubling in 0..40 {
            if leaves < places {
                leaves = leaves.saturating_mul(2);
            }
        }
        let nodes = leaves.saturating_mul(2);
        Ok(Cover {
            leaves,
            whole: vec![in alloc; 0u64; nodes]?,
            parts: vec![in alloc; 0u64; nodes]?,
        })
    }

    /// What is taken at all places below some node above a place.
    fn above(&self, place: usize) -> u64 {
        let mut node = place.saturating_add(self.leaves);
        let mut mask = 0;
        for _level in 0..34 {
            mask |= at(&self.whole, node);
            node /= 2;
        }
        mask
    }

    /// What is taken at some place of a stretch.
    pub(crate) fn taken(&self, from: usize, to: usize) -> u64 {
        let mut mask = self.above(from) | self.above(to.saturating_sub(1));
        let mut low = from.saturating_add(self.leaves);
        let mut high = to.saturating_add(self.leaves);
        for _level in 0..34 {
            if low < high {
                if low % 2 == 1 {
                    mask |= at(&self.parts, low);
                    low = low.saturating_add(1);
                }
                if high % 2 == 1 {
                    high -= 1;
                    mask |= at(&self.parts, high);
                }
                low /= 2;
                high /= 2;
            }
        }
        mask
    }

    fn note_above(&mut self, place: usize, mask: u64) {
        let mut node = place.saturating_add(self.leaves);
        for _level in 0..34 {
            add(&mut self.parts, node, mask);
            node /= 2;
        }
    }

    fn note(&mut self, node: usize, mask: u64) {
        add(&mut self.whole, node, mask);
        add(&mut self.parts, node, mask);
    }

    /// Takes words or registers at all places of a stretch, which isn't empty.
    pub(crate) fn take(&mut self, from: usize, to: usize, mask: u64) {
        let mut low = from.saturating_add(self.leaves);
        let mut high = to.saturating_add(self.leaves);
        for _level in 0..34 {
            if low < high {
                if low % 2 == 1 {
                    self.note(low, mask);
                    low = low.saturating_add(1);
                }
                if high % 2 == 1 {
                    high -= 1;
                    self.note(high, mask);
                }
                low /= 2;
                high /= 2;
            }
        }
        self.note_above(from, mask);
        self.note_above(to.saturating_sub(1), mask);
    }
}

impl Cover {
    /// What is free wherever a temporary is live or set.
    pub(crate) fn free_for(&self, extents: &Extents, temp: u32) -> u64 {
        let mut taken = 0;
        for range in extents.ranges_of(temp) {
            taken |= self.taken(range.from as usize, range.to as usize);
        }
        for place in extents.lost_at(temp) {
            let from = *place as usize;
            taken |= self.taken(from, from.saturating_add(1));
        }
        !taken
    }

    /// Takes words or registers wherever a temporary is live or set.
    pub(crate) fn take_for(&mut self, extents: &Extents, temp: u32, mask: u64) {
        for range in extents.ranges_of(temp) {
            self.take(range.from as usize, range.to as usize, mask);
        }
        for place in extents.lost_at(temp) {
            let from = *place as usize;
            self.take(from, from.saturating_add(1), mask);
        }
    }
}
