use m3_base::{NoMemory, place_number};
use std::alloc::Global;

/// A number and the group that it belongs to.
#[derive(Clone, Copy)]
pub struct Pair {
    pub group: u32,
    pub item: u32,
}

/// Numbers in groups, each of which is a row in the order in which they were given.
#[derive(Drop)]
pub struct Groups {
    firsts: Vec<u32>,
    items: Vec<u32>,
}

/// The place at which each group begins behind those before it, and at last their end.
fn firsts_of(alloc: Global, count: usize, pairs: &[Pair]) -> Result<Vec<u32>, NoMemory> {
    let mut firsts = vec![in alloc; 0u32; count.saturating_add(1)]?;
    for pair in pairs {
        if let Some(size) = firsts.get_mut(pair.group as usize) {
            *size = size.saturating_add(1);
        }
    }
    let mut total = 0u32;
    for first in firsts.iter_mut() {
        let size = *first;
        *first = total;
        total = total.saturating_add(size);
    }
    Ok(firsts)
}

impl Groups {
    /// The pairs in so many groups; those of no group are left out.
    pub fn of(alloc: Global, count: usize, pairs: &[Pair]) -> Result<Groups, NoMemory> {
        let firsts = firsts_of(alloc, count, pairs)?;
        let mut next = Vec::from_slice(alloc, &firsts)?;
        let mut items = vec![in alloc; 0u32; pairs.len()]?;
        for pair in pairs {
            if (pair.group as usize) < count
                && let Some(place) = next.get_mut(pair.group as usize)
            {
                let at = *place as usize;
                *place = place.saturating_add(1);
                if let Some(item) = items.get_mut(at) {
                    *item = pair.item;
                }
            }
        }
        let _count = place_number(pairs.len())?;
        Ok(Groups { firsts, items })
    }

    /// The numbers of a group.
    pub fn row(&self, group: u32) -> &[u32] {
        let at = group as usize;
        let first = self.firsts.get(at).copied().unwrap_or(0) as usize;
        let end = self.firsts.get(at.saturating_add(1)).copied().unwrap_or(0) as usize;
        if first <= end && end <= self.items.len() {
            &self.items[first..end]
        } else {
            &[]
        }
    }
}
