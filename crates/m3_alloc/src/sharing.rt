use crate::choosing::give;
use crate::cover::Cover;
use crate::extents::Extents;
use crate::needs::Needs;
use m3_base::{NoMemory, place_number};
use m3_tables::Location;
use std::alloc::Global;

/// So many times 64 words are shared wherever they can be.
const MOST_COVERS: usize = 8;

/// The temporaries that want a slot and have none yet, in the order in which they begin to live.
fn queue_of(
    alloc: Global,
    extents: &Extents,
    needs: &Needs,
    places: &[Option<Location>],
) -> Result<Vec<u32>, NoMemory> {
    let mut begins = Vec::new(alloc);
    for (at, in_slot) in needs.in_slot.iter().enumerate() {
        let temp = place_number(at)?;
        if *in_slot && places.get(at).copied() == Some(None) {
            let first = match extents.ranges_of(temp).first() {
                Some(range) => Some(range.from),
                None => extents.lost_at(temp).first().copied(),
            };
            if let Some(place) = first {
                begins.push((place, temp))?;
            }
        }
    }
    begins.sort()?;
    let mut queue = Vec::new(alloc);
    for (_place, temp) in &begins {
        queue.push(*temp)?;
    }
    Ok(queue)
}

/// The words that are given so far.
#[derive(Drop)]
struct Words {
    covers: Vec<Cover>,
    first: u32,
    /// How many words are given.
    count: u32,
}

impl Words {
    /// A word for a temporary, the first that is free wherever it is live; none where they are all
    /// taken.
    fn take(
        &mut self,
        alloc: Global,
        extents: &Extents,
        temp: u32,
    ) -> Result<Option<u32>, NoMemory> {
        for at in 0..MOST_COVERS {
            if self.covers.len() <= at {
                self.covers
                    .push(Cover::new(alloc, extents.places as usize)?)?;
            }
            if let Some(cover) = self.covers.get_mut(at) {
                let bit = cover.free_for(extents, temp).trailing_zeros();
                if bit < 64 {
                    cover.take_for(extents, temp, 1u64 << bit);
                    let word = place_number(at)?.saturating_mul(64).saturating_add(bit);
                    self.count = self.count.max(word.saturating_add(1));
                    return Ok(Some(self.first.saturating_add(word)));
                }
            }
        }
        Ok(None)
    }
}

/// Gives words, from one on, to the temporaries that want a slot and have none yet, as long as few
/// enough words do, and gives the word behind them. Two temporaries share a word where they aren't
/// live together.
pub(crate) fn share_words(
    alloc: Global,
    extents: &Extents,
    needs: &Needs,
    first: u32,
    places: &mut Vec<Option<Location>>,
) -> Result<u32, NoMemory> {
    let mut words = Words {
        covers: Vec::new(alloc),
        first,
        count: 0,
    };
    for temp in &queue_of(alloc, extents, needs, places)? {
        if let Some(word) = words.take(alloc, extents, *temp)? {
            give(places, *temp, Location::Slot(word));
        }
    }
    Ok(first.saturating_add(words.count))
}
