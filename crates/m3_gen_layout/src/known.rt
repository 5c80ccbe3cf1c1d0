use m3_base::NoMemory;
use m3_gen_instructions::{Contents, NOTHING, meet};
use std::alloc::Global;

/// What is known of registers at the fronts of blocks: what is known wherever it goes on there.
#[derive(Drop)]
pub struct Known {
    contents: Vec<Contents>,
    /// How many ways to each block were seen.
    seen: Vec<u32>,
    /// How many there are.
    entries: Vec<u32>,
}

impl Known {
    /// No way seen yet of those that there are to each block.
    pub fn new(alloc: Global, entries: &[u32]) -> Result<Known, NoMemory> {
        Ok(Known {
            contents: vec![in alloc; NOTHING; entries.len()]?,
            seen: vec![in alloc; 0u32; entries.len()]?,
            entries: Vec::from_slice(alloc, entries)?,
        })
    }

    /// Notes a way to a block, on which this is known.
    pub fn enter(&mut self, block: u32, known: Contents) {
        let at = block as usize;
        if let Some(item) = self.contents.get_mut(at)
            && let Some(seen) = self.seen.get_mut(at)
        {
            *item = if *seen == 0 {
                known
            } else {
                meet(*item, known)
            };
            *seen = seen.saturating_add(1);
        }
    }

    /// What is known at the front of a block: nothing as long as a way to it wasn't seen.
    pub fn at_front(&self, block: u32) -> Contents {
        let at = block as usize;
        if self.seen.get(at).copied() != self.entries.get(at).copied() {
            return NOTHING;
        }
        self.contents.get(at).copied().unwrap_or(NOTHING)
    }
}
