use m3_base::NoMemory;
use std::alloc::Global;

const NONE: u32 = u32::MAX;

/// Blocks in chains: those of a chain are to lie one behind the other.
#[derive(Drop)]
pub(crate) struct Chains {
    after: Vec<u32>,
    before: Vec<u32>,
    /// The first block of the chain that ends with a block.
    heads: Vec<u32>,
    /// The last block of the chain that begins with a block.
    tails: Vec<u32>,
}

fn at(list: &[u32], block: u32) -> u32 {
    list.get(block as usize).copied().unwrap_or(NONE)
}

fn set(list: &mut Vec<u32>, block: u32, value: u32) {
    if let Some(item) = list.get_mut(block as usize) {
        *item = value;
    }
}

impl Chains {
    /// Each block by itself.
    pub(crate) fn new(alloc: Global, numbers: &[u32]) -> Result<Chains, NoMemory> {
        Ok(Chains {
            after: vec![in alloc; NONE; numbers.len()]?,
            before: vec![in alloc; NONE; numbers.len()]?,
            heads: Vec::from_slice(alloc, numbers)?,
            tails: Vec::from_slice(alloc, numbers)?,
        })
    }

    /// Puts a block behind another, where the one begins a chain and the other ends another chain.
    pub(crate) fn join(&mut self, from: u32, to: u32) {
        if at(&self.after, from) != NONE || at(&self.before, to) != NONE {
            return;
        }
        let head = at(&self.heads, from);
        let tail = at(&self.tails, to);
        if head != to {
            set(&mut self.after, from, to);
            set(&mut self.before, to, from);
            set(&mut self.heads, tail, head);
            set(&mut self.tails, head, tail);
        }
    }

    pub(crate) fn after(&self, block: u32) -> Option<u32> {
        match at(&self.after, block) {
            NONE => None,
            next => Some(next),
        }
    }

    pub(crate) fn before(&self, block: u32) -> Option<u32> {
        match at(&self.before, block) {
            NONE => None,
            previous => Some(previous),
        }
    }
}
