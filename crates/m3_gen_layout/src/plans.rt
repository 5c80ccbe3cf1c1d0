use m3_base::NoMemory;
use m3_flow::{Groups, Pair};
use m3_gen_instructions::Content;
use std::alloc::Global;

/// What stays in a register.
#[derive(Clone, Copy, PartialEq, Eq)]
pub struct Kept {
    pub register: u8,
    pub content: Content,
}

/// What stays in registers over loops.
#[derive(Drop)]
pub struct Plan {
    kept: Vec<Kept>,
    /// By block, the places among these of what its registers hold from its front to its end.
    inside: Groups,
    /// By block, the places of what has to be put into registers at its end.
    at_end: Groups,
    /// The places of what has to be put into registers where the procedure begins.
    at_start: Vec<u32>,
}

fn listed(kept: &[Kept], row: &[u32], at: usize) -> Option<Kept> {
    let place = row.get(at)?;
    kept.get(*place as usize).copied()
}

impl Plan {
    /// Nothing stays.
    pub fn none(alloc: Global) -> Result<Plan, NoMemory> {
        Ok(Plan {
            kept: Vec::new(alloc),
            inside: Groups::of(alloc, 0, &[])?,
            at_end: Groups::of(alloc, 0, &[])?,
            at_start: Vec::new(alloc),
        })
    }

    /// What stays in how many blocks, and the places of that in the blocks, at the ends of blocks
    /// and at the start.
    pub(crate) fn of(
        alloc: Global,
        blocks: usize,
        kept: Vec<Kept>,
        inside: &[Pair],
        at_end: &[Pair],
        at_start: Vec<u32>,
    ) -> Result<Plan, NoMemory> {
        Ok(Plan {
            kept,
            inside: Groups::of(alloc, blocks, inside)?,
            at_end: Groups::of(alloc, blocks, at_end)?,
            at_start,
        })
    }

    /// Whether nothing stays.
    pub fn is_empty(&self) -> bool {
        self.kept.is_empty()
    }

    /// What stays in the registers of a block, one after the other.
    pub fn inside(&self, block: u32, at: usize) -> Option<Kept> {
        listed(&self.kept, self.inside.row(block), at)
    }

    /// What has to be put into registers at the end of a block, one after the other.
    pub fn at_end(&self, block: u32, at: usize) -> Option<Kept> {
        listed(&self.kept, self.at_end.row(block), at)
    }

    /// What has to be put into registers where the procedure begins, one after the other.
    pub fn at_start(&self, at: usize) -> Option<Kept> {
        listed(&self.kept, &self.at_start, at)
    }
}
