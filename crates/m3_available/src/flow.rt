//! What is known where each block begins: what is known on every way to it.
use crate::facts::{Facts, Sources, Way};
use crate::naming::Edge;
use crate::walk::Walk;
use m3_base::NoMemory;
use m3_flow::{LiveSets, Pair as Link, exits_of};
use m3_mid::{End, Proc};
use std::alloc::Global;

/// What is known where each block begins, by its number; nothing yet where no way led to it. A block
/// is open where that changed since the block was walked.
#[derive(Drop)]
pub struct Flow {
    alloc: Global,
    entries: Vec<Option<Facts>>,
    is_open: Vec<bool>,
    sources: Sources,
}

/// What is known at one exit of a block.
fn exit_facts(
    walk: &mut Walk<'_>,
    live: &LiveSets,
    to: u32,
    end: End,
    holds: bool,
) -> Result<Facts, NoMemory> {
    let End::If {
        relation,
        left,
        right,
        ..
    } = end
    else {
        return Edge::of(walk, live, to)?.facts(walk);
    };
    walk.learn_test(relation, left, right, holds)?;
    let facts = Edge::of(walk, live, to)?.facts(walk)?;
    walk.answers.pop();
    Ok(facts)
}

impl Flow {
    /// Nothing is known where a procedure begins, and no other block is reached yet.
    pub fn new(alloc: Global, p: &Proc<'_>) -> Result<Flow, NoMemory> {
        let mut entries = Vec::new(alloc);
        for _block in p.blocks {
            entries.push(None)?;
        }
        let mut flow = Flow {
            alloc,
            entries,
            is_open: vec![in alloc; false; p.blocks.len()]?,
            sources: Sources {
                links: Vec::new(alloc),
            },
        };
        flow.put(p.start, Facts::none(alloc));
        flow.open(p.start);
        Ok(flow)
    }

    fn open(&mut self, block: u32) {
        if let Some(is_open) = self.is_open.get_mut(block as usize) {
            *is_open = true;
        }
    }

    /// Whether a block was open; it isn't any more.
    pub fn close(&mut self, block: u32) -> bool {
        match self.is_open.get_mut(block as usize) {
            Some(is_open) => {
                let was_open = *is_open;
                *is_open = false;
                was_open
            }
            None => false,
        }
    }

    fn take(&mut self, block: u32) -> Option<Facts> {
        match self.entries.get_mut(block as usize) {
            Some(entry) => entry.take(),
            None => None,
        }
    }

    fn put(&mut self, block: u32, facts: Facts) {
        if let Some(entry) = self.entries.get_mut(block as usize) {
            *entry = Some(facts);
        }
    }

    /// A way leads to a block on which this is known.
    fn reach(&mut self, way: Way, facts: Facts) -> Result<(), NoMemory> {
        match self.take(way.to) {
            None => {
                facts.note_sources(way, &mut self.sources)?;
                self.put(way.to, facts);
                self.open(way.to);
            }
            Some(mut entry) => {
                if entry.meet(&facts, way, &mut self.sources)? {
                    self.open(way.to);
                }
                self.put(way.to, entry);
            }
        }
        Ok(())
    }

    fn leave_by(
        &mut self,
        walk: &mut Walk<'_>,
        live: &LiveSets,
        way: Way,
        end: End,
        holds: bool,
    ) -> Result<(), NoMemory> {
        // Where nothing is known, no further way changes that.
        if matches!(self.entry(way.to), Some(facts) if facts.is_none()) {
            return Ok(());
        }
        let facts = exit_facts(walk, live, way.to, end, holds)?;
        self.reach(way, facts)
    }

    /// The walk through a block is at its end.
    pub fn leave(
        &mut self,
        walk: &mut Walk<'_>,
        live: &LiveSets,
        block: u32,
        end: End,
    ) -> Result<(), NoMemory> {
        let [first, second] = exits_of(end);
        if let Some(to) = first {
            self.leave_by(walk, live, Way { from: block, to }, end, true)?;
        }
        if let Some(to) = second {
            self.leave_by(walk, live, Way { from: block, to }, end, false)?;
        }
        Ok(())
    }

    /// What is known where a block begins, where some way leads to it.
    pub fn entry(&self, block: u32) -> Option<&Facts> {
        match self.entries.get(block as usize) {
            Some(Some(facts)) => Some(facts),
            _ => None,
        }
    }

    /// From which facts at the entries of blocks those of the next ones come.
    pub fn links(&self) -> &[Link] {
        &self.sources.links
    }

    /// Forgets what is known where blocks begin, and opens all that some way leads to.
    pub fn give_up(&mut self) {
        for (entry, is_open) in self.entries.iter_mut().zip(self.is_open.iter_mut()) {
            if entry.is_some() {
                *entry = Some(Facts::none(self.alloc));
                *is_open = true;
            }
        }
    }
}
