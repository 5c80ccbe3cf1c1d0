use crate::groups::{Groups, Pair};
use crate::operations::exits_of;
use m3_base::{NoMemory, gap, place_number};
use m3_mid::{End, Proc};
use std::alloc::Global;

/// How a block ends; a block that isn't there ends the run.
pub fn end_of(p: &Proc, block: u32) -> End {
    match p.blocks.get(block as usize) {
        Some(block) => block.end,
        None => End::Return { value: None },
    }
}

/// The blocks from which it goes on to each block.
pub(crate) fn entries_of(alloc: Global, p: &Proc) -> Result<Groups, NoMemory> {
    let mut pairs = Vec::new(alloc);
    for (at, block) in p.blocks.iter().enumerate() {
        let item = place_number(at)?;
        for exit in exits_of(block.end) {
            if let Some(group) = exit {
                pairs.push(Pair { group, item })?;
            }
        }
    }
    Groups::of(alloc, p.blocks.len(), &pairs)
}

/// How far the walk through the blocks has come with a block.
#[derive(Clone, Copy, PartialEq, Eq)]
pub(crate) enum Progress {
    New,
    Open,
    Done,
}

/// A walk through all blocks that are reached from the start, in depth.
#[derive(Drop)]
pub(crate) struct Walk {
    pub(crate) progress: Vec<Progress>,
    /// The blocks that are open, each with the number of its exits that were tried.
    open: Vec<(u32, u8)>,
    /// The blocks that are done, each behind those that were reached from it alone.
    pub(crate) done: Vec<u32>,
    /// The edges that lead back to an open block: its number, and the block at which they begin.
    pub(crate) back: Vec<Pair>,
}

impl Walk {
    fn enter(&mut self, from: u32, to: u32) -> Result<(), NoMemory> {
        match self.progress.get(to as usize) {
            Some(Progress::New) => {
                if let Some(progress) = self.progress.get_mut(to as usize) {
                    *progress = Progress::Open;
                }
                self.open.push((to, 0))?;
            }
            Some(Progress::Open) => {
                self.back.push(Pair {
                    group: to,
                    item: from,
                })?;
            }
            _ => {}
        }
        Ok(())
    }

    /// Goes on with the block that was opened last.
    fn go_on(&mut self, p: &Proc, block: u32, tried: u8) -> Result<(), NoMemory> {
        let exits = exits_of(end_of(p, block));
        let exit = match tried {
            0 => exits[0],
            1 => exits[1],
            _ => None,
        };
        if tried < 2 {
            self.open.push((block, tried + 1))?;
        } else {
            if let Some(progress) = self.progress.get_mut(block as usize) {
                *progress = Progress::Done;
            }
            self.done.push(block)?;
        }
        if let Some(to) = exit {
            self.enter(block, to)?;
        }
        Ok(())
    }

    fn run(&mut self, p: &Proc) -> Result<(), NoMemory> {
        self.enter(p.start, p.start)?;
        for _step in 0..u64::MAX {
            match self.open.pop() {
                None => return Ok(()),
                Some((block, tried)) => self.go_on(p, block, tried)?,
            }
        }
        Err(gap())
    }

    pub(crate) fn of(alloc: Global, p: &Proc) -> Result<Walk, NoMemory> {
        let mut walk = Walk {
            progress: vec![in alloc; Progress::New; p.blocks.len()]?,
            open: Vec::new(alloc),
            done: Vec::new(alloc),
            back: Vec::new(alloc),
        };
        walk.run(p)?;
        Ok(walk)
    }

    fn is_reached(&self, block: u32) -> bool {
        matches!(self.progress.get(block as usize), Some(Progress::Done))
    }
}

/// How many loops each block lies in.
#[derive(Drop)]
struct Depths {
    depths: Vec<u32>,
    /// The head of the loop that a block was last found in, and 1 more.
    marks: Vec<u32>,
    open: Vec<u32>,
}

impl Depths {
    /// Counts a block to the loop with this head, where it isn't yet.
    fn count(&mut self, head: u32, block: u32) -> Result<(), NoMemory> {
        let mark = head.saturating_add(1);
        if let Some(last) = self.marks.get_mut(block as usize)
            && *last != mark
        {
            *last = mark;
            if let Some(depth) = self.depths.get_mut(block as usize) {
                *depth = depth.saturating_add(1);
            }
            if block != head {
                self.open.push(block)?;
            }
        }
        Ok(())
    }

    /// Counts the blocks from which the head is reached again without passing it.
    fn count_loop(
        &mut self,
        walk: &Walk,
        entries: &Groups,
        head: u32,
        ends: &[u32],
    ) -> Result<(), NoMemory> {
        self.count(head, head)?;
        for end in ends {
            self.count(head, *end)?;
        }
        for _step in 0..u64::MAX {
            match self.open.pop() {
                None => return Ok(()),
                Some(block) => {
                    for entry in entries.row(block) {
                        if walk.is_reached(*entry) {
                            self.count(head, *entry)?;
                        }
                    }
                }
            }
        }
        Err(gap())
    }
}

/// How many loops each block lies in, by its number.
pub(crate) fn depths_of(
    alloc: Global,
    p: &Proc,
    walk: &Walk,
    entries: &Groups,
) -> Result<Vec<u32>, NoMemory> {
    let loops = Groups::of(alloc, p.blocks.len(), &walk.back)?;
    let mut depths = Depths {
        depths: vec![in alloc; 0u32; p.blocks.len()]?,
        marks: vec![in alloc; 0u32; p.blocks.len()]?,
        open: Vec::new(alloc),
    };
    for head in &walk.done {
        let ends = loops.row(*head);
        if !ends.is_empty() {
            depths.count_loop(walk, entries, *head, ends)?;
        }
    }
    let Depths {
        depths,
        marks: _,
        open: _,
    } = depths;
    Ok(depths)
}
