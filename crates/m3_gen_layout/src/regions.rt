use crate::targets::next_of;
use m3_base::{NoMemory, place_number};
use m3_flow::{Groups, Order, Pair, end_of, exits_of, is_call, ops_of};
use m3_mid::Proc;
use std::alloc::Global;

/// The blocks that get code, and the ways between them.
#[derive(Drop)]
pub struct Graph {
    pub(crate) laid: Vec<u32>,
    /// By block, those from which it goes on there.
    pub(crate) entries: Groups,
    /// By block, those at which it goes on.
    pub(crate) exits: Groups,
    /// By block, in how many loops it lies, and 1 more; 0 where it gets no code.
    pub(crate) depths: Vec<u32>,
    pub(crate) calls: Vec<bool>,
    pub(crate) start: u32,
}

fn is_calling(p: &Proc, block: u32) -> bool {
    for op in ops_of(p, block) {
        if is_call(*op) {
            return true;
        }
    }
    false
}

/// By block, in how many loops it lies, and 1 more; 0 where it gets no code.
fn depths_of(alloc: Global, order: &Order, laid: &[u32]) -> Result<Vec<u32>, NoMemory> {
    let mut depths = vec![in alloc; 0u32; order.depths.len()]?;
    for number in laid {
        let depth = order.depths.get(*number as usize).copied().unwrap_or(0);
        if let Some(item) = depths.get_mut(*number as usize) {
            *item = depth.saturating_add(1);
        }
    }
    Ok(depths)
}

impl Graph {
    /// That of a procedure with its order of blocks, where jumps go, and the blocks that get code.
    pub fn of(
        alloc: Global,
        p: &Proc,
        order: &Order,
        targets: &[u32],
        laid: &[u32],
    ) -> Result<Graph, NoMemory> {
        let mut entries = Vec::new(alloc);
        let mut exits = Vec::new(alloc);
        let mut calls = vec![in alloc; false; p.blocks.len()]?;
        for number in laid {
            if let Some(item) = calls.get_mut(*number as usize) {
                *item = is_calling(p, *number);
            }
            for exit in exits_of(end_of(p, *number)) {
                if let Some(to) = exit {
                    let target = next_of(targets, to);
                    entries.push(Pair {
                        group: target,
                        item: *number,
                    })?;
                    exits.push(Pair {
                        group: *number,
                        item: target,
                    })?;
                }
            }
        }
        Ok(Graph {
            laid: Vec::from_slice(alloc, laid)?,
            entries: Groups::of(alloc, p.blocks.len(), &entries)?,
            exits: Groups::of(alloc, p.blocks.len(), &exits)?,
            depths: depths_of(alloc, order, laid)?,
            calls,
            start: next_of(targets, p.start),
        })
    }

    /// In how many loops a block lies.
    pub(crate) fn depth(&self, block: u32) -> u32 {
        self.depths
            .get(block as usize)
            .copied()
            .unwrap_or(0)
            .saturating_sub(1)
    }

    /// The most loops in which a block lies.
    pub fn deepest(&self) -> u32 {
        self.depths
            .iter()
            .copied()
            .max()
            .unwrap_or(0)
            .saturating_sub(1)
    }

    pub(crate) fn has_call(&self, block: u32) -> bool {
        self.calls.get(block as usize).copied().unwrap_or(true)
    }
}

/// Blocks that lie in so many loops at least, in regions: what hangs together is one.
#[derive(Drop)]
pub(crate) struct Regions {
    /// By block its region, and 1 more; 0 for those that lie in fewer loops.
    numbers: Vec<u32>,
    pub(crate) count: u32,
    pub(crate) blocks: Groups,
}

/// The regions in the making.
#[derive(Drop)]
struct Finder {
    numbers: Vec<u32>,
    pairs: Vec<Pair>,
    /// The blocks of the region at hand.
    list: Vec<u32>,
}

impl Finder {
    /// Adds a block to a region, if it belongs there and to no region yet.
    fn add(&mut self, graph: &Graph, level: u32, region: u32, block: u32) -> Result<(), NoMemory> {
        if level <= graph.depth(block)
            && let Some(number) = self.numbers.get_mut(block as usize)
            && *number == 0
        {
            *number = region.saturating_add(1);
            self.list.push(block)?;
            self.pairs.push(Pair {
                group: region,
                item: block,
            })?;
        }
        Ok(())
    }

    fn add_all(
        &mut self,
        graph: &Graph,
        level: u32,
        region: u32,
        blocks: &[u32],
    ) -> Result<(), NoMemory> {
        for block in blocks {
            self.add(graph, level, region, *block)?;
        }
        Ok(())
    }

    /// The region of a block; whether it has one that is new.
    fn find(
        &mut self,
        graph: &Graph,
        level: u32,
        region: u32,
        block: u32,
    ) -> Result<bool, NoMemory> {
        self.list.clear();
        self.add(graph, level, region, block)?;
        for at in 0..graph.laid.len() {
            let Some(block) = self.list.get(at).copied() else {
                return Ok(at > 0);
            };
            self.add_all(graph, level, region, graph.entries.row(block))?;
            self.add_all(graph, level, region, graph.exits.row(block))?;
        }
        Ok(!self.list.is_empty())
    }
}

impl Regions {
    /// The regions of the blocks that lie in so many loops.
    pub(crate) fn of(alloc: Global, graph: &Graph, level: u32) -> Result<Regions, NoMemory> {
        let mut finder = Finder {
            numbers: vec![in alloc; 0u32; graph.depths.len()]?,
            pairs: Vec::new(alloc),
            list: Vec::new(alloc),
        };
        let mut count = 0u32;
        for block in &graph.laid {
            if finder.find(graph, level, count, *block)? {
                count = count.saturating_add(1);
            }
        }
        let _blocks = place_number(graph.laid.len())?;
        let blocks = Groups::of(alloc, count as usize, &finder.pairs)?;
        let Finder {
            numbers,
            pairs: _,
            list: _,
        } = finder;
        Ok(Regions {
            numbers,
            count,
            blocks,
        })
    }

    /// The region of a block.
    pub(crate) fn region(&self, block: u32) -> Option<u32> {
        self.numbers.get(block as usize)?.checked_sub(1)
    }
}
