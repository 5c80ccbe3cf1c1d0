use crate::plans::{Kept, Plan};
use crate::regions::{Graph, Regions};
use m3_alloc::Busy;
use m3_base::{NoMemory, place_number};
use m3_flow::{Groups, Pair};
use m3_gen_instructions::{Content, Demand, FIRST};
use std::alloc::Global;

/// Deeper loops than these are looked at as one with the loop around them.
const MOST_LEVELS: u32 = 6;

/// So many things are weighed for a region.
const MOST_WISHES: usize = 24;

/// What a region demands, and how much it saves there.
#[derive(Clone, Copy)]
struct Wish {
    content: Content,
    weight: u64,
}

/// A plan in the making.
#[derive(Drop)]
struct Planner<'a> {
    alloc: Global,
    graph: &'a Graph,
    demands: &'a [Demand],
    /// The words that blocks set.
    settings: &'a [(u32, u32)],
    /// By demand, whether it is met.
    is_met: Vec<bool>,
    /// By block, the registers that are taken.
    busy: Vec<Busy>,
    kept: Vec<Kept>,
    inside: Vec<Pair>,
    at_end: Vec<Pair>,
    at_start: Vec<u32>,
}

/// How much is saved where something needn't be put into a register in a block.
fn weight_of(graph: &Graph, demand: Demand) -> u64 {
    let each = match demand.content {
        Content::Number(value) if i32::try_from(value).is_err() => 2u64,
        _ => 1u64,
    };
    let mut weight = each;
    for _loop in 0..graph.depth(demand.block).min(MOST_LEVELS) {
        weight = weight.saturating_mul(8);
    }
    weight
}

/// Adds a demand to the wishes.
fn add_wish(wishes: &mut Vec<Wish>, content: Content, weight: u64) -> Result<(), NoMemory> {
    for wish in wishes.iter_mut() {
        if wish.content == content {
            wish.weight = wish.weight.saturating_add(weight);
            return Ok(());
        }
    }
    if wishes.len() < MOST_WISHES {
        wishes.push(Wish { content, weight })?;
    }
    Ok(())
}

/// Takes the greatest wish off the list.
fn greatest_wish(wishes: &mut Vec<Wish>) -> Option<Wish> {
    let mut greatest: Option<Wish> = None;
    for wish in wishes.iter_mut() {
        let is_greater = match greatest {
            Some(other) => other.weight < wish.weight,
            None => 0 < wish.weight,
        };
        if is_greater {
            greatest = Some(*wish);
        }
    }
    let best = greatest?;
    for wish in wishes.iter_mut() {
        if wish.content == best.content {
            wish.weight = 0;
        }
    }
    Some(best)
}

/// The last of the registers of temporaries that isn't taken.
fn free_register(taken: u64) -> Option<u8> {
    for step in 0..12u8 {
        let register = 11 - step;
        if taken & (1u64 << register) == 0 {
            return Some(register);
        }
    }
    None
}

fn bit_of(register: u8) -> u64 {
    if register < 12 { 1u64 << register } else { 0 }
}

impl<'a> Planner<'a> {
    fn busy(&self, block: u32) -> Busy {
        let all = Busy {
            whole: u64::MAX,
            end: u64::MAX,
        };
        self.busy.get(block as usize).copied().unwrap_or(all)
    }

    /// The blocks outside of a region from which it goes on inside, each once.
    fn outside(&self, regions: &Regions, region: u32) -> Result<Vec<u32>, NoMemory> {
        let mut outside = Vec::new(self.alloc);
        for block in regions.blocks.row(region) {
            for entry in self.graph.entries.row(*block) {
                if regions.region(*entry) != Some(region) {
                    outside.push(*entry)?;
                }
            }
        }
        outside.sort()?;
        outside.dedup();
        Ok(outside)
    }

    /// The registers that are taken somewhere in a region, or at the end of a block before it.
    fn taken(&self, blocks: &[u32], outside: &[u32]) -> u64 {
        let mut taken = 0;
        for block in blocks {
            taken |= self.busy(*block).whole;
        }
        for block in outside {
            taken |= self.busy(*block).end;
        }
        taken
    }

    /// What is demanded in a region, but for the words that it sets and for pointers, which
    /// collections change.
    fn wishes(
        &self,
        region: u32,
        listed: &[u32],
        set: &[(u32, u32)],
    ) -> Result<Vec<Wish>, NoMemory> {
        let mut wishes = Vec::new(self.alloc);
        for at in listed {
            let is_met = self.is_met.get(*at as usize).copied().unwrap_or(true);
            if !is_met && let Some(demand) = self.demands.get(*at as usize) {
                let stays = match demand.content {
                    Content::Word(word) => set.binary_search(&(region, word)).is_err(),
                    Content::Number(_) | Content::Globals => true,
                    Content::Pointer(_) | Content::Nothing => false,
                };
                if stays {
                    add_wish(&mut wishes, demand.content, weight_of(self.graph, *demand))?;
                }
            }
        }
        Ok(wishes)
    }

    fn take(&mut self, block: u32, whole: u64, end: u64) {
        if let Some(busy) = self.busy.get_mut(block as usize) {
            busy.whole |= whole;
            busy.end |= end;
        }
    }

    /// The demands for something in a region are met.
    fn meet(&mut self, listed: &[u32], content: Content) {
        for at in listed {
            if let Some(demand) = self.demands.get(*at as usize)
                && demand.content == content
                && let Some(is_met) = self.is_met.get_mut(*at as usize)
            {
                *is_met = true;
            }
        }
    }

    /// Keeps something in a register over a region.
    fn keep(
        &mut self,
        kept: Kept,
        blocks: &[u32],
        outside: &[u32],
        is_started: bool,
    ) -> Result<(), NoMemory> {
        let item = place_number(self.kept.len())?;
        self.kept.push(kept)?;
        let bit = bit_of(kept.register);
        for block in blocks {
            self.inside.push(Pair {
                group: *block,
                item,
            })?;
            self.take(*block, bit, bit);
        }
        for block in outside {
            self.at_end.push(Pair {
                group: *block,
                item,
            })?;
            self.take(*block, bit, bit);
        }
        if is_started {
            self.at_start.push(item)?;
        }
        Ok(())
    }

    /// Keeps what a region demands most, as long as registers are free in all of it.
    fn plan_region(
        &mut self,
        regions: &Regions,
        region: u32,
        listed: &[u32],
        set: &[(u32, u32)],
    ) -> Result<(), NoMemory> {
        let blocks = regions.blocks.row(region);
        for block in blocks {
            if self.graph.has_call(*block) {
                return Ok(());
            }
        }
        let outside = self.outside(regions, region)?;
        let is_started = regions.region(self.graph.start) == Some(region);
        let mut taken = self.taken(blocks, &outside);
        let mut wishes = self.wishes(region, listed, set)?;
        for _wish in 0..FIRST {
            let Some(register) = free_register(taken) else {
                return Ok(());
            };
            let Some(wish) = greatest_wish(&mut wishes) else {
                return Ok(());
            };
            taken |= bit_of(register);
            let content = wish.content;
            self.keep(Kept { register, content }, blocks, &outside, is_started)?;
            self.meet(listed, content);
        }
        Ok(())
    }

    /// The words that regions set, each behind its region, rising.
    fn set_in(&self, regions: &Regions) -> Result<Vec<(u32, u32)>, NoMemory> {
        let mut set = Vec::new(self.alloc);
        for (block, word) in self.settings {
            if let Some(region) = regions.region(*block) {
                set.push((region, *word))?;
            }
        }
        set.sort()?;
        Ok(set)
    }

    /// Looks at the regions of the blocks that lie in so many loops.
    fn plan_level(&mut self, level: u32) -> Result<(), NoMemory> {
        let regions = Regions::of(self.alloc, self.graph, level)?;
        let mut pairs = Vec::new(self.alloc);
        for (at, demand) in self.demands.iter().enumerate() {
            if let Some(group) = regions.region(demand.block) {
                let item = place_number(at)?;
                pairs.push(Pair { group, item })?;
            }
        }
        let listed = Groups::of(self.alloc, regions.count as usize, &pairs)?;
        let set = self.set_in(&regions)?;
        for region in 0..regions.count {
            self.plan_region(&regions, region, listed.row(region), &set)?;
        }
        Ok(())
    }
}

/// What is to stay in registers over loops: of what had to be put into registers there again and
/// again as much as there are registers that no temporary has in the loop: numbers, the address of
/// the globals, and words of the frame that hold no pointer and aren't set in the loop. A loop with
/// a call keeps nothing.
pub fn plan_of(
    alloc: Global,
    graph: &Graph,
    busy: &[Busy],
    demands: &[Demand],
    settings: &[(u32, u32)],
) -> Result<Plan, NoMemory> {
    let mut planner = Planner {
        alloc,
        graph,
        demands,
        settings,
        is_met: vec![in alloc; false; demands.len()]?,
        busy: Vec::from_slice(alloc, busy)?,
        kept: Vec::new(alloc),
        inside: Vec::new(alloc),
        at_end: Vec::new(alloc),
        at_start: Vec::new(alloc),
    };
    for level in 1..=graph.deepest().min(MOST_LEVELS) {
        planner.plan_level(level)?;
    }
    let Planner {
        alloc: _,
        graph: _,
        demands: _,
        settings: _,
        is_met: _,
        busy: _,
        kept,
        inside,
        at_end,
        at_start,
    } = planner;
    Plan::of(alloc, graph.depths.len(), kept, &inside, &at_end, at_start)
}
