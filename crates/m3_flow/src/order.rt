use crate::chains::Chains;
use crate::graph::{Walk, depths_of, end_of, entries_of};
use crate::groups::{Groups, Pair};
use m3_base::{NoMemory, gap, place_number};
use m3_mid::{End, Operand, Proc, Relation};
use std::alloc::Global;

/// The order in which the blocks of a procedure are to lie: those that are reached from its start,
/// which comes first, and then the others.
#[derive(Drop)]
pub struct Order {
    pub blocks: Vec<u32>,
    /// How many of them are reached.
    pub reached: usize,
    /// How many loops each block lies in, by its number.
    pub depths: Vec<u32>,
}

/// Which of its exits a block can fall into without a jump.
#[derive(Clone, Copy, PartialEq, Eq)]
enum Fall {
    Yes,
    No,
    Either,
}

/// A relation to a number can be turned round: a < 5 where 4 < a doesn't hold.
fn fall_of(relation: Relation, left: Operand, right: Operand) -> Fall {
    let has_number = matches!(left, Operand::Number(_)) || matches!(right, Operand::Number(_));
    let has_zero = left == Operand::Number(0) || right == Operand::Number(0);
    match relation {
        Relation::Equal | Relation::NotEqual if has_zero => Fall::Either,
        Relation::Equal => Fall::No,
        Relation::NotEqual => Fall::Yes,
        _ if has_number => Fall::Either,
        Relation::Less | Relation::LessUnsigned => Fall::No,
        Relation::LessEqual | Relation::LessEqualUnsigned => Fall::Yes,
    }
}

/// What is needed to say which edges save most jumps.
#[derive(Drop)]
struct Edges {
    depths: Vec<u32>,
    deepest: u32,
    pairs: Vec<Pair>,
}

impl Edges {
    fn depth(&self, block: u32) -> u32 {
        self.depths.get(block as usize).copied().unwrap_or(0)
    }

    /// Notes an edge: the deeper it lies in loops the sooner it is taken, and `late` after others.
    fn note(&mut self, from: u32, to: u32, late: u32) -> Result<(), NoMemory> {
        let depth = self.depth(from).min(self.depth(to));
        let group = self
            .deepest
            .saturating_sub(depth)
            .saturating_mul(2)
            .saturating_add(late);
        self.pairs.push(Pair { group, item: from })?;
        self.pairs.push(Pair { group, item: to })?;
        Ok(())
    }

    fn note_exits(&mut self, from: u32, end: End) -> Result<(), NoMemory> {
        match end {
            End::Goto(to) => self.note(from, to, 0),
            End::If {
                relation,
                left,
                right,
                yes,
                no,
            } => match fall_of(relation, left, right) {
                Fall::Yes => self.note(from, yes, 0),
                Fall::No => self.note(from, no, 0),
                Fall::Either => {
                    self.note(from, no, 1)?;
                    self.note(from, yes, 1)
                }
            },
            _ => Ok(()),
        }
    }
}

/// The edges of a group stand as the blocks at which they begin and end, one after the other.
fn join_row(chains: &mut Chains, start: u32, row: &[u32]) {
    let mut from = None;
    for block in row {
        match from {
            None => from = Some(*block),
            Some(first) => {
                if *block != start {
                    chains.join(first, *block);
                }
                from = None;
            }
        }
    }
}

/// Joins the blocks to chains, by the edges from the deepest loops outwards.
fn chains_of(alloc: Global, p: &Proc, walk: &Walk, depths: &[u32]) -> Result<Chains, NoMemory> {
    let mut numbers = Vec::new(alloc);
    for at in 0..p.blocks.len() {
        numbers.push(place_number(at)?)?;
    }
    let mut chains = Chains::new(alloc, &numbers)?;
    let mut edges = Edges {
        depths: Vec::from_slice(alloc, depths)?,
        deepest: depths.iter().copied().max().unwrap_or(0),
        pairs: Vec::new(alloc),
    };
    for block in walk.done.iter().rev() {
        edges.note_exits(*block, end_of(p, *block))?;
    }
    let groups = edges.deepest.saturating_add(1).saturating_mul(2);
    let rows = Groups::of(alloc, groups as usize, &edges.pairs)?;
    for group in 0..groups {
        join_row(&mut chains, p.start, rows.row(group));
    }
    Ok(chains)
}

/// Blocks laid out so far.
#[derive(Drop)]
struct Layout {
    blocks: Vec<u32>,
    is_laid: Vec<bool>,
}

impl Layout {
    fn is_laid(&self, block: u32) -> bool {
        self.is_laid.get(block as usize).copied().unwrap_or(true)
    }

    fn lay(&mut self, block: u32) -> Result<(), NoMemory> {
        if let Some(is_laid) = self.is_laid.get_mut(block as usize)
            && !*is_laid
        {
            *is_laid = true;
            self.blocks.push(block)?;
        }
        Ok(())
    }

    /// Lays the whole chain of a block.
    fn lay_chain(&mut self, chains: &Chains, block: u32) -> Result<(), NoMemory> {
        let mut next = Some(head_of(chains, block)?);
        for _step in 0..u64::MAX {
            match next {
                None => return Ok(()),
                Some(block) => {
                    self.lay(block)?;
                    next = chains.after(block);
                }
            }
        }
        Err(gap())
    }
}

/// The first block of a block's chain.
fn head_of(chains: &Chains, block: u32) -> Result<u32, NoMemory> {
    let mut head = block;
    for _step in 0..u64::MAX {
        match chains.before(head) {
            None => return Ok(head),
            Some(before) => head = before,
        }
    }
    Err(gap())
}

fn lay_all(layout: &mut Layout, p: &Proc, walk: &Walk, chains: &Chains) -> Result<usize, NoMemory> {
    layout.lay_chain(chains, p.start)?;
    for block in walk.done.iter().rev() {
        if !layout.is_laid(*block) {
            layout.lay_chain(chains, *block)?;
        }
    }
    let reached = layout.blocks.len();
    for at in 0..p.blocks.len() {
        layout.lay(place_number(at)?)?;
    }
    Ok(reached)
}

/// An order of the blocks in which few jumps are carried out: it goes on with the next block where
/// it can, most of all in loops (Pettis and Hansen, PLDI 1990).
pub fn block_order(alloc: Global, p: &Proc) -> Result<Order, NoMemory> {
    let walk = Walk::of(alloc, p)?;
    let entries = entries_of(alloc, p)?;
    let depths = depths_of(alloc, p, &walk, &entries)?;
    let chains = chains_of(alloc, p, &walk, &depths)?;
    let mut layout = Layout {
        blocks: Vec::new(alloc),
        is_laid: vec![in alloc; false; p.blocks.len()]?,
    };
    let reached = lay_all(&mut layout, p, &walk, &chains)?;
    let Layout { blocks, is_laid: _ } = layout;
    Ok(Order {
        blocks,
        reached,
        depths,
    })
}
