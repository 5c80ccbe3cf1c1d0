//! The blocks written again without what was done before.
use crate::renaming::Names;
use crate::temps::Temps;
use bumpalo::Bump;
use m3_available::{Flow, Holder, Step, Walk};
use m3_base::{NoMemory, place_number};
use m3_flow::{LiveSets, Order, end_of, ops_of};
use m3_mid::{Block, End, Kind, MidOp, Proc};
use std::alloc::Global;
use std::mem;

/// After so many rounds nothing is taken from block to block.
const ROUNDS: u32 = 40;

/// A block in the making, the facts at its entry that are used in it, and whether an operation was
/// left out or replaced.
#[derive(Drop)]
pub(crate) struct Draft<'a> {
    pub ops: Vec<MidOp<'a>>,
    pub end: End,
    pub used: Vec<u32>,
    pub is_changed: bool,
}

/// The right procedure in the making.
#[derive(Drop)]
pub(crate) struct Rewriting<'a> {
    alloc: Global,
    temps: Temps,
    kinds: &'a [Kind],
    pub names: Names<'a>,
    /// By block what it becomes; none where no way led to it yet.
    drafts: Vec<Option<Draft<'a>>>,
    /// Whether an operation of the block at hand was left out or replaced.
    is_changed: bool,
}

impl<'a> Rewriting<'a> {
    pub(crate) fn new(
        alloc: Global,
        arena: &'a Bump,
        p: &Proc<'a>,
    ) -> Result<Rewriting<'a>, NoMemory> {
        let mut drafts = Vec::new(alloc);
        for _block in p.blocks {
            drafts.push(None)?;
        }
        Ok(Rewriting {
            alloc,
            temps: Temps::of(alloc, p)?,
            kinds: p.temps,
            names: Names::new(alloc, arena, p.temps.len())?,
            drafts,
            is_changed: false,
        })
    }

    fn kind(&self, temp: u32) -> Option<Kind> {
        self.kinds.get(temp as usize).copied()
    }

    /// What holds what a temporary is set to, is of its kind, and stays what it is in the rest of the
    /// block.
    fn holder(&self, walk: &Walk<'_>, to: u32, place: u32) -> Option<Holder> {
        let holder = match walk.places.holder(to) {
            Some(holder) => holder,
            None => Holder {
                temp: walk.places.unset(to)?,
                from: None,
                is_near: true,
            },
        };
        let is_fit = holder.temp != to
            && self.kind(holder.temp) == self.kind(to)
            && self.temps.stays(holder.temp, place)
            && !self.names.is_renamed(holder.temp);
        if is_fit { Some(holder) } else { None }
    }

    /// Leaves out an operation whose result a temporary holds, where that can stand in its place.
    fn leave_out(
        &mut self,
        walk: &mut Walk<'_>,
        to: u32,
        holder: Holder,
    ) -> Result<bool, NoMemory> {
        if !self.temps.is_local(to) {
            return Ok(false);
        }
        walk.note(holder.from)?;
        self.names.rename(to, holder.temp);
        Ok(true)
    }

    /// What becomes of an operation that sets a temporary to a sum: nothing, where it is left out.
    fn sum(
        &mut self,
        walk: &mut Walk<'_>,
        op: MidOp<'a>,
        to: u32,
        place: u32,
    ) -> Result<Option<MidOp<'a>>, NoMemory> {
        let is_index = matches!(op, MidOp::Index { .. });
        if let Some(holder) = self.holder(walk, to, place)
            && (is_index || holder.is_near)
        {
            if self.leave_out(walk, to, holder)? {
                return Ok(None);
            }
            if is_index {
                walk.note(holder.from)?;
                self.is_changed = true;
                return Ok(Some(MidOp::Move {
                    to,
                    from: holder.temp,
                }));
            }
        }
        Ok(Some(self.names.op(op)?))
    }

    /// What becomes of an operation whose result was known.
    fn known(
        &mut self,
        walk: &mut Walk<'_>,
        op: MidOp<'a>,
        to: u32,
        place: u32,
    ) -> Result<Option<MidOp<'a>>, NoMemory> {
        if let Some(holder) = self.holder(walk, to, place) {
            if self.leave_out(walk, to, holder)? {
                return Ok(None);
            }
            if matches!(op, MidOp::Checked { .. }) {
                walk.note(holder.from)?;
                self.is_changed = true;
                return Ok(Some(MidOp::Move {
                    to,
                    from: holder.temp,
                }));
            }
        }
        Ok(Some(self.names.op(op)?))
    }

    /// What becomes of an operation behind which the left procedure's temporaries are as a step
    /// says.
    fn write(
        &mut self,
        walk: &mut Walk<'_>,
        op: MidOp<'a>,
        step: Step,
        place: u32,
    ) -> Result<Option<MidOp<'a>>, NoMemory> {
        match step {
            Step::Sum { to } => self.sum(walk, op, to, place),
            Step::Known { to, is_near: true } => self.known(walk, op, to, place),
            Step::Holds => Ok(None),
            Step::Known { .. } | Step::New { .. } | Step::Other => Ok(Some(self.names.op(op)?)),
        }
    }

    fn add_op(
        &mut self,
        walk: &mut Walk<'_>,
        op: MidOp<'a>,
        place: usize,
        ops: &mut Vec<MidOp<'a>>,
    ) -> Result<(), NoMemory> {
        let place = place_number(place)?;
        let step = walk.step(op)?;
        match self.write(walk, op, step, place)? {
            Some(op) => {
                ops.push(op)?;
                walk.follow(step);
            }
            None => self.is_changed = true,
        }
        Ok(())
    }

    /// Writes a block, by what is known where it begins.
    fn write_block(
        &mut self,
        walk: &mut Walk<'_>,
        p: &Proc<'a>,
        block: u32,
    ) -> Result<Draft<'a>, NoMemory> {
        let old = ops_of(p, block);
        let end = end_of(p, block);
        self.temps.enter(Block { ops: old, end })?;
        for temp in self.temps.set_here() {
            self.names.restore(*temp);
        }
        self.is_changed = false;
        let mut ops = Vec::with_capacity(self.alloc, old.len())?;
        for (place, op) in old.iter().enumerate() {
            self.add_op(walk, *op, place, &mut ops)?;
        }
        Ok(Draft {
            ops,
            end: self.names.end(end),
            used: Vec::new(self.alloc),
            is_changed: self.is_changed,
        })
    }

    /// A block that no way reaches stays what it is.
    fn copy_block(&self, p: &Proc<'a>, block: u32) -> Result<Draft<'a>, NoMemory> {
        Ok(Draft {
            ops: Vec::from_slice(self.alloc, ops_of(p, block))?,
            end: end_of(p, block),
            used: Vec::new(self.alloc),
            is_changed: false,
        })
    }

    /// Writes once the blocks that are open. Gives whether any was.
    fn write_open(
        &mut self,
        p: &Proc<'a>,
        walk: &mut Walk<'_>,
        flow: &mut Flow,
        live: &LiveSets,
        order: &Order,
    ) -> Result<bool, NoMemory> {
        let mut any = false;
        for block in &order.blocks {
            if flow.close(*block)
                && let Some(entry) = flow.entry(*block)
            {
                any = true;
                walk.enter(entry)?;
                let mut draft = self.write_block(walk, p, *block)?;
                flow.leave(walk, live, *block, end_of(p, *block))?;
                draft.used = mem::replace(&mut walk.used, Vec::new(self.alloc));
                if let Some(place) = self.drafts.get_mut(*block as usize) {
                    *place = Some(draft);
                }
            }
        }
        Ok(any)
    }

    /// Writes the blocks that some way reaches, until what is known where they begin stays so.
    fn write_reached(
        &mut self,
        p: &Proc<'a>,
        flow: &mut Flow,
        live: &LiveSets,
        order: &Order,
    ) -> Result<(), NoMemory> {
        let mut walk = Walk::new(self.alloc, p.slots, p.temps.len())?;
        for _round in 0..ROUNDS {
            if !self.write_open(p, &mut walk, flow, live, order)? {
                return Ok(());
            }
        }
        flow.give_up();
        self.write_open(p, &mut walk, flow, live, order)?;
        Ok(())
    }

    /// Writes all blocks.
    pub(crate) fn write_all(
        &mut self,
        p: &Proc<'a>,
        flow: &mut Flow,
        live: &LiveSets,
        order: &Order,
    ) -> Result<Vec<Draft<'a>>, NoMemory> {
        self.write_reached(p, flow, live, order)?;
        let written = mem::replace(&mut self.drafts, Vec::new(self.alloc));
        let mut drafts = Vec::with_capacity(self.alloc, written.len())?;
        for (block, draft) in written.into_iter().enumerate() {
            match draft {
                Some(draft) => drafts.push(draft)?,
                None => drafts.push(self.copy_block(p, place_number(block)?)?)?,
            }
        }
        Ok(drafts)
    }

    /// Whether one operation alone sets a temporary.
    pub(crate) fn is_set_once(&self, temp: u32) -> bool {
        self.temps.is_set_once(temp)
    }
}
