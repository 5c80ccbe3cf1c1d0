use m3_base::{NoMemory, place_number};
use m3_derive::Derived;
use m3_flow::{Groups, LiveRange, LiveSets, Order, Pair, is_call, ops_of, settings_of, shown_at};
use m3_mid::{Held, MemoryWord, MidOp};
use std::alloc::Global;

/// What is known of the temporaries of a procedure before they get their places.
#[derive(Drop)]
pub(crate) struct Needs {
    /// Those that a call's row names or that are live across a call: they are in slots.
    pub(crate) in_slot: Vec<bool>,
    /// A temporary, and a place at which it is set though it isn't live there.
    pub(crate) lost: Vec<(u32, u32)>,
    /// The operations that do nothing but set a temporary which isn't live behind them.
    pub(crate) idle: Vec<Idle>,
    /// The places of the calls, rising.
    calls: Vec<u32>,
}

/// An operation of a block that needs no code.
#[derive(Clone, Copy, PartialEq, Eq)]
pub struct Idle {
    pub block: u32,
    pub op: u32,
}

/// Whether an operation does nothing but set a temporary.
fn only_sets(op: MidOp) -> bool {
    match op {
        MidOp::Number { .. }
        | MidOp::Move { .. }
        | MidOp::Arith { .. }
        | MidOp::Compare { .. }
        | MidOp::SlotAddress { .. }
        | MidOp::FrameAddress { .. }
        | MidOp::GlobalAddress { .. }
        | MidOp::TextCell { .. }
        | MidOp::ConstantAddress { .. }
        | MidOp::Index { .. } => true,
        MidOp::Load { to: _, from } => !matches!(from, MemoryWord::At { .. }),
        _ => false,
    }
}

/// The operation of a block at a place.
pub(crate) fn op_at<'a>(d: &Derived<'a>, block: u32, op: u32) -> Option<MidOp<'a>> {
    ops_of(&d.proc, block).get(op as usize).copied()
}

/// The number of items below a bound in a rising list.
fn count_below(list: &[u32], bound: u32) -> usize {
    let mut low = 0;
    let mut high = list.len();
    for _halving in 0..64 {
        if low < high {
            let middle = low + (high - low) / 2;
            match list.get(middle) {
                Some(item) if *item < bound => low = middle + 1,
                _ => high = middle,
            }
        }
    }
    low
}

impl Needs {
    /// For each temporary the places at which it is set for nobody.
    pub(crate) fn lost_by_temp(&self, alloc: Global) -> Result<Groups, NoMemory> {
        let mut pairs = Vec::new(alloc);
        for (temp, place) in &self.lost {
            pairs.push(Pair {
                group: *temp,
                item: *place,
            })?;
        }
        Groups::of(alloc, self.in_slot.len(), &pairs)
    }

    fn put_in_slot(&mut self, temp: u32) {
        if let Some(in_slot) = self.in_slot.get_mut(temp as usize) {
            *in_slot = true;
        }
    }

    /// What an operation at a place sets for nobody, and the calls.
    fn add_op(&mut self, op: MidOp, place: u32, live: &LiveSets, at: Idle) -> Result<(), NoMemory> {
        let next = place.saturating_add(1);
        for setting in settings_of(op) {
            if let Some(temp) = setting
                && !live.is_live(next, temp)
            {
                self.lost.push((temp, next))?;
                if only_sets(op) {
                    self.idle.push(at)?;
                }
            }
        }
        if is_call(op) {
            self.calls.push(place)?;
            for shown in shown_at(op) {
                if let Held::Temp(temp) = shown.at {
                    self.put_in_slot(temp);
                }
            }
        }
        Ok(())
    }

    fn add_ops(&mut self, d: &Derived, order: &Order, live: &LiveSets) -> Result<(), NoMemory> {
        for number in order.blocks.iter().take(order.reached) {
            let front = live.place(*number, 0);
            let mut place = front;
            for op in ops_of(&d.proc, *number) {
                let at = Idle {
                    block: *number,
                    op: place.saturating_sub(front),
                };
                self.add_op(*op, place, live, at)?;
                place = place.saturating_add(1);
            }
        }
        Ok(())
    }

    /// What the rows of calls name.
    fn add_rows(&mut self, d: &Derived) {
        for row in d.rows {
            if let Some(op) = op_at(d, row.block, row.op)
                && is_call(op)
            {
                for temp in row.tidy {
                    self.put_in_slot(*temp);
                }
                for temp in row.derived {
                    self.put_in_slot(*temp);
                }
            }
        }
        for row_use in d.uses {
            if let Some(op) = op_at(d, row_use.block, row_use.op)
                && is_call(op)
            {
                self.put_in_slot(row_use.temp);
            }
        }
    }

    /// Whether a call stands in a stretch before its last place: then the temporary stays over it.
    fn crosses_call(&self, range: LiveRange) -> bool {
        match self.calls.get(count_below(&self.calls, range.from)) {
            Some(call) => call.saturating_add(1) < range.to,
            None => false,
        }
    }

    fn add_crossing(&mut self, temps: usize, live: &LiveSets) -> Result<(), NoMemory> {
        for at in 0..temps {
            let temp = place_number(at)?;
            for range in live.ranges_of(temp) {
                if self.crosses_call(*range) {
                    self.put_in_slot(temp);
                }
            }
        }
        Ok(())
    }
}

/// What is known of the temporaries, where the blocks lie in this order and these are live.
pub(crate) fn needs_of(
    alloc: Global,
    d: &Derived,
    order: &Order,
    live: &LiveSets,
) -> Result<Needs, NoMemory> {
    let temps = d.proc.temps.len();
    let mut needs = Needs {
        in_slot: vec![in alloc; false; temps]?,
        lost: Vec::new(alloc),
        idle: Vec::new(alloc),
        calls: Vec::new(alloc),
    };
    needs.add_ops(d, order, live)?;
    needs.add_rows(d);
    needs.add_crossing(temps, live)?;
    Ok(needs)
}
