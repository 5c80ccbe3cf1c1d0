//! Arms that end in calls which are equal but for their actuals.
use m3_flow::exits_of;
use m3_mid::{Actual, Block, Callee, End, Kind, MidOp, Operand, Raised, Shown};
use std::alloc::{AllocError, Global};

/// What an operation calls, and with what.
#[derive(Clone, Copy)]
pub(crate) struct Call<'a> {
    pub(crate) callee: Callee,
    pub(crate) actuals: &'a [Actual],
    pub(crate) result: Option<u32>,
    pub(crate) raised: Option<Raised>,
    pub(crate) shown: &'a [Shown],
}

/// A block that ends in a call, behind other operations, and goes on to one block.
#[derive(Clone, Copy)]
pub(crate) struct Arm<'a> {
    pub(crate) block: u32,
    pub(crate) before: &'a [MidOp<'a>],
    pub(crate) call: Call<'a>,
    pub(crate) next: u32,
}

fn arm_of<'a>(blocks: &[Block<'a>], block: u32) -> Option<Arm<'a>> {
    let content = *blocks.get(block as usize)?;
    let End::Goto(next) = content.end else {
        return None;
    };
    let (last, before) = content.ops.split_last()?;
    match *last {
        MidOp::Call {
            callee,
            actuals,
            result,
            raised,
            shown,
        } => Some(Arm {
            block,
            before,
            call: Call {
                callee,
                actuals,
                result,
                raised,
                shown,
            },
            next,
        }),
        _ => None,
    }
}

/// What an operand is to a collector; none where there is no such temporary.
pub(crate) fn kind_of(temps: &[Kind], operand: Operand) -> Option<Kind> {
    match operand {
        Operand::Temp(temp) => temps.get(temp as usize).copied(),
        Operand::Number(_) => Some(Kind::Number),
    }
}

/// Whether one temporary can hold either of two operands.
fn is_like(temps: &[Kind], left: Operand, right: Operand) -> bool {
    left == right || kind_of(temps, left) == kind_of(temps, right)
}

fn are_actuals_like(temps: &[Kind], left: Actual, right: Actual) -> bool {
    match (left, right) {
        (Actual::Word(left), Actual::Word(right)) => is_like(temps, left, right),
        (Actual::Slots { .. }, Actual::Slots { .. }) => left == right,
        (
            Actual::Reference { address, base },
            Actual::Reference {
                address: other,
                base: beneath,
            },
        ) => {
            is_like(temps, Operand::Temp(address), Operand::Temp(other))
                && is_like(temps, base, beneath)
        }
        _ => false,
    }
}

fn are_calls_like(temps: &[Kind], left: Call<'_>, right: Call<'_>) -> bool {
    left.callee == right.callee
        && left.result == right.result
        && left.raised == right.raised
        && left.shown == right.shown
        && left.actuals.len() == right.actuals.len()
        && left
            .actuals
            .iter()
            .zip(right.actuals)
            .all(|(left, right)| are_actuals_like(temps, *left, *right))
}

/// How many ways lead into each block, with that from the start.
#[derive(Drop)]
pub(crate) struct Entrances {
    counts: Vec<u32>,
}

impl Entrances {
    pub(crate) fn of(
        alloc: Global,
        blocks: &[Block<'_>],
        start: u32,
    ) -> Result<Entrances, AllocError> {
        let mut entrances = Entrances {
            counts: vec![in alloc; 0u32; blocks.len()]?,
        };
        entrances.add(start);
        for block in blocks {
            for exit in exits_of(block.end) {
                if let Some(exit) = exit {
                    entrances.add(exit);
                }
            }
        }
        Ok(entrances)
    }

    fn add(&mut self, block: u32) {
        if let Some(count) = self.counts.get_mut(block as usize) {
            *count = count.saturating_add(1);
        }
    }

    fn is_single(&self, block: u32) -> bool {
        self.counts.get(block as usize).copied() == Some(1)
    }
}

/// The arms of the IF at the end of a block, where one call can end them both: no other way leads
/// into either of them, they go on to the same block, and their calls are equal but for actuals of
/// the same kinds.
pub(crate) fn arms_of<'a>(
    temps: &[Kind],
    blocks: &[Block<'a>],
    entrances: &Entrances,
    block: u32,
) -> Option<(Arm<'a>, Arm<'a>)> {
    let End::If { yes, no, .. } = blocks.get(block as usize)?.end else {
        return None;
    };
    if !entrances.is_single(yes) || !entrances.is_single(no) {
        return None;
    }
    let left = arm_of(blocks, yes)?;
    let right = arm_of(blocks, no)?;
    if left.next == right.next && are_calls_like(temps, left.call, right.call) {
        Some((left, right))
    } else {
        None
    }
}
