ghost use Rattle.std.specs.Prelude.{◌≡◌, IfOk, true};
ghost use Rattle.m3_mid_meaning.specs.Runs.{FollowsRun};

use crate::arms::{Arm, Entrances, arms_of, kind_of};
use bumpalo::Bump;
use bumpalo::collections::into_bump_slice;
use m3_base::{NoMemory, place_number};
use m3_mid::{Actual, Block, End, Kind, MidOp, Operand, Proc};
use m3_same_forms::Pair;
use m3_same_run::{Verdict, judged, unchanged};
use std::alloc::Global;

/// A block with more operations is left as it is, and its procedure with it.
const LONGEST: usize = 2000;

/// What the two arms do before the call that both go on to.
#[derive(Drop)]
struct Ends<'a> {
    left: Vec<MidOp<'a>, &'a Bump>,
    right: Vec<MidOp<'a>, &'a Bump>,
}

/// A procedure whose arms are being merged.
#[derive(Drop)]
struct Merging<'a> {
    arena: &'a Bump,
    temps: Vec<Kind, &'a Bump>,
    blocks: Vec<Block<'a>, &'a Bump>,
}

fn set<'a>(to: u32, from: Operand) -> MidOp<'a> {
    match from {
        Operand::Temp(from) => MidOp::Move { to, from },
        Operand::Number(value) => MidOp::Number { to, value },
    }
}

impl<'a> Merging<'a> {
    fn of(arena: &'a Bump, p: &Proc<'a>) -> Result<Merging<'a>, NoMemory> {
        let mut temps = Vec::new(arena);
        temps.extend_from_slice(p.temps)?;
        let mut blocks = Vec::new(arena);
        blocks.extend_from_slice(p.blocks)?;
        Ok(Merging {
            arena,
            temps,
            blocks,
        })
    }

    /// A new temporary that holds the one operand or the other, by the arm.
    fn either(
        &mut self,
        left: Operand,
        right: Operand,
        ends: &mut Ends<'a>,
    ) -> Result<u32, NoMemory> {
        let to = place_number(self.temps.len())?;
        self.temps
            .push(kind_of(&self.temps, left).unwrap_or(Kind::Number))?;
        ends.left.push(set(to, left))?;
        ends.right.push(set(to, right))?;
        Ok(to)
    }

    fn operand(
        &mut self,
        left: Operand,
        right: Operand,
        ends: &mut Ends<'a>,
    ) -> Result<Operand, NoMemory> {
        if left == right {
            return Ok(left);
        }
        Ok(Operand::Temp(self.either(left, right, ends)?))
    }

    fn address(&mut self, left: u32, right: u32, ends: &mut Ends<'a>) -> Result<u32, NoMemory> {
        if left == right {
            return Ok(left);
        }
        self.either(Operand::Temp(left), Operand::Temp(right), ends)
    }

    fn actual(
        &mut self,
        left: Actual,
        right: Actual,
        ends: &mut Ends<'a>,
    ) -> Result<Actual, NoMemory> {
        match (left, right) {
            (Actual::Word(left), Actual::Word(right)) => {
                Ok(Actual::Word(self.operand(left, right, ends)?))
            }
            (
                Actual::Reference { address, base },
                Actual::Reference {
                    address: other,
                    base: beneath,
                },
            ) => Ok(Actual::Reference {
                address: self.address(address, other, ends)?,
                base: self.operand(base, beneath, ends)?,
            }),
            _ => Ok(left),
        }
    }

    fn end_arm(&mut self, arm: Arm<'a>, end: Vec<MidOp<'a>, &'a Bump>, call: u32) {
        if let Some(block) = self.blocks.get_mut(arm.block as usize) {
            *block = Block {
                ops: into_bump_slice(end),
                end: End::Goto(call),
            };
        }
    }

    /// Makes the calls of two arms one, in a block of its own behind both.
    fn merge(&mut self, left: Arm<'a>, right: Arm<'a>) -> Result<(), NoMemory> {
        let mut ends = Ends {
            left: Vec::from_slice(self.arena, left.before)?,
            right: Vec::from_slice(self.arena, right.before)?,
        };
        let mut actuals = Vec::new(self.arena);
        for (one, other) in left.call.actuals.iter().zip(right.call.actuals) {
            actuals.push(self.actual(*one, *other, &mut ends)?)?;
        }
        let call = MidOp::Call {
            callee: left.call.callee,
            actuals: into_bump_slice(actuals),
            result: left.call.result,
            raised: left.call.raised,
            shown: left.call.shown,
        };
        let mut ops = Vec::new(self.arena);
        ops.push(call)?;
        let number = place_number(self.blocks.len())?;
        self.blocks.push(Block {
            ops: into_bump_slice(ops),
            end: End::Goto(left.next),
        })?;
        self.end_arm(left, ends.left, number);
        self.end_arm(right, ends.right, number);
        Ok(())
    }

    /// Merges the arms of the IF at the end of a block as long as there are calls that end both.
    /// Says whether there were any.
    fn merge_arms(&mut self, entrances: &Entrances, block: u32) -> Result<bool, NoMemory> {
        let mut is_merged = false;
        // Each time both arms have a call less.
        for _call in 0..LONGEST {
            match arms_of(&self.temps, &self.blocks, entrances, block) {
                Some((left, right)) => self.merge(left, right)?,
                None => return Ok(is_merged),
            }
            is_merged = true;
        }
        Ok(is_merged)
    }
}

/// Each block with itself: all that both procedures have is the same in both.
fn pairs_of(alloc: Global, p: &Proc<'_>) -> Result<Vec<Pair>, NoMemory> {
    let mut pairs = Vec::new(alloc);
    for number in 0..p.blocks.len() {
        let number = place_number(number)?;
        pairs.push(Pair {
            left: number,
            right: number,
            left_settings: Vec::new(alloc),
            settings: Vec::new(alloc),
            knowns: Vec::new(alloc),
        })?;
    }
    Ok(pairs)
}

fn has_long_block(p: &Proc<'_>) -> bool {
    p.blocks.iter().any(|block| block.ops.len() > LONGEST)
}

/// The same procedure in which the arms of an IF that end in calls which are equal but for their
/// actuals have one call: each sets the same temporaries to its actuals, and one call follows. Each
/// defined run of the procedure is a run of the result. Where the check of that refuses what was
/// written, which is a gap of this pass and no fault of the program, the procedure is given back.
pub fn try_merge<'a>(alloc: Global, arena: &'a Bump, p: &Proc<'a>) -> Result<Verdict<'a>, NoMemory>
    ensures follows { IfOk result (λ m. FollowsRun p.now m.proc) }
    ensures given_back { IfOk result (λ m. m.is_refused ≡ true → m.proc ≡ p.now) }
{
    if has_long_block(p) {
        return Ok(unchanged(p));
    }
    let entrances = Entrances::of(alloc, p.blocks, p.start)?;
    let mut merging = Merging::of(arena, p)?;
    let mut is_merged = false;
    for number in 0..p.blocks.len() {
        is_merged |= merging.merge_arms(&entrances, place_number(number)?)?;
    }
    if !is_merged {
        return Ok(unchanged(p));
    }
    let common = vec![in alloc; true; p.temps.len()]?;
    let pairs = pairs_of(alloc, p)?;
    let merged = Proc {
        temps: into_bump_slice(merging.temps),
        blocks: into_bump_slice(merging.blocks),
        ..*p
    };
    Ok(judged(alloc, p, merged, &common, &pairs)?)
}
