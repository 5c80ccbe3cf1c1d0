ghost use Rattle.std.specs.Prelude.{◌≡◌, IfOk, true};
ghost use Rattle.m3_mid_meaning.specs.Runs.{FollowsRun};

use crate::alive::Alive;
use crate::marks::loops_of;
use crate::pairs::Needed;
use crate::rewriting::{Draft, Rewriting};
use bumpalo::Bump;
use bumpalo::collections::into_bump_slice;
use m3_available::Flow;
use m3_base::{NoMemory, place_number};
use m3_flow::{block_order, live_with};
use m3_mid::{Block, Proc};
use m3_same_run::{Verdict, judged, unchanged};
use std::alloc::Global;

/// A block with more operations is left as it is, and its procedure with it.
const LONGEST: usize = 2000;

fn has_long_block(p: &Proc<'_>) -> bool {
    p.blocks.iter().any(|block| block.ops.len() > LONGEST)
}

/// The blocks that were written, in the arena.
fn blocks_of<'a>(
    alloc: Global,
    arena: &'a Bump,
    rewriting: &Rewriting<'a>,
    drafts: &[Draft<'a>],
    alive: &mut Alive,
) -> Result<&'a [Block<'a>], NoMemory> {
    let mut blocks = Vec::new(arena);
    for draft in drafts {
        let kept = alive.thin(alloc, rewriting, &draft.ops)?;
        let ops = Vec::from_slice(arena, &kept)?;
        blocks.push(Block {
            ops: into_bump_slice(ops),
            end: draft.end,
        })?;
    }
    Ok(into_bump_slice(blocks))
}

/// Whether an operation was left out or replaced.
fn is_changed(drafts: &[Draft<'_>], alive: &Alive) -> bool {
    drafts.iter().any(|draft| draft.is_changed) || alive.is_gone.contains(&true)
}

/// Which temporaries are set where they were.
fn common_of(
    alloc: Global,
    p: &Proc<'_>,
    rewriting: &Rewriting<'_>,
    alive: &Alive,
) -> Result<Vec<bool>, NoMemory> {
    let mut common = Vec::new(alloc);
    for number in 0..p.temps.len() {
        let temp = place_number(number)?;
        let is_gone = alive.is_gone.get(number).copied() == Some(true);
        common.push(!is_gone && !rewriting.names.is_renamed(temp))?;
    }
    Ok(common)
}

/// Writes a procedure again, with a proof, and has it checked.
fn written<'a>(alloc: Global, arena: &'a Bump, p: &Proc<'a>) -> Result<Verdict<'a>, NoMemory>
    ensures follows { IfOk result (λ s. FollowsRun p.now s.proc) }
    ensures given_back { IfOk result (λ s. s.is_refused ≡ true → s.proc ≡ p.now) }
{
    let order = block_order(alloc, p)?;
    let live = live_with(alloc, p, &order, &[])?;
    let mut flow = Flow::new(alloc, p)?;
    let mut rewriting = Rewriting::new(alloc, arena, p)?;
    let drafts = rewriting.write_all(p, &mut flow, &live, &order)?;
    let mut alive = Alive::of(alloc, p, &drafts)?;
    let blocks = blocks_of(alloc, arena, &rewriting, &drafts, &mut alive)?;
    if !is_changed(&drafts, &alive) {
        return Ok(unchanged(p));
    }
    let common = common_of(alloc, p, &rewriting, &alive)?;
    let needed = Needed::of(alloc, &drafts, &flow)?;
    let pairs = needed.pairs(alloc, p, &flow, &common)?;
    let loops = loops_of(alloc, arena, p, &rewriting, blocks)?;
    let shared = Proc {
        blocks,
        loops,
        ..*p
    };
    Ok(judged(alloc, p, shared, &common, &pairs)?)
}

/// The same procedure with computations and checks shared, which follows it: each defined run of
/// the procedure is a run of the result. Where the check of that refuses what was written, which is
/// a gap of this pass and no fault of the program, the procedure is given back.
pub fn try_share<'a>(alloc: Global, arena: &'a Bump, p: &Proc<'a>) -> Result<Verdict<'a>, NoMemory>
    ensures follows { IfOk result (λ s. FollowsRun p.now s.proc) }
    ensures given_back { IfOk result (λ s. s.is_refused ≡ true → s.proc ≡ p.now) }
{
    if has_long_block(p) {
        Ok(unchanged(p))
    } else {
        written(alloc, arena, p)
    }
}

/// The same procedure with computations and checks shared: what was computed or tested before on
/// every way isn't again. Each defined run of the procedure is a run of the result.
pub fn share<'a>(alloc: Global, arena: &'a Bump, p: &Proc<'a>) -> Result<Proc<'a>, NoMemory>
    ensures { IfOk result (λ q. FollowsRun p.now q) }
{
    let shared = try_share(alloc, arena, p)?;
    Ok(shared.proc)
}
