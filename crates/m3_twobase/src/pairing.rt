ghost use Rattle.std.specs.Prelude.{◌≡◌, IfOk, true};
ghost use Rattle.m3_mid_meaning.specs.Runs.{FollowsRun};

use crate::partners::pair_loop;
use bumpalo::Bump;
use m3_base::NoMemory;
use m3_counting_loops::{Findings, loops_of, may_count};
use m3_mid::Proc;
use m3_same_run::{Verdict, judged, unchanged};
use std::alloc::Global;

/// Writes a procedure again, with a proof, and has it checked.
fn written<'a>(alloc: Global, arena: &'a Bump, p: &Proc<'a>) -> Result<Verdict<'a>, NoMemory>
    ensures follows { IfOk result (λ r. FollowsRun p.now r.proc) }
    ensures given_back { IfOk result (λ r. r.is_refused ≡ true → r.proc ≡ p.now) }
{
    let loops = loops_of(alloc, p)?;
    let mut findings = Findings::new(alloc, p)?;
    for counted in &loops {
        pair_loop(alloc, &mut findings, p, counted)?;
    }
    if findings.is_empty() {
        return Ok(unchanged(p));
    }
    let paired = findings.written(alloc, arena)?;
    Ok(judged(alloc, p, paired.proc, &paired.common, &paired.pairs)?)
}

/// The same procedure, in whose counting loops one pointer moves along the first of several arrays,
/// and elements of the others, if they are as wide, are at that pointer plus a difference. Each
/// defined run of the procedure is a run of the result. Where the check of that refuses what was
/// written, which is a gap of this pass and no fault of the program, the procedure is given back.
pub fn try_pair<'a>(alloc: Global, arena: &'a Bump, p: &Proc<'a>) -> Result<Verdict<'a>, NoMemory>
    ensures follows { IfOk result (λ r. FollowsRun p.now r.proc) }
    ensures given_back { IfOk result (λ r. r.is_refused ≡ true → r.proc ≡ p.now) }
{
    if may_count(p) {
        written(alloc, arena, p)
    } else {
        Ok(unchanged(p))
    }
}
