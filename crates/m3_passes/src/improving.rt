ghost use Rattle.std.specs.Prelude.{◌≡◌, ◌≤◌, IfOk};
ghost use Rattle.m3_mid_meaning.specs.Runs.{FollowsRun};

use bumpalo::Bump;
use m3_base::NoMemory;
use m3_cse::try_share;
use m3_merge::try_merge;
use m3_mid::Proc;
use m3_strength::try_reduce;
use m3_twobase::try_pair;
use std::alloc::Global;

/// How many passes there are.
pub const PASSES: u32 = 4;

/// A procedure behind all passes.
#[derive(Clone, Copy)]
pub struct Improved<'a> {
    pub proc: Proc<'a>,
    /// How many passes gave their argument back, because the check refused what they wrote.
    pub given_back: u32,
}

/// Carries out the passes in their order. Each defined run of the procedure is a run of what comes
/// out. Where the check refuses what a pass wrote, which is a gap of that pass and no fault of the
/// program, the next one goes on with what the pass was given.
pub fn improve<'a>(alloc: Global, arena: &'a Bump, p: &Proc<'a>) -> Result<Improved<'a>, NoMemory>
    ensures follows { IfOk result (λ q. FollowsRun p.now q.proc) }
    ensures counted { IfOk result (λ q. q.given_back ≤ PASSES) }
    ensures unchanged { IfOk result (λ q. q.given_back ≡ PASSES → q.proc ≡ p.now) }
{
    let shared = try_share(alloc, arena, p)?;
    let paired = try_pair(alloc, arena, &shared.proc)?;
    let reduced = try_reduce(alloc, arena, &paired.proc)?;
    let merged = try_merge(alloc, arena, &reduced.proc)?;
    let given_back = u32::from(shared.is_refused)
        + u32::from(paired.is_refused)
        + u32::from(reduced.is_refused)
        + u32::from(merged.is_refused);
    Ok(Improved {
        proc: merged.proc,
        given_back,
    })
}
