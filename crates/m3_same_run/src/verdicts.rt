ghost use Rattle.std.specs.Prelude.{◌≡◌, IfOk, true, false};
ghost use Rattle.m3_mid_meaning.specs.Runs.{FollowsRun};

use crate::check::have_same_run;
use m3_mid::Proc;
use m3_same_forms::Pair;
use std::alloc::{AllocError, Global};

/// What became of a procedure in a pass that writes it again with a proof.
#[derive(Clone, Copy)]
pub struct Verdict<'a> {
    pub proc: Proc<'a>,
    /// Whether the check refused what was written, and the procedure is as it was.
    pub is_refused: bool,
}

/// A procedure in which there was nothing to change.
pub fn unchanged<'a>(p: &Proc<'a>) -> Verdict<'a>
    ensures follows { FollowsRun p.now result.proc }
    ensures same { result.proc ≡ p.now }
    ensures accepted { result.is_refused ≡ false }
{
    Verdict {
        proc: *p,
        is_refused: false,
    }
}

/// What was written, where the proof shows that each defined run of the procedure is a run of it;
/// else the procedure stays as it is. `common` and the proof as `have_same_run` has them.
pub fn judged<'a>(
    alloc: Global,
    p: &Proc<'a>,
    written: Proc<'a>,
    common: &[bool],
    proof: &[Pair],
) -> Result<Verdict<'a>, AllocError>
    ensures follows { IfOk result (λ v. FollowsRun p.now v.proc) }
    ensures given_back { IfOk result (λ v. v.is_refused ≡ true → v.proc ≡ p.now) }
    ensures accepted { IfOk result (λ v. v.is_refused ≡ false → v.proc ≡ written.entry) }
{
    if have_same_run(alloc, p, &written, common, proof)? {
        Ok(Verdict {
            proc: written,
            is_refused: false,
        })
    } else {
        Ok(Verdict {
            proc: *p,
            is_refused: true,
        })
    }
}
