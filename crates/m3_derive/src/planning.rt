ghost use Rattle.std.specs.Prelude.{◌≡◌, IfOk};
ghost use Rattle.m3_mid_additions.specs.Additions.{IsWithAdded};
ghost use Rattle.m3_mid_additions.specs.Naming.{NamesOwnTemporaries};
ghost use Rattle.m3_mid_additions.specs.Laws.{FollowsWithFormals};

use crate::plans::Derived;
use crate::rows::plan_rows;
use bumpalo::Bump;
use m3_base::NoMemory;
use m3_flow::{block_order, live_with};
use m3_gen_bases::{Based, find_bases};
use m3_mid::Proc;
use std::alloc::Global;

/// The rows of a procedure whose derivations are known.
fn with_rows<'a>(alloc: Global, arena: &'a Bump, based: Based<'a>) -> Result<Derived<'a>, NoMemory>
    ensures { IfOk result (λ d. d.proc ≡ based.entry.proc) }
{
    let p = based.proc;
    let derivations = based.derivations;
    let order = block_order(alloc, &p)?;
    let live = live_with(alloc, &p, &order, &[])?;
    let (rows, uses) = plan_rows(alloc, arena, &p, &order, &live, derivations)?;
    if uses.is_empty() {
        return Ok(Derived {
            proc: p,
            rows,
            derivations,
            uses: &[],
        });
    }
    let live = live_with(alloc, &p, &order, &uses)?;
    let (rows, uses) = plan_rows(alloc, arena, &p, &order, &live, derivations)?;
    let uses = arena.try_alloc_slice_copy(&uses)?;
    Ok(Derived {
        proc: p,
        rows,
        derivations,
        uses,
    })
}

/// What a collector has to know of a procedure at each of its points: which temporaries hold
/// references, and from which ones each derived pointer comes, copies of which are kept where they
/// would be lost. Only what sets temporaries of its own is added to the procedure, so each run of
/// it is one of the result, where memory has the words of the formals.
pub fn derive<'a>(alloc: Global, arena: &'a Bump, p: &Proc<'a>) -> Result<Derived<'a>, NoMemory>
    ensures added { IfOk result (λ d. IsWithAdded p.now d.proc) }
    ensures follows { IfOk result (λ d. NamesOwnTemporaries p.now
        → FollowsWithFormals p.now d.proc) }
{
    let based = find_bases(alloc, arena, p)?;
    Ok(with_rows(alloc, arena, based)?)
}
