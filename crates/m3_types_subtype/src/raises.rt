ghost use Rattle.std.specs.Prelude.{◌↔◌, ℕ, All, Contains, IsTrue, IfOk};
ghost use Rattle.std.specs.Ordering.{nat_cmp};
ghost use Rattle.std.specs.BTreeSet.{contains};
ghost use Rattle.m3_types.specs.Definitions.{head_of_raises};
ghost use Rattle.m3_types_subtype.specs.Subtypes.{RaisesWithin};

use m3_base::NoMemory;
use m3_types::Raises;
use std::alloc::Global;
use std::collections::BTreeSet;

/// The exceptions of a row, as a set.
fn set_of(alloc: Global, row: &[u32]) -> Result<BTreeSet<u32>, NoMemory>
    ensures { IfOk result (λ set. (e : ℕ) → IsTrue (contains nat_cmp set e) ↔ Contains row.now e) }
{
    let mut set = BTreeSet::new(alloc);
    for e in row {
        set.insert(*e)?;
    }
    Ok(set)
}

/// Whether each exception of a row is in a set.
fn all_in(set: &BTreeSet<u32>, row: &[u32]) -> bool
    ensures { IsTrue result ↔ All (λ e. IsTrue (contains nat_cmp set.now e)) row.now }
{
    for e in row {
        if !set.contains(e) {
            return false;
        }
    }
    true
}

/// Whether each exception of the first is one of the second.
pub(crate) fn raises_within(alloc: Global, x: Raises, y: Raises) -> Result<bool, NoMemory>
    ensures { IfOk result (λ yes. IsTrue yes ↔ RaisesWithin (head_of_raises x.entry) (head_of_raises y.entry)) }
{
    match (x, y) {
        (_, Raises::Any) => Ok(true),
        (Raises::Any, Raises::Only(_)) => Ok(false),
        (Raises::Only(a), Raises::Only(b)) => {
            let set = set_of(alloc, b)?;
            Ok(all_in(&set, a))
        }
    }
}
