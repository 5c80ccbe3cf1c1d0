ghost use Rattle.std.specs.Bool.{OnTrue};
ghost use Rattle.std.specs.Prelude.{◌≡◌, ◌+◌, ◌≤◌, true, false, length, take};
ghost use Rattle.m3_heap.specs.Cells.{total_words};
ghost use Rattle.m3_heap.specs.Moves.{kept_starts};
ghost use Rattle.m3_heap.specs.Reach.{HasBadPointer};
ghost use Rattle.m3_heap.specs.CollectorScanning.{met, Grows};
ghost use Rattle.m3_heap.specs.CollectorTracing.{old_cells, moves};
ghost use Rattle.m3_heap.specs.CollectorHalves.{AreMoving};
ghost use Rattle.m3_generational.specs.Collecting.{left_of, kept_of, minor_left, IsKeeping};
ghost use Rattle.m3_generational.specs.Collecting.{AreTraced, tenured_pointers};
ghost use Rattle.m3_generational.specs.Remembering.{FitsIn, marked_count};

use crate::remembering::scan_remembered;
use crate::spaces::Spaces;
use m3_heap::{Maps, Marks, Steps, scan};
use std::sync::ledger::Ledger;

/// Copies all that the copies of a full collection lead to, and forwards their pointers. False
/// says that a reached cell has a pointer that can't be one.
pub fn trace_full<M: Maps, L: Ledger>(spaces: &mut Spaces, maps: &M, steps: &mut Steps<L>) -> bool
    requires moving { AreMoving (left_of spaces.old) (kept_of spaces.old) }
    requires keeping { IsKeeping spaces.old }
    requires full { spaces.old.is_minor ≡ false }
    ensures keeping { IsKeeping spaces.new }
    ensures grows { Grows (left_of spaces.old) (kept_of spaces.old) (left_of spaces.new)
        (kept_of spaces.new) }
    ensures bad { result ≡ false
        → HasBadPointer (M.shapes maps.now) (old_cells (left_of spaces.old) (kept_of spaces.old))
        (kept_starts (moves (left_of spaces.old) (kept_of spaces.old))) }
    ensures traced { OnTrue result (AreTraced (M.shapes maps.now) spaces.old spaces.new) }
    ensures cost { OnTrue result
        (steps.new + total_words (kept_of spaces.old).cells
        ≡ steps.old
        + met (M.shapes maps.now) (left_of spaces.new) (kept_of spaces.new)
        ((kept_of spaces.new).base + total_words (kept_of spaces.new).cells)
        + total_words (kept_of spaces.new).cells) }
{
    let base = spaces.there.base();
    scan(spaces, base, maps, steps)
}

/// Looks at the remembered words of the tenured cells, copies all that these and the copies of a
/// minor collection lead to, and forwards their pointers. False says that a reached cell has a
/// pointer that can't be one.
pub fn trace_minor<M: Maps, L: Ledger>(
    spaces: &mut Spaces,
    remembered: &Marks,
    maps: &M,
    steps: &mut Steps<L>,
) -> bool
    requires moving { AreMoving (left_of spaces.old) (kept_of spaces.old) }
    requires keeping { IsKeeping spaces.old }
    requires minor { spaces.old.is_minor ≡ true }
    requires marks { spaces.old.tenured ≤ length remembered.now }
    requires fits { FitsIn (M.shapes maps.now) (old_cells (minor_left spaces.old) spaces.old.here)
        remembered.now spaces.old.here.base }
    ensures keeping { IsKeeping spaces.new }
    ensures grows { Grows (left_of spaces.old) (kept_of spaces.old) (left_of spaces.new)
        (kept_of spaces.new) }
    ensures bad { result ≡ false
        → HasBadPointer (M.shapes maps.now) (old_cells (left_of spaces.old) (kept_of spaces.old))
        (kept_starts (moves (left_of spaces.old) (kept_of spaces.old))) }
    ensures traced { OnTrue result (AreTraced (M.shapes maps.now) spaces.old spaces.new) }
    ensures cost { OnTrue result
        (steps.new
        + tenured_pointers (M.shapes maps.now) (old_cells (minor_left spaces.old) spaces.old.here)
        spaces.old.found.value.cells + total_words spaces.old.here.cells
        ≡ steps.old + marked_count (take spaces.old.tenured remembered.now)
        + met (M.shapes maps.now) (left_of spaces.new) (kept_of spaces.new)
        ((kept_of spaces.new).base + total_words (kept_of spaces.new).cells)
        + total_words (kept_of spaces.new).cells) }
{
    if !scan_remembered(spaces, remembered, maps, steps) {
        return false;
    }
    let from = spaces.here.base() + spaces.tenured;
    scan(spaces, from, maps, steps)
}
