ghost use Rattle.std.specs.Bool.{OnTrue, MatchBool};
ghost use Rattle.std.specs.Prelude.{◌≡◌, ℕ, ◌+◌, ◌<◌, ◌≤◌, true, List, length, take};
ghost use Rattle.m3_heap.specs.Cells.{total_words};
ghost use Rattle.m3_heap.specs.Reach.{HasBadPointer};
ghost use Rattle.m3_heap.specs.CollectorScanning.{Scans, Grows};
ghost use Rattle.m3_heap.specs.CollectorTracing.{IsTracing, old_cells};
ghost use Rattle.m3_generational.specs.Remembering.{FitsIn, marked_count};
ghost use Rattle.m3_generational.specs.Collecting.{minor_left, IsKeeping};

use crate::forwarding::forward_word;
use crate::spaces::Spaces;
use m3_heap::{Maps, Marks, Steps};
use std::sync::ledger::Ledger;

// Looks at one word of a tenured cell, and forwards it, if it is a pointer. False says that it is
// one that can't be.
fn scan_tenured<M: Maps, L: Ledger>(
    spaces: &mut Spaces,
    at: u64,
    maps: &M,
    steps: &mut Steps<L>,
) -> bool
    requires tracing { IsTracing (minor_left spaces.old) spaces.old.here }
    requires keeping { IsKeeping spaces.old }
    requires minor { spaces.old.is_minor ≡ true }
    requires low { spaces.old.here.base ≤ at }
    requires high { at < spaces.old.here.base + spaces.old.tenured }
    ensures tracing { IsTracing (minor_left spaces.new) spaces.new.here }
    ensures keeping { IsKeeping spaces.new }
    ensures minor { spaces.new.is_minor ≡ true }
    ensures tenured { spaces.new.tenured ≡ spaces.old.tenured }
    ensures found { spaces.new.found.value ≡ spaces.old.found.value }
    ensures grows { Grows (minor_left spaces.old) spaces.old.here (minor_left spaces.new)
        spaces.new.here }
    ensures scanned { (roots : List ℕ)
        → Scans (M.shapes maps.now) roots (minor_left spaces.old) spaces.old.here at
        → MatchBool result
        (Scans (M.shapes maps.now) roots (minor_left spaces.new) spaces.new.here (at + 1))
        (HasBadPointer (M.shapes maps.now) (old_cells (minor_left spaces.old) spaces.old.here)
        roots) }
    ensures cost { OnTrue result
        (steps.new + total_words spaces.old.here.cells
        ≡ steps.old + 1 + total_words spaces.new.here.cells) }
{
    steps.tick();
    let start = spaces.here.start_of(at);
    let place = at - start;
    if place == 0 {
        return true;
    }
    let header = spaces.here.word(start).unwrap();
    if !maps.is_pointer((header % (1 << 32)) as u32, place) {
        return true;
    }
    let word = spaces.here.word(at).unwrap();
    match forward_word(spaces, word, steps) {
        None => false,
        Some(to) => {
            spaces.here.put(at, to);
            true
        }
    }
}

/// Looks at each remembered word of a tenured cell, and forwards it, if it is a pointer. False
/// says that one of them is one that can't be.
pub fn scan_remembered<M: Maps, L: Ledger>(
    spaces: &mut Spaces,
    remembered: &Marks,
    maps: &M,
    steps: &mut Steps<L>,
) -> bool
    requires tracing { IsTracing (minor_left spaces.old) spaces.old.here }
    requires keeping { IsKeeping spaces.old }
    requires minor { spaces.old.is_minor ≡ true }
    requires marks { spaces.old.tenured ≤ length remembered.now }
    requires fits { FitsIn (M.shapes maps.now) (old_cells (minor_left spaces.old) spaces.old.here)
        remembered.now spaces.old.here.base }
    ensures tracing { IsTracing (minor_left spaces.new) spaces.new.here }
    ensures keeping { IsKeeping spaces.new }
    ensures minor { spaces.new.is_minor ≡ true }
    ensures tenured { spaces.new.tenured ≡ spaces.old.tenured }
    ensures found { spaces.new.found.value ≡ spaces.old.found.value }
    ensures grows { Grows (minor_left spaces.old) spaces.old.here (minor_left spaces.new)
        spaces.new.here }
    ensures scanned { (roots : List ℕ)
        → Scans (M.shapes maps.now) roots (minor_left spaces.old) spaces.old.here
        spaces.old.here.base
        → MatchBool result
        (Scans (M.shapes maps.now) roots (minor_left spaces.new) spaces.new.here
        (spaces.new.here.base + spaces.new.tenured))
        (HasBadPointer (M.shapes maps.now) (old_cells (minor_left spaces.old) spaces.old.here)
        roots) }
    ensures cost { OnTrue result
        (steps.new + total_words spaces.old.here.cells
        ≡ steps.old + marked_count (take spaces.old.tenured remembered.now)
        + total_words spaces.new.here.cells) }
{
    let base = spaces.here.base();
    let tenured = spaces.tenured as usize;
    let mut place = remembered.next(0);
    while place < tenured {
        if !scan_tenured(spaces, base + place as u64, maps, steps) {
            return false;
        }
        place = remembered.next(place + 1);
    }
    true
}
