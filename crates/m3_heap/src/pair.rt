ghost use Rattle.std.specs.Bool.{OnTrue};
ghost use Rattle.std.specs.Prelude.{◌≡◌, ◌+◌, ◌≤◌, false, IfSome};
ghost use Rattle.m3_heap.specs.Cells.{header, is_start, words_from, with_word, total_words};
ghost use Rattle.m3_heap.specs.Moves.{forwarded, kept_starts};
ghost use Rattle.m3_heap.specs.Reach.{HasBadPointer};
ghost use Rattle.m3_heap.specs.CollectorScanning.{Scans, Grows, met, ArePlain};
ghost use Rattle.m3_heap.specs.CollectorTracing.{IsTracing, old_cells, copies, moves, Keeps};

use crate::copying::{Copying, scan};
use crate::half::{HEAP_BASE, Half};
use crate::maps::Maps;
use crate::steps::Steps;
use std::sync::ledger::Ledger;

/// Two halves: the cells of one are copied to the other.
#[derive(Drop)]
pub struct Pair {
    /// The half that is left.
    pub here: Half,
    /// The half that is filled.
    pub there: Half,
}

impl Copying for Pair {
    ghost left = { λ p. p.here };

    ghost kept = { λ p. p.there };

    ghost keeps = { λ _. Unit {0} };

    fn forward<L: Ledger>(&mut self, word: u64, steps: &mut Steps<L>) -> Option<u64> {
        if word < HEAP_BASE {
            return Some(word);
        }
        self.here.move_cell(&mut self.there, word, steps)
    }

    fn word(&self, at: u64) -> Option<u64> {
        self.there.word(at)
    }

    fn put(&mut self, at: u64, word: u64) {
        self.there.put(at, word);
    }

    fn end(&self) -> u64 {
        self.there.base() + self.there.total()
    }
}

/// Copies all that the copies lead to, and forwards their pointers. False says that a reached cell
/// has a pointer that can't be one.
pub fn trace<M: Maps, L: Ledger>(pair: &mut Pair, maps: &M, steps: &mut Steps<L>) -> bool
    requires tracing { IsTracing pair.old.here pair.old.there }
    requires plain { ArePlain (old_cells pair.old.here pair.old.there)
        (copies pair.old.here pair.old.there) }
    ensures tracing { IsTracing pair.new.here pair.new.there }
    ensures grows { Grows pair.old.here pair.old.there pair.new.here pair.new.there }
    ensures bad { result ≡ false
        → HasBadPointer (M.shapes maps.now) (old_cells pair.old.here pair.old.there)
        (kept_starts (moves pair.old.here pair.old.there)) }
    ensures traced { OnTrue result
        (Scans (M.shapes maps.now) (kept_starts (moves pair.old.here pair.old.there)) pair.new.here
        pair.new.there (pair.new.there.base + total_words pair.new.there.cells)) }
    ensures cost { OnTrue result
        (steps.new + total_words pair.old.there.cells
        ≡ steps.old
        + met (M.shapes maps.now) pair.new.here pair.new.there
        (pair.new.there.base + total_words pair.new.there.cells)
        + total_words pair.new.there.cells) }
{
    let base = pair.there.base();
    scan(pair, base, maps, steps)
}
