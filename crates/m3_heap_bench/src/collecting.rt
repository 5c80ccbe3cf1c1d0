ghost use Rattle.std.specs.Bool.{OnTrue};
ghost use Rattle.std.specs.Prelude.{◌≡◌, true, false};
ghost use Rattle.m3_heap_bench.specs.Layouts.{layouts};

use crate::builders::list;
use crate::layouts::Layouts;
use m3_heap::{Steps, Store};
use std::sync::ledger::Ledger;

/// A whole collection, the roots updated. False says that a root or a pointer of a reached cell
/// lies where heaps lie and is no cell's start.
pub fn collect<S: Store, L: Ledger>(heap: &mut S, roots: &mut [u64], steps: &mut Steps<L>) -> bool
    requires closed { (S.heap heap.old).is_open ≡ false }
    requires fitting { S.fits heap.old layouts }
    ensures closed { (S.heap heap.new).is_open ≡ false }
    ensures fitting { OnTrue result (S.fits heap.new layouts) }
{
    heap.begin();
    let mut are_cells = true;
    for root in roots.iter_mut() {
        match heap.visit(*root, steps) {
            Some(new) => *root = new,
            None => are_cells = false,
        }
    }
    let is_traced = heap.finish(&Layouts, steps);
    is_traced && are_cells
}

/// How many words so many collections move in a heap of so many words.
pub fn words_moved<S: Store, L: Ledger>(
    heap: &mut S,
    words: u64,
    roots: &mut [u64],
    rounds: u64,
    steps: &mut Steps<L>,
) -> u64
    requires closed { (S.heap heap.old).is_open ≡ false }
    requires fitting { S.fits heap.old layouts }
{
    let mut moved: u64 = 0;
    for _round in 0..rounds {
        if !collect(heap, roots, steps) {
            return moved;
        }
        moved = moved.saturating_add(words.saturating_sub(heap.free_words()));
    }
    moved
}

/// Makes so many lists of garbage with seven links to each that is kept, and collects behind each of
/// them. Tells how many links were kept.
pub fn links_kept<S: Store, L: Ledger>(
    heap: &mut S,
    links: u64,
    rounds: u64,
    steps: &mut Steps<L>,
) -> u64
    requires closed { (S.heap heap.old).is_open ≡ false }
    requires fitting { S.fits heap.old layouts }
{
    let mut kept: u64 = 0;
    for _round in 0..rounds {
        let (_garbage, _made) = list(heap, links.saturating_mul(7));
        let (first, made) = list(heap, links);
        if !collect(heap, &mut [first], steps) {
            return kept;
        }
        kept = kept.saturating_add(made);
    }
    kept
}
