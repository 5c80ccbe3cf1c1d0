//! Words visited: each cell that one refers to is kept, and the word follows it.
ghost use Rattle.std.specs.Prelude.{◌≡◌, ◌++◌, ◌∷◌, [], true, List, length};
ghost use Rattle.m3_tables.specs.Views.{numbers_of};
ghost use Rattle.m3_heap.specs.Shapes.{Shape};
ghost use Rattle.m3_roots.specs.ThreadWords.{place_from, places_from};
ghost use Rattle.m3_roots.specs.Visiting.{VisitEnds, KeepsHeap};
ghost use Rattle.m3_roots.specs.Steps.{VisitCosts};

use crate::places::{set_word, word_at};
use m3_heap::{Steps, Store};
use m3_tables::Numbers;
use std::sync::ledger::Ledger;

/// Visits the word that a row's number stands for, and puts its new value in its place. False comes
/// exactly where it lies where heaps lie and is no cell's start.
fn visit_at<S: Store, L: Ledger>(
    first: usize,
    number: u32,
    r: &mut [u64; 16],
    stack: &mut [u64],
    store: &mut S,
    steps: &mut Steps<L>,
) -> bool
    requires open { (S.heap store.old).is_open ≡ true }
    ensures visited { VisitEnds result (S.heap store.old) (place_from first number ∷ [])
        (r.old ++ stack.old) (r.new ++ stack.new) (S.heap store.new) }
    ensures heap { KeepsHeap (S.heap store.old) (S.heap store.new) }
    ensures cost { VisitCosts (S.heap store.old) (S.heap store.new) steps.old steps.new 1 }
    ensures fitting { (shapes : List Shape) → S.fits store.old shapes → S.fits store.new shapes }
{
    let word = word_at(r, stack, first, number);
    match store.visit(word, steps) {
        Some(to) => {
            set_word(r, stack, first, number, to);
            true
        }
        None => false,
    }
}

/// Visits the words that some numbers of a row stand for.
pub fn visit_numbers<S: Store, L: Ledger>(
    numbers: Numbers<'_>,
    first: usize,
    r: &mut [u64; 16],
    stack: &mut [u64],
    store: &mut S,
    steps: &mut Steps<L>,
) -> bool
    requires open { (S.heap store.old).is_open ≡ true }
    ensures visited { VisitEnds result (S.heap store.old)
        (places_from first (numbers_of numbers.entry)) (r.old ++ stack.old) (r.new ++ stack.new)
        (S.heap store.new) }
    ensures heap { KeepsHeap (S.heap store.old) (S.heap store.new) }
    ensures cost { VisitCosts (S.heap store.old) (S.heap store.new) steps.old steps.new
        (length (numbers_of numbers.entry)) }
    ensures fitting { (shapes : List Shape) → S.fits store.old shapes → S.fits store.new shapes }
{
    for number in numbers {
        if !visit_at(first, number, r, stack, store, steps) {
            return false;
        }
    }
    true
}

/// Visits the words that the numbers of a list stand for.
pub fn visit_list<S: Store, L: Ledger>(
    numbers: &[u32],
    first: usize,
    r: &mut [u64; 16],
    stack: &mut [u64],
    store: &mut S,
    steps: &mut Steps<L>,
) -> bool
    requires open { (S.heap store.old).is_open ≡ true }
    ensures visited { VisitEnds result (S.heap store.old) (places_from first numbers.now)
        (r.old ++ stack.old) (r.new ++ stack.new) (S.heap store.new) }
    ensures heap { KeepsHeap (S.heap store.old) (S.heap store.new) }
    ensures cost { VisitCosts (S.heap store.old) (S.heap store.new) steps.old steps.new
        (length numbers.now) }
    ensures fitting { (shapes : List Shape) → S.fits store.old shapes → S.fits store.new shapes }
{
    for number in numbers {
        if !visit_at(first, *number, r, stack, store, steps) {
            return false;
        }
    }
    true
}
