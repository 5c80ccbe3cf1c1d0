//! The tidy words, visited.
ghost use Rattle.std.specs.Prelude.{◌≡◌, ◌<◌, ◌++◌, ◌∷◌, [], true, List, length, slice_set};
ghost use Rattle.m3_roots.specs.ThreadWords.{word_at_place};
ghost use Rattle.m3_tables.specs.Numbers.{word_in};
ghost use Rattle.m3_heap.specs.Shapes.{Shape};
ghost use Rattle.m3_image_decoded.specs.Ready.{image_of};
ghost use Rattle.m3_roots.specs.RowMeaning.{HaveRows, tidy_of_frame, tidy_below, newest_arguments};
ghost use Rattle.m3_roots.specs.RowMeaning.{tidy_places};
ghost use Rattle.m3_roots.specs.Visiting.{VisitEnds, KeepsHeap};
ghost use Rattle.m3_roots.specs.Steps.{VisitCosts};

use crate::visits::{visit_list, visit_numbers};
use crate::walk::row_of;
use m3_heap::{Steps, Store};
use m3_image_decoded::Decoded;
use m3_run_frames::Frame;
use std::sync::ledger::Ledger;

/// Visits the tidy words of a frame.
fn visit_frame<S: Store, L: Ledger>(
    image: &Decoded<'_>,
    frame: &Frame,
    r: &mut [u64; 16],
    stack: &mut [u64],
    store: &mut S,
    steps: &mut Steps<L>,
) -> bool
    requires open { (S.heap store.old).is_open ≡ true }
    ensures visited { frame.now.row < word_in (image_of image.now).program.tables
        → VisitEnds result (S.heap store.old) (tidy_of_frame (image_of image.now).program frame.now)
        (r.old ++ stack.old) (r.new ++ stack.new) (S.heap store.new) }
    ensures heap { KeepsHeap (S.heap store.old) (S.heap store.new) }
    ensures cost { frame.now.row < word_in (image_of image.now).program.tables
        → VisitCosts (S.heap store.old) (S.heap store.new) steps.old steps.new
        (length (tidy_of_frame (image_of image.now).program frame.now)) }
    ensures fitting { (shapes : List Shape) → S.fits store.old shapes → S.fits store.new shapes }
{
    let Some(tidy) = image.tidy_places(frame.row) else {
        return false;
    };
    visit_list(tidy, frame.first, r, stack, store, steps)
}

/// Visits the arguments of the newest frame.
fn visit_arguments<S: Store, L: Ledger>(
    image: &Decoded<'_>,
    frames: &[Frame],
    r: &mut [u64; 16],
    stack: &mut [u64],
    store: &mut S,
    steps: &mut Steps<L>,
) -> bool
    requires open { (S.heap store.old).is_open ≡ true }
    ensures visited { HaveRows (image_of image.now).program frames.now
        → VisitEnds result (S.heap store.old)
        (newest_arguments (image_of image.now).program frames.now) (r.old ++ stack.old)
        (r.new ++ stack.new) (S.heap store.new) }
    ensures heap { KeepsHeap (S.heap store.old) (S.heap store.new) }
    ensures cost { HaveRows (image_of image.now).program frames.now
        → VisitCosts (S.heap store.old) (S.heap store.new) steps.old steps.new
        (length (newest_arguments (image_of image.now).program frames.now)) }
    ensures fitting { (shapes : List Shape) → S.fits store.old shapes → S.fits store.new shapes }
{
    let [newest, ..] = frames else {
        return true;
    };
    let Some(row) = row_of(image, newest) else {
        return false;
    };
    visit_numbers(row.argument_places(), newest.first, r, stack, store, steps)
}

/// Visits the tidy words of each frame.
fn visit_each<S: Store, L: Ledger>(
    image: &Decoded<'_>,
    frames: &[Frame],
    r: &mut [u64; 16],
    stack: &mut [u64],
    store: &mut S,
    steps: &mut Steps<L>,
) -> bool
    requires open { (S.heap store.old).is_open ≡ true }
    ensures visited { HaveRows (image_of image.now).program frames.now
        → VisitEnds result (S.heap store.old) (tidy_below (image_of image.now).program frames.now)
        (r.old ++ stack.old) (r.new ++ stack.new) (S.heap store.new) }
    ensures heap { KeepsHeap (S.heap store.old) (S.heap store.new) }
    ensures cost { HaveRows (image_of image.now).program frames.now
        → VisitCosts (S.heap store.old) (S.heap store.new) steps.old steps.new
        (length (tidy_below (image_of image.now).program frames.now)) }
    ensures fitting { (shapes : List Shape) → S.fits store.old shapes → S.fits store.new shapes }
{
    for frame in frames {
        if !visit_frame(image, frame, r, stack, store, steps) {
            return false;
        }
    }
    true
}

/// Visits the tidy words of all frames, and puts the new words in their places. False comes exactly
/// where one of them lies where heaps lie and is no cell's start.
pub fn visit_frames<S: Store, L: Ledger>(
    image: &Decoded<'_>,
    frames: &[Frame],
    r: &mut [u64; 16],
    stack: &mut [u64],
    store: &mut S,
    steps: &mut Steps<L>,
) -> bool
    requires open { (S.heap store.old).is_open ≡ true }
    ensures visited { HaveRows (image_of image.now).program frames.now
        → VisitEnds result (S.heap store.old) (tidy_places (image_of image.now).program frames.now)
        (r.old ++ stack.old) (r.new ++ stack.new) (S.heap store.new) }
    ensures heap { KeepsHeap (S.heap store.old) (S.heap store.new) }
    ensures cost { HaveRows (image_of image.now).program frames.now
        → VisitCosts (S.heap store.old) (S.heap store.new) steps.old steps.new
        (length (tidy_places (image_of image.now).program frames.now)) }
    ensures fitting { (shapes : List Shape) → S.fits store.old shapes → S.fits store.new shapes }
{
    visit_arguments(image, frames, r, stack, store, steps)
        && visit_each(image, frames, r, stack, store, steps)
}

/// The word of a number among the globals, and 0 past the last.
fn global_at(globals: &[u64], n: usize) -> u64
    ensures { result ≡ word_at_place globals.now n }
{
    if n < globals.len() { globals[n] } else { 0 }
}

/// Sets the word of a number among the globals, if one is there.
fn set_global(globals: &mut [u64], n: usize, word: u64)
    ensures { globals.new ≡ slice_set globals.old n word }
{
    if n < globals.len() {
        globals[n] = word;
    }
}

/// Visits the word of a number among the globals, and puts its new value in its place.
fn visit_global<S: Store, L: Ledger>(
    n: usize,
    globals: &mut [u64],
    store: &mut S,
    steps: &mut Steps<L>,
) -> bool
    requires open { (S.heap store.old).is_open ≡ true }
    ensures visited { VisitEnds result (S.heap store.old) (n ∷ []) globals.old globals.new
        (S.heap store.new) }
    ensures heap { KeepsHeap (S.heap store.old) (S.heap store.new) }
    ensures cost { VisitCosts (S.heap store.old) (S.heap store.new) steps.old steps.new 1 }
    ensures fitting { (shapes : List Shape) → S.fits store.old shapes → S.fits store.new shapes }
{
    let word = global_at(globals, n);
    match store.visit(word, steps) {
        Some(to) => {
            set_global(globals, n, to);
            true
        }
        None => false,
    }
}

/// Visits the tidy words among the globals.
pub fn visit_globals<S: Store, L: Ledger>(
    image: &Decoded<'_>,
    globals: &mut [u64],
    store: &mut S,
    steps: &mut Steps<L>,
) -> bool
    requires open { (S.heap store.old).is_open ≡ true }
    ensures visited { VisitEnds result (S.heap store.old)
        (image_of image.now).program.globals.pointers globals.old globals.new (S.heap store.new) }
    ensures heap { KeepsHeap (S.heap store.old) (S.heap store.new) }
    ensures cost { VisitCosts (S.heap store.old) (S.heap store.new) steps.old steps.new
        (length (image_of image.now).program.globals.pointers) }
    ensures fitting { (shapes : List Shape) → S.fits store.old shapes → S.fits store.new shapes }
    ensures count { length globals.new ≡ length globals.old }
{
    for number in image.image().global_pointers() {
        if !visit_global(number as usize, globals, store, steps) {
            return false;
        }
    }
    true
}
