//! The words of one thread, from before a collection to after it.
ghost use Rattle.std.specs.Prelude.{◌≡◌, ◌≤◌, ◌+◌, ◌++◌, ℕ, List, length, true};
ghost use Rattle.std.specs.Bool.{OnTrue, OnFalse};
ghost use Rattle.m3_heap.specs.Cells.{Cell};
ghost use Rattle.m3_heap.specs.Moves.{Move};
ghost use Rattle.m3_heap.specs.Shapes.{Shape};
ghost use Rattle.m3_image_decoded.specs.Ready.{image_of};
ghost use Rattle.m3_roots.specs.RoomSizes.{IsRoomFor};
ghost use Rattle.m3_roots.specs.RowMeaning.{AreFramesAt, derived_words};
ghost use Rattle.m3_roots.specs.Visiting.{KeepsHeap};
ghost use Rattle.m3_roots.specs.Moving.{MovesWords};
ghost use Rattle.m3_roots.specs.Steps.{VisitCosts, derived_listed, rows_list};
ghost use Rattle.m3_roots.specs.Gathering.{Gathers, StopsGathering, GoesOn};

use crate::apart::{put_together, take_apart};
use crate::lists::lists_fit;
use crate::room::Room;
use crate::tidy::visit_frames;
use m3_heap::{Steps, Store};
use m3_image_decoded::Decoded;
use m3_run_frames::Frame;
use std::sync::ledger::Ledger;

/// Takes the derived words of a thread apart and visits its tidy words; the room has its frames.
/// False comes exactly where what the rows list together isn't as it may be, a path is past its
/// ways, or a tidy word lies where heaps lie and is no cell's start.
pub(crate) fn gather<S: Store, L: Ledger>(
    image: &Decoded<'_>,
    room: &mut Room,
    r: &mut [u64; 16],
    stack: &mut [u64],
    store: &mut S,
    steps: &mut Steps<L>,
) -> bool
    requires open { (S.heap store.old).is_open ≡ true }
    ensures gathered { (base fp pc : ℕ) → AreFramesAt (image_of image.now).program base stack.old fp
        pc room.old.frames.items → length stack.old + 16 ≤ length room.old.marks.items
        → OnTrue result (Gathers (image_of image.now).program (S.heap store.old).cells
        room.old.frames.items (r.old ++ stack.old) (S.heap store.old).moves (r.new ++ stack.new)
        (S.heap store.new).moves) }
    ensures stopped { (base fp pc : ℕ) → AreFramesAt (image_of image.now).program base stack.old fp
        pc room.old.frames.items → length stack.old + 16 ≤ length room.old.marks.items
        → OnFalse result (StopsGathering (image_of image.now).program (S.heap store.old).cells
        room.old.frames.items (r.old ++ stack.old) (S.heap store.old).moves) }
    ensures cost { (base fp pc : ℕ) → AreFramesAt (image_of image.now).program base stack.old fp pc
        room.old.frames.items → VisitCosts (S.heap store.old) (S.heap store.new) steps.old steps.new
        (rows_list (image_of image.now).program room.old.frames.items) }
    ensures long { (length r.old ≡ 16) × (length r.new ≡ 16) }
    ensures heap { KeepsHeap (S.heap store.old) (S.heap store.new) }
    ensures fitting { (shapes : List Shape) → S.fits store.old shapes → S.fits store.new shapes }
    ensures room { (stack : ℕ) → IsRoomFor stack room.old → IsRoomFor stack room.new }
{
    image.image().keeps_its_form();
    image.image().keeps_together();
    let frames: &[Frame] = &room.frames;
    if !lists_fit(image, frames, &mut room.marks) {
        return false;
    }
    if !take_apart(image, frames, r, stack, steps) {
        return false;
    }
    visit_frames(image, frames, r, stack, store, steps)
}

/// Puts the derived words of a thread with these frames together again. Where its words were
/// gathered, it answers true, and the words are moved.
pub(crate) fn mend<L: Ledger>(
    image: &Decoded<'_>,
    frames: &[Frame],
    r: &mut [u64; 16],
    stack: &mut [u64],
    steps: &mut Steps<L>,
) -> bool
    ensures cost { (base fp pc : ℕ) → AreFramesAt (image_of image.now).program base stack.old fp pc
        frames.now → steps.new ≤ steps.old
        + derived_listed (derived_words (image_of image.now).program frames.now) }
    ensures mended { (base fp pc : ℕ) (cells : List Cell) (old : List ℕ)
        (before after last : List Move) → AreFramesAt (image_of image.now).program base stack.old fp
        pc frames.now
        → Gathers (image_of image.now).program cells frames.now old before (r.old ++ stack.old)
        after → length old ≡ length stack.old + 16 → GoesOn after last
        → (result ≡ true) × MovesWords (image_of image.now).program last frames.now old
        (r.new ++ stack.new) }
    ensures long { length r.old ≡ 16 }
{
    image.image().keeps_its_form();
    image.image().keeps_together();
    put_together(image, frames, r, stack, steps)
}
