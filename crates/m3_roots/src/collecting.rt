//! All threads and the globals, one after the other, before and after the cells are moved.
ghost use Rattle.std.specs.Prelude.{◌≡◌, ◌≤◌, ◌+◌, ℕ, true, false, List, map, length, IfSome};
ghost use Rattle.std.specs.Prelude.{IfNone, IsSome, Some};
ghost use Rattle.std.specs.Bool.{OnTrue, OnFalse};
ghost use Rattle.m3_heap.specs.Cells.{Cell};
ghost use Rattle.m3_heap.specs.Moves.{Move, staying};
ghost use Rattle.m3_heap.specs.Heap.{SameSizes};
ghost use Rattle.m3_heap.specs.Shapes.{Shape};
ghost use Rattle.m3_threads.specs.declared.status.Thread.{Thread};
ghost use Rattle.m3_threads.specs.All.{Everyone, thread_named, words_of};
ghost use Rattle.m3_threads.specs.Lending.{with_regs};
ghost use Rattle.m3_image_sections.specs.Shapes.{shape_of};
ghost use Rattle.m3_image_decoded.specs.Ready.{image_of};
ghost use Rattle.m3_run_frames.specs.declared.frame.Frame.{Frame as AFrame};
ghost use Rattle.m3_roots.specs.RoomSizes.{IsRoomFor};
ghost use Rattle.m3_roots.specs.Visiting.{KeepsHeap};
ghost use Rattle.m3_roots.specs.Gathering.{Gathers, GoesOn};
ghost use Rattle.m3_roots.specs.Collected.{Parts, words_at, AreFrames, AllFramed, MovesThreads};
ghost use Rattle.m3_roots.specs.Collected.{Collected};
ghost use Rattle.m3_roots.specs.Collected.{StopsCollection};
ghost use Rattle.m3_roots.specs.Offsets.{AllKeepOffsets};
ghost use Rattle.m3_roots.specs.ThreadsGathered.{GathersThread, StopsThreadHere, MendsThread};
ghost use Rattle.m3_roots.specs.ThreadsGathered.{AllGathered, Visited, Opens, opened};
ghost use Rattle.m3_roots.specs.RowMeaning.{derived_words};
ghost use Rattle.m3_roots.specs.Steps.{VisitCosts, derived_listed, rows_list, all_list};
ghost use Rattle.m3_roots.specs.Steps.{StepsAtMost};

use crate::gathering::{gather, mend};
use crate::room::Room;
use crate::tidy::visit_globals;
use crate::walk::list_frames;
use m3_heap::{Steps, Store};
use m3_image_decoded::Decoded;
use m3_isa::Regs;
use m3_threads::Threads;
use std::sync::ledger::Ledger;

/// Lists the frames of a thread, and gives its registers. None comes exactly where one of the
/// frames isn't as frames are, if there is room for as many as its stack has words.
#[tactic(auto, using(crate::proofs::Named::is_named))]
fn frames_of(image: &Decoded<'_>, threads: &Threads, thread: u64, room: &mut Room) -> Option<Regs>
    ensures there { IfSome result (λ _. IsSome (thread_named threads.now thread)) }
    ensures framed { (t : Thread) → thread_named threads.now thread ≡ Some t
        → IfSome result (λ regs. (regs ≡ t.regs)
        × AreFrames (image_of image.now).program threads.now t room.new.frames.items) }
    ensures none { (t : Thread) → thread_named threads.now thread ≡ Some t
        → IsRoomFor (length (words_of threads.now t)) room.old
        → IfNone result ((frames : List AFrame)
        → AreFrames (image_of image.now).program threads.now t frames → ⊥) }
    ensures room { (stack : ℕ) → IsRoomFor stack room.old → IsRoomFor stack room.new }
{
    let base = threads.stack_at(thread)?;
    let regs = *threads.regs(thread)?;
    let stack = threads.words(thread)?;
    if list_frames(image, base, &regs, stack, &mut room.frames) {
        Some(regs)
    } else {
        None
    }
}

fn set_regs(threads: &mut Threads, thread: u64, regs: Regs)
    ensures set { (t : Thread) → thread_named threads.old thread ≡ Some t
        → threads.new ≡ with_regs threads.old thread regs }
    ensures forks { threads.new.forks ≡ threads.old.forks }
    ensures waits { threads.new.waits ≡ threads.old.waits }
{
    if let Some(place) = threads.regs_mut(thread) {
        *place = regs;
    }
}

/// Takes the derived words of a thread apart and visits its tidy words.
fn visit_thread<S: Store, L: Ledger>(
    image: &Decoded<'_>,
    threads: &mut Threads,
    thread: u64,
    store: &mut S,
    room: &mut Room,
    steps: &mut Steps<L>,
) -> bool
    requires open { (S.heap store.old).is_open ≡ true }
    ensures gathered { (t : Thread) → thread_named threads.old thread ≡ Some t
        → IsRoomFor (length (words_of threads.old t)) room.old
        → OnTrue result (GathersThread (image_of image.now).program (S.heap store.old).cells t
        threads.old (S.heap store.old).moves threads.new (S.heap store.new).moves) }
    ensures stopped { (t : Thread) → thread_named threads.old thread ≡ Some t
        → IsRoomFor (length (words_of threads.old t)) room.old
        → OnFalse result (StopsThreadHere (image_of image.now).program (S.heap store.old).cells t
        threads.old (S.heap store.old).moves) }
    ensures cost { (t : Thread) (frames : List AFrame) → thread_named threads.old thread ≡ Some t
        → AreFrames (image_of image.now).program threads.old t frames
        → VisitCosts (S.heap store.old) (S.heap store.new) steps.old steps.new
        (rows_list (image_of image.now).program frames) }
    ensures heap { KeepsHeap (S.heap store.old) (S.heap store.new) }
    ensures fitting { (shapes : List Shape) → S.fits store.old shapes → S.fits store.new shapes }
    ensures room { (stack : ℕ) → IsRoomFor stack room.old → IsRoomFor stack room.new }
    ensures forks { threads.new.forks ≡ threads.old.forks }
    ensures waits { threads.new.waits ≡ threads.old.waits }
{
    image.image().keeps_its_form();
    let Some(mut regs) = frames_of(image, threads, thread, room) else {
        return false;
    };
    let stack = threads.stack_mut(thread);
    let fits = gather(image, room, &mut regs.r, stack, store, steps);
    set_regs(threads, thread, regs);
    fits
}

/// Takes the derived words of all threads apart and visits their tidy words.
fn visit_threads<S: Store, L: Ledger>(
    image: &Decoded<'_>,
    threads: &mut Threads,
    store: &mut S,
    room: &mut Room,
    steps: &mut Steps<L>,
) -> bool
    requires open { (S.heap store.old).is_open ≡ true }
    ensures gathered { IsRoomFor threads.old.stack room.old
        → OnTrue result (AllGathered (image_of image.now).program (S.heap store.old).cells
        threads.old threads.new (S.heap store.old).moves (S.heap store.new).moves) }
    ensures stopped { (s : Parts) → s.all ≡ threads.old → s.heap.cells ≡ (S.heap store.old).cells
        → IsRoomFor threads.old.stack room.old
        → OnFalse result (StopsCollection (image_of image.now).program s) }
    ensures cost { IsRoomFor threads.old.stack room.old → (walks : List (List AFrame))
        → AllFramed (image_of image.now).program threads.old walks
        → VisitCosts (S.heap store.old) (S.heap store.new) steps.old steps.new
        (all_list (image_of image.now).program walks) }
    ensures heap { KeepsHeap (S.heap store.old) (S.heap store.new) }
    ensures fitting { (shapes : List Shape) → S.fits store.old shapes → S.fits store.new shapes }
    ensures room { (stack : ℕ) → IsRoomFor stack room.old → IsRoomFor stack room.new }
    ensures forks { threads.new.forks ≡ threads.old.forks }
    ensures waits { threads.new.waits ≡ threads.old.waits }
{
    image.image().keeps_its_form();
    image.image().keeps_together();
    for place in 0..64 {
        let Some(thread) = threads.number(place) else {
            return true;
        };
        if !visit_thread(image, threads, thread, store, room, steps) {
            return false;
        }
    }
    true
}

/// Opens a collection, takes the derived words of all threads apart, and visits the tidy words of
/// the threads and of the globals.
fn visit_roots<S: Store, L: Ledger>(
    image: &Decoded<'_>,
    threads: &mut Threads,
    globals: &mut [u64],
    store: &mut S,
    room: &mut Room,
    steps: &mut Steps<L>,
) -> bool
    requires closed { (S.heap store.old).is_open ≡ false }
    ensures visited { IsRoomFor threads.old.stack room.old
        → OnTrue result (Visited (image_of image.now).program
        (record { all = threads.old; globals = globals.old; heap = S.heap store.old })
        threads.new globals.new (S.heap store.new).moves) }
    ensures stopped { IsRoomFor threads.old.stack room.old
        → OnFalse result (StopsCollection (image_of image.now).program
        (record { all = threads.old; globals = globals.old; heap = S.heap store.old })) }
    ensures cost { IsRoomFor threads.old.stack room.old → (walks : List (List AFrame))
        → AllFramed (image_of image.now).program threads.old walks → VisitCosts
        (opened (S.heap store.old) (staying (S.heap store.old).tenured)) (S.heap store.new)
        steps.old steps.new (all_list (image_of image.now).program walks
        + length (image_of image.now).program.globals.pointers) }
    ensures heap { Opens (S.heap store.old) (S.heap store.new) }
    ensures fitting { (shapes : List Shape) → S.fits store.old shapes → S.fits store.new shapes }
    ensures words { length globals.new ≡ length globals.old }
    ensures room { (stack : ℕ) → IsRoomFor stack room.old → IsRoomFor stack room.new }
    ensures forks { threads.new.forks ≡ threads.old.forks }
    ensures waits { threads.new.waits ≡ threads.old.waits }
{
    image.image().keeps_its_form();
    image.image().keeps_together();
    store.begin();
    if !visit_threads(image, threads, store, room, steps) {
        return false;
    }
    visit_globals(image, globals, store, steps)
}

/// Puts the derived words of a thread together again.
fn mend_thread<L: Ledger>(
    image: &Decoded<'_>,
    threads: &mut Threads,
    thread: u64,
    room: &mut Room,
    steps: &mut Steps<L>,
) -> bool
    ensures mended { (t : Thread) (frames : List AFrame) (cells : List Cell) (words : List ℕ)
        (before after last : List Move) → thread_named threads.old thread ≡ Some t
        → IsRoomFor (length (words_of threads.old t)) room.old
        → AreFrames (image_of image.now).program threads.old t frames
        → Gathers (image_of image.now).program cells frames words before
        (words_at threads.old t) after
        → length words ≡ length (words_of threads.old t) + 16 → GoesOn after last → (result ≡ true)
        × MendsThread (image_of image.now).program last frames t words threads.old threads.new }
    ensures cost { (t : Thread) (frames : List AFrame) → thread_named threads.old thread ≡ Some t
        → AreFrames (image_of image.now).program threads.old t frames
        → steps.new ≤ steps.old + derived_listed (derived_words (image_of image.now).program frames) }
    ensures room { (stack : ℕ) → IsRoomFor stack room.old → IsRoomFor stack room.new }
    ensures forks { threads.new.forks ≡ threads.old.forks }
    ensures waits { threads.new.waits ≡ threads.old.waits }
{
    image.image().keeps_its_form();
    let Some(mut regs) = frames_of(image, threads, thread, room) else {
        return false;
    };
    let stack = threads.stack_mut(thread);
    let fits = mend(image, &room.frames, &mut regs.r, stack, steps);
    set_regs(threads, thread, regs);
    fits
}

/// Puts the derived words of all threads together again. Where their words were gathered, it
/// answers true, and the words are moved.
fn mend_threads<L: Ledger>(
    image: &Decoded<'_>,
    threads: &mut Threads,
    room: &mut Room,
    steps: &mut Steps<L>,
) -> bool
    ensures mended { (cells : List Cell) (first : Everyone) (start moves last : List Move)
        → (all : AllGathered (image_of image.now).program cells first threads.old start moves)
        → GoesOn moves last → IsRoomFor threads.old.stack room.old
        → (result ≡ true) × MovesThreads (image_of image.now).program last all.walks first
        threads.new }
    ensures cost { (cells : List Cell) (first : Everyone) (start moves last : List Move)
        → (all : AllGathered (image_of image.now).program cells first threads.old start moves)
        → GoesOn moves last → IsRoomFor threads.old.stack room.old
        → steps.new ≤ steps.old + all_list (image_of image.now).program all.walks }
    ensures room { (stack : ℕ) → IsRoomFor stack room.old → IsRoomFor stack room.new }
    ensures forks { threads.new.forks ≡ threads.old.forks }
    ensures waits { threads.new.waits ≡ threads.old.waits }
{
    for place in 0..64 {
        let Some(thread) = threads.number(place) else {
            return true;
        };
        if !mend_thread(image, threads, thread, room, steps) {
            return false;
        }
    }
    true
}

/// Collects the heap over all frames of all threads, by the rows of the image. Bases are subtracted
/// from derived words from the newest frame to the oldest, the tidy words are visited, and once all
/// that they lead to is moved, the bases are added again from the oldest frame to the newest. With
/// room for the threads' stacks, false comes exactly where a frame, a value or the lists of the
/// rows aren't as they have to be (trap 9); then nothing is said of words and cells. It takes at
/// most twice as many steps as it keeps words, and as the rows of the frames list locations and
/// bases, and as globals are pointers.
pub fn collect<S: Store, L: Ledger>(
    threads: &mut Threads,
    globals: &mut [u64],
    store: &mut S,
    image: &Decoded<'_>,
    room: &mut Room,
    steps: &mut Steps<L>,
) -> bool
    requires closed { (S.heap store.old).is_open ≡ false }
    requires fitting { S.fits store.old (map shape_of (image_of image.now).program.types) }
    requires words { length globals.old ≡ (image_of image.now).program.globals.words }
    ensures collected { IsRoomFor threads.old.stack room.old
        → OnTrue result (Collected (image_of image.now).program
        (record { all = threads.old; globals = globals.old; heap = S.heap store.old })
        (record { all = threads.new; globals = globals.new; heap = S.heap store.new })) }
    ensures offsets { IsRoomFor threads.old.stack room.old
        → OnTrue result (AllKeepOffsets (image_of image.now).program threads.old threads.new) }
    ensures whole { IsRoomFor threads.old.stack room.old
        → OnTrue result (StopsCollection (image_of image.now).program
        (record { all = threads.old; globals = globals.old; heap = S.heap store.old }) → ⊥) }
    ensures stopped { IsRoomFor threads.old.stack room.old
        → OnFalse result (StopsCollection (image_of image.now).program
        (record { all = threads.old; globals = globals.old; heap = S.heap store.old })) }
    ensures cost { IsRoomFor threads.old.stack room.old → OnTrue result
        ((walks : List (List AFrame)) → AllFramed (image_of image.now).program threads.old walks
        → StepsAtMost (image_of image.now).program walks (S.heap store.old) (S.heap store.new)
        steps.old steps.new) }
    ensures closed { (S.heap store.new).is_open ≡ false }
    ensures sizes { SameSizes (S.heap store.old) (S.heap store.new) }
    ensures fitting { result ≡ true → S.fits store.new
        (map shape_of (image_of image.now).program.types) }
    ensures words { length globals.new ≡ length globals.old }
    ensures room { (stack : ℕ) → IsRoomFor stack room.old → IsRoomFor stack room.new }
    ensures forks { threads.new.forks ≡ threads.old.forks }
    ensures waits { threads.new.waits ≡ threads.old.waits }
{
    image.image().keeps_its_form();
    image.image().keeps_together();
    let visited = visit_roots(image, threads, globals, store, room, steps);
    let traced = store.finish(image, steps);
    if !visited || !traced {
        return false;
    }
    mend_threads(image, threads, room, steps)
}
