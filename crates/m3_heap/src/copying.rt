ghost use Rattle.std.specs.Bool.{OnTrue, MatchBool};
ghost use Rattle.std.specs.Option.{IfNone};
ghost use Rattle.std.specs.Prelude.{◌≡◌, ℕ, ◌+◌, ◌<◌, ◌↔◌, true, false, List, length, IsNone};
ghost use Rattle.std.specs.Prelude.{IfSome, MatchOption};
ghost use Rattle.m3_heap.specs.Cells.{header, kind_in, is_start, words_from, cell_word_at};
ghost use Rattle.m3_heap.specs.Cells.{with_word, total_words};
ghost use Rattle.m3_heap.specs.Moves.{forwarded};
ghost use Rattle.m3_heap.specs.Reach.{IsBadPointer, HasBadPointer};
ghost use Rattle.m3_heap.specs.CollectorSpace.{Space};
ghost use Rattle.m3_heap.specs.CollectorScanning.{Scans, Grows, met, IsBoundary};
ghost use Rattle.m3_heap.specs.CollectorTracing.{IsTracing, old_cells, moves, Keeps};

use crate::maps::Maps;
use crate::steps::Steps;
use std::sync::ledger::Ledger;

/// A collection by copying, as the scan of its copies sees it: the cells that are left and the
/// copies that are kept. The header of a cell that was copied gives way to the new start, which no
/// header reaches, so both together tell what stood there before (Cheney 1970).
pub trait Copying {
    /// The cells that are left, as they stand.
    ghost left: { Self → Space };

    /// The copies that are kept.
    ghost kept: { Self → Space };

    /// What else its parts keep as long as the collection goes on.
    ghost keeps: { Self → Type 0 };

    /// The new value of a word: its cell is copied behind the last one unless it was. None comes
    /// exactly where the word lies where heaps lie and is no cell's start.
    fn forward<L: Ledger>(&mut self, word: u64, steps: &mut Steps<L>) -> Option<u64>
        requires tracing { IsTracing (left self.old) (kept self.old) }
        requires keeping { keeps self.old }
        ensures none { IsNone result
            ↔ IsBadPointer (old_cells (left self.old) (kept self.old)) word }
        ensures value { IfSome result
            (λ to. to ≡ forwarded (moves (left self.new) (kept self.new)) word) }
        ensures kept { IfSome result
            (λ _. Keeps (left self.old) (kept self.old) (left self.new) (kept self.new) word) }
        ensures left_stays { IfNone result (left self.new ≡ left self.old) }
        ensures kept_stays { IfNone result (kept self.new ≡ kept self.old) }
        ensures cost { steps.new + total_words (kept self.old).cells
            ≡ steps.old + total_words (kept self.new).cells }
        ensures keeping { keeps self.new };

    /// The word of a copy at an address. None comes exactly outside the copies.
    fn word(&self, at: u64) -> Option<u64>
        ensures { result ≡ cell_word_at (kept self.now).cells at };

    /// Sets the word at an address, if it is a copy's.
    fn put(&mut self, at: u64, word: u64)
        requires keeping { keeps self.old }
        ensures left { left self.new ≡ left self.old }
        ensures base { (kept self.new).base ≡ (kept self.old).base }
        ensures size { (kept self.new).size ≡ (kept self.old).size }
        ensures cells { (kept self.new).cells ≡ with_word (kept self.old).cells at word }
        ensures keeping { keeps self.new };

    /// Where the last copy ends.
    fn end(&self) -> u64
        ensures { result ≡ (kept self.now).base + total_words (kept self.now).cells };
}

// A copy of a cell, by its start and the kind that its header tells.
#[derive(Clone, Copy)]
struct Copied {
    start: u64,
    kind: u32,
}

// Forwards one word of a copy, if it is a pointer. False says that it is one that can't be.
fn scan_word<C: Copying, M: Maps, L: Ledger>(
    copying: &mut C,
    copied: Copied,
    place: u64,
    maps: &M,
    steps: &mut Steps<L>,
) -> bool
    requires tracing { IsTracing (C.left copying.old) (C.kept copying.old) }
    requires keeping { C.keeps copying.old }
    requires starts { is_start (C.kept copying.old).cells copied.start ≡ true }
    requires kind { copied.kind
        ≡ kind_in (header (words_from (C.kept copying.old).cells copied.start)) }
    requires after_header { 0 < place }
    requires within { place < length (words_from (C.kept copying.old).cells copied.start) }
    ensures tracing { IsTracing (C.left copying.new) (C.kept copying.new) }
    ensures keeping { C.keeps copying.new }
    ensures grows { Grows (C.left copying.old) (C.kept copying.old) (C.left copying.new)
        (C.kept copying.new) }
    ensures starts { is_start (C.kept copying.new).cells copied.start ≡ true }
    ensures same_length { length (words_from (C.kept copying.new).cells copied.start)
        ≡ length (words_from (C.kept copying.old).cells copied.start) }
    ensures same_header { header (words_from (C.kept copying.new).cells copied.start)
        ≡ header (words_from (C.kept copying.old).cells copied.start) }
    ensures scanned { (roots : List ℕ)
        → Scans (M.shapes maps.now) roots (C.left copying.old) (C.kept copying.old)
        (copied.start + place)
        → MatchBool result
        (Scans (M.shapes maps.now) roots (C.left copying.new) (C.kept copying.new)
        (copied.start + place + 1))
        (HasBadPointer (M.shapes maps.now) (old_cells (C.left copying.old) (C.kept copying.old))
        roots) }
    ensures cost { OnTrue result (steps.new
        + met (M.shapes maps.now) (C.left copying.old) (C.kept copying.old) (copied.start + place)
        + total_words (C.kept copying.old).cells ≡ steps.old
        + met (M.shapes maps.now) (C.left copying.new) (C.kept copying.new)
        (copied.start + place + 1)
        + total_words (C.kept copying.new).cells) }
{
    let Copied { start, kind } = copied;
    if !maps.is_pointer(kind, place) {
        return true;
    }
    steps.tick();
    let word = copying.word(start + place).unwrap();
    match copying.forward(word, steps) {
        None => false,
        Some(to) => {
            copying.put(start + place, to);
            true
        }
    }
}

// Forwards the pointers of the copy that starts at an address, and tells where it ends. None says
// that one of them can't be a pointer.
fn scan_cell<C: Copying, M: Maps, L: Ledger>(
    copying: &mut C,
    start: u64,
    maps: &M,
    steps: &mut Steps<L>,
) -> Option<u64>
    requires tracing { IsTracing (C.left copying.old) (C.kept copying.old) }
    requires keeping { C.keeps copying.old }
    requires starts { is_start (C.kept copying.old).cells start ≡ true }
    ensures tracing { IsTracing (C.left copying.new) (C.kept copying.new) }
    ensures keeping { C.keeps copying.new }
    ensures grows { Grows (C.left copying.old) (C.kept copying.old) (C.left copying.new)
        (C.kept copying.new) }
    ensures further { IfSome result (λ end. start < end) }
    ensures boundary { IfSome result (IsBoundary (C.kept copying.new)) }
    ensures scanned { (roots : List ℕ)
        → Scans (M.shapes maps.now) roots (C.left copying.old) (C.kept copying.old) start
        → MatchOption result
        (HasBadPointer (M.shapes maps.now)
        (old_cells (C.left copying.old) (C.kept copying.old)) roots)
        (Scans (M.shapes maps.now) roots (C.left copying.new) (C.kept copying.new)) }
    ensures cost { IfSome result
        (λ end. steps.new + met (M.shapes maps.now) (C.left copying.old) (C.kept copying.old) start
        + total_words (C.kept copying.old).cells
        ≡ steps.old + met (M.shapes maps.now) (C.left copying.new) (C.kept copying.new) end
        + total_words (C.kept copying.new).cells) }
{
    let header = copying.word(start).unwrap();
    let kind = (header % (1 << 32)) as u32;
    let words = header >> 32;
    for place in 1..words {
        if !scan_word(copying, Copied { start, kind }, place, maps, steps) {
            return None;
        }
    }
    Some(start + words)
}

/// Copies all that the copies from an address on lead to, and forwards their pointers: the words
/// from there on are the queue of what is still to be looked at (Cheney 1970). False says that a
/// reached cell has a pointer that can't be one.
pub fn scan<C: Copying, M: Maps, L: Ledger>(
    copying: &mut C,
    from: u64,
    maps: &M,
    steps: &mut Steps<L>,
) -> bool
    requires tracing { IsTracing (C.left copying.old) (C.kept copying.old) }
    requires keeping { C.keeps copying.old }
    requires boundary { IsBoundary (C.kept copying.old) from }
    ensures tracing { IsTracing (C.left copying.new) (C.kept copying.new) }
    ensures keeping { C.keeps copying.new }
    ensures grows { Grows (C.left copying.old) (C.kept copying.old) (C.left copying.new)
        (C.kept copying.new) }
    ensures scanned { (roots : List ℕ)
        → Scans (M.shapes maps.now) roots (C.left copying.old) (C.kept copying.old) from
        → MatchBool result
        (Scans (M.shapes maps.now) roots (C.left copying.new) (C.kept copying.new)
        ((C.kept copying.new).base + total_words (C.kept copying.new).cells))
        (HasBadPointer (M.shapes maps.now)
        (old_cells (C.left copying.old) (C.kept copying.old)) roots) }
    ensures cost { OnTrue result
        (steps.new + met (M.shapes maps.now) (C.left copying.old) (C.kept copying.old) from
        + total_words (C.kept copying.old).cells
        ≡ steps.old
        + met (M.shapes maps.now) (C.left copying.new) (C.kept copying.new)
        ((C.kept copying.new).base + total_words (C.kept copying.new).cells)
        + total_words (C.kept copying.new).cells) }
{
    let mut at = from;
    while at < copying.end() {
        match scan_cell(copying, at, maps, steps) {
            None => return false,
            Some(end) => at = end,
        }
    }
    true
}
