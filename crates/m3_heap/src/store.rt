ghost use Rattle.std.specs.Prelude.{◌≡◌, ℕ, ◌+◌, ◌≤◌, ◌↔◌, Bool, true, false, if◌then◌else◌};
ghost use Rattle.std.specs.Prelude.{IsNone, IfSome, IsTrue, List, [], unwrap_or};
ghost use Rattle.std.specs.Bool.{OnTrue};
ghost use Rattle.std.specs.Option.{IfNone};
ghost use Rattle.m3_heap.specs.Cells.{cell_word_at, is_writable, with_word};
ghost use Rattle.m3_heap.specs.Shapes.{Shape};
ghost use Rattle.m3_heap.specs.Moves.{staying, forwarded, with_kept, kept_words, kept_starts};
ghost use Rattle.m3_heap.specs.Reach.{IsBadPointer, HasBadPointer};
ghost use Rattle.m3_heap.specs.Heap.{Heap, IsSoundHeap, SameSizes, Allots, HasOtherWords};
ghost use Rattle.m3_heap.specs.Heap.{CountsOne, ChangesHalves, KeepsReached, MovesCells};
ghost use Rattle.m3_heap.specs.Heap.{MakesRoom, CostsTrace};

use crate::maps::Maps;
use crate::steps::Steps;
use std::sync::ledger::Ledger;

/// A heap that may move its cells. It takes memory when it is made and never after.
///
/// A collection is open from `begin` until `finish` answers. Between the two the roots are visited
/// one by one, and each has its new value at once.
pub trait Store {
    /// What the machine sees of the store.
    ghost heap: { Self → Heap };

    /// Whether a list of shapes agrees with what the store holds.
    ghost fits: { Self → List Shape → Type 0 };

    /// A new cell, zero after its header. None comes exactly where the words exceed the free ones.
    fn allocate(&mut self, kind: u32, words: u64) -> Option<u64>
        requires closed { (heap self.old).is_open ≡ false }
        requires some { 1 ≤ words }
        ensures allots { Allots (heap self.old) kind words result (heap self.new) }
        ensures fitting { (shapes : List Shape) → fits self.old shapes → fits self.new shapes };

    /// The word at an address. None comes exactly outside a cell.
    fn load(&self, at: u64) -> Option<u64>
        requires closed { (heap self.now).is_open ≡ false }
        ensures { result ≡ cell_word_at (heap self.now).cells at };

    /// Sets the word at an address. False comes exactly outside a cell and at a header.
    fn store(&mut self, at: u64, word: u64) -> bool
        requires closed { (heap self.old).is_open ≡ false }
        ensures value { result ≡ is_writable (heap self.old).cells at }
        ensures cells { (heap self.new).cells
            ≡ (if result then with_word (heap self.old).cells at word else (heap self.old).cells) }
        ensures rest { HasOtherWords (heap self.old) (heap self.new) }
        ensures fitting { (shapes : List Shape) → fits self.old shapes → fits self.new shapes };

    /// Opens a collection.
    fn begin(&mut self)
        requires closed { (heap self.old).is_open ≡ false }
        ensures opened { heap self.new
            ≡ record (heap self.old) { is_open = true; moves = staying (heap self.old).tenured } }
        ensures fitting { (shapes : List Shape) → fits self.old shapes → fits self.new shapes };

    /// The new value of a root: a cell that is referred to is kept. None comes exactly where the
    /// word lies where heaps lie and no cell started there when the collection began, and changes
    /// nothing. It takes one step, and one for each word of a cell that is newly kept.
    fn visit<L: Ledger>(&mut self, word: u64, steps: &mut Steps<L>) -> Option<u64>
        requires open { (heap self.old).is_open ≡ true }
        ensures none { IsNone result ↔ IsBadPointer (heap self.old).cells word }
        ensures value { IfSome result (λ to. to ≡ forwarded (heap self.new).moves word) }
        ensures kept { IfSome result
            (λ to. heap self.new
            ≡ record (heap self.old) { moves = with_kept (heap self.old).moves word to }) }
        ensures refused { IfNone result (heap self.new ≡ heap self.old) }
        ensures cost { steps.new + kept_words (heap self.old).cells (heap self.old).moves
            ≡ steps.old + 1 + kept_words (heap self.old).cells (heap self.new).moves }
        ensures fitting { (shapes : List Shape) → fits self.old shapes → fits self.new shapes };

    /// Closes the collection. False comes exactly where a reached cell has a pointer that lies
    /// where heaps lie and is no cell's start; then nothing is said of the cells. True says that
    /// the heap holds exactly what is reached, moved.
    fn finish<M: Maps, L: Ledger>(&mut self, maps: &M, steps: &mut Steps<L>) -> bool
        requires open { (heap self.old).is_open ≡ true }
        requires fitting { fits self.old (M.shapes maps.now) }
        ensures bad { result ≡ false
            → HasBadPointer (M.shapes maps.now) (heap self.old).cells
            (kept_starts (heap self.old).moves) }
        ensures good { IsTrue result
            → HasBadPointer (M.shapes maps.now) (heap self.old).cells
            (kept_starts (heap self.old).moves) → ⊥ }
        ensures reached { OnTrue result
            (KeepsReached (M.shapes maps.now) (heap self.old) (heap self.new)) }
        ensures moved { OnTrue result
            (MovesCells (M.shapes maps.now) (heap self.old) (heap self.new)) }
        ensures room { OnTrue result (MakesRoom (heap self.old) (heap self.new)) }
        ensures counted { OnTrue result (CountsOne (heap self.old) (heap self.new)) }
        ensures halves { OnTrue result (ChangesHalves (heap self.old) (heap self.new)) }
        ensures fits { OnTrue result (fits self.new (M.shapes maps.now)) }
        ensures cost { OnTrue result
            (CostsTrace (M.shapes maps.now) (heap self.old) (heap self.new) steps.old steps.new) }
        ensures closed { (heap self.new).is_open ≡ false }
        ensures asked { (heap self.new).asked ≡ 0 }
        ensures sizes { SameSizes (heap self.old) (heap self.new) };

    /// How many words a new cell may have now.
    fn free_words(&self) -> u64
        requires closed { (heap self.now).is_open ≡ false }
        ensures { result ≡ (heap self.now).free };

    /// A store without cells agrees with every list of shapes.
    ghost empty_fits: { (s : Self) (shapes : List Shape) → (heap s).cells ≡ [] → fits s shapes };

    /// At every moment its cells are headed and lie where heaps lie, little enough is free, and it
    /// keeps the laws of a store.
    ghost sound: { (s : Self) → IsSoundHeap (heap s) };

    /// That a list of shapes agrees has one proof at most, so whoever has a store may keep it
    /// beside its fields.
    ghost fits_once: { (s : Self) (shapes : List Shape) → IsProp (fits s shapes) };
}
