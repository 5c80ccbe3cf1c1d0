ghost use Rattle.std.specs.Prelude.{◌≡◌, false};

use crate::store::Store;

/// A store with no open collection, as programs see it.
#[derive(Drop)]
pub struct Closed<S: Store> {
    pub store: S,
    pub ghost closed: { (S.heap store).is_open ≡ false },
}

impl<S: Store> Closed<S> {
    ghost use Rattle.std.specs.Prelude.{if◌then◌else◌, ◌≤◌, List};
    ghost use Rattle.m3_heap.specs.Cells.{cell_word_at, is_writable, with_word};
    ghost use Rattle.m3_heap.specs.Heap.{Allots, HasOtherWords};
    ghost use Rattle.m3_heap.specs.Shapes.{Shape};

    /// The word at an address. None comes exactly outside a cell.
    #[inline]
    pub fn load(&self, at: u64) -> Option<u64>
        ensures { result ≡ cell_word_at (S.heap self.now.store).cells at }
    {
        self.store.load(at)
    }

    /// Sets the word at an address. False comes exactly outside a cell and at a header.
    #[inline]
    pub fn set(&mut self, at: u64, word: u64) -> bool
        ensures value { result ≡ is_writable (S.heap self.old.store).cells at }
        ensures cells { (S.heap self.new.store).cells
            ≡ (if result then with_word (S.heap self.old.store).cells at word else
            (S.heap self.old.store).cells) }
        ensures rest { HasOtherWords (S.heap self.old.store) (S.heap self.new.store) }
        ensures fitting { (shapes : List Shape) → S.fits self.old.store shapes
            → S.fits self.new.store shapes }
    {
        self.store.store(at, word)
    }

    /// A new cell, zero after its header. None comes exactly where the words exceed the free ones.
    pub fn allocate(&mut self, kind: u32, words: u64) -> Option<u64>
        requires { 1 ≤ words }
        ensures allots { Allots (S.heap self.old.store) kind words result (S.heap self.new.store) }
        ensures fitting { (shapes : List Shape) → S.fits self.old.store shapes
            → S.fits self.new.store shapes }
    {
        self.store.allocate(kind, words)
    }

    /// How many words a new cell may have now.
    pub fn free_words(&self) -> u64
        ensures { result ≡ (S.heap self.now.store).free }
    {
        self.store.free_words()
    }
}
