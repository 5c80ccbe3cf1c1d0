ghost use Rattle.m3_heap.specs.Heap.{IsSoundHeap};
ghost use Rattle.m3_heap.specs.Semi.{IsOfHalves};
ghost use Rattle.m3_heap.specs.OneProof.{IsSoundHeap-prop, IsOfHalves-prop};

use crate::halves::Halves;
use crate::maps::Maps;
use crate::steps::Steps;
use crate::store::Store;
use m3_base::NoMemory;
use std::alloc::Global;
use std::sync::ledger::Ledger;

/// A heap of two halves, one of them in use. A collection copies what is reached to the other
/// half, which is in use from then on (Cheney 1970).
#[derive(Drop)]
pub struct SemiSpace {
    halves: Halves,
    pub ghost sound: { IsSoundHeap halves } by { IsSoundHeap-prop halves },
    pub ghost of_halves: { IsOfHalves halves } by { IsOfHalves-prop halves },
}

impl SemiSpace {
    ghost use Rattle.std.specs.Prelude.{◌≡◌, ◌≤◌, IfOk};
    ghost use Rattle.m3_heap.specs.Semi.{new_heap};

    /// A heap without cells. Both halves have so many words, and no more memory is taken from then
    /// on.
    pub fn new(alloc: Global, words: u64) -> Result<SemiSpace, NoMemory>
        requires at_least { 64 ≤ words }
        requires at_most { words ≤ 67108864 }
        ensures { IfOk result (λ heap. heap.halves ≡ new_heap words) }
    {
        let halves = Halves::new(alloc, words)?;
        Ok(SemiSpace { halves })
    }
}

impl Store for SemiSpace {
    ghost use Rattle.std.specs.Coded.{Unit-prop};

    ghost heap = { λ s. s.halves };

    ghost fits = { λ _ _. Unit {0} };

    ghost empty_fits = { λ _ _ _. tt };

    ghost sound = { λ s. s.sound };

    ghost fits_once = { λ _ _. Unit-prop };

    fn allocate(&mut self, kind: u32, words: u64) -> Option<u64> {
        self.halves.allocate(kind, words)
    }

    #[inline]
    fn load(&self, at: u64) -> Option<u64> {
        self.halves.load(at)
    }

    #[inline]
    fn store(&mut self, at: u64, word: u64) -> bool {
        self.halves.store(at, word)
    }

    fn begin(&mut self) {
        self.halves.begin();
    }

    fn visit<L: Ledger>(&mut self, word: u64, steps: &mut Steps<L>) -> Option<u64> {
        self.halves.visit(word, steps)
    }

    /// Puts the other half in use, where it answers true: every kept cell has a new address, and
    /// that half holds exactly what is reached from the visited words.
    fn finish<M: Maps, L: Ledger>(&mut self, maps: &M, steps: &mut Steps<L>) -> bool {
        self.halves.finish(maps, steps)
    }

    fn free_words(&self) -> u64 {
        self.halves.free_words()
    }
}
