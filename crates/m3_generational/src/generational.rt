ghost use Rattle.m3_heap.specs.Heap.{IsSoundHeap};
ghost use Rattle.m3_heap.specs.OneProof.{IsSoundHeap-prop};
ghost use Rattle.m3_generational.specs.Remembering.{HasNursery, HasNursery-prop};

use crate::generations::Generations;
use m3_base::NoMemory;
use m3_heap::{Maps, Steps, Store};
use std::alloc::Global;
use std::sync::ledger::Ledger;

/// A heap of generations. New cells lie in a nursery of a quarter of a half, larger ones at once
/// among the old cells. A collection of the young cells alone moves those that are kept behind the
/// old ones, which stay where they are (Lieberman and Hewitt 1983); it looks at the words of old
/// cells that were set since the last collection, and at no others. A full one copies all that is
/// reached to the other half.
#[derive(Drop)]
pub struct Generational {
    generations: Generations,
    pub ghost sound: { IsSoundHeap generations.heap } by { IsSoundHeap-prop generations.heap },
    pub ghost of_nursery: { HasNursery generations.heap } by { HasNursery-prop generations.heap },
}

impl Generational {
    ghost use Rattle.std.specs.Prelude.{◌≡◌, ◌≤◌, IfOk};
    ghost use Rattle.m3_generational.specs.Remembering.{new_generations};

    /// A heap without cells. Both halves have so many words and the nursery a quarter of that, and
    /// no more memory is taken from then on.
    pub fn new(alloc: Global, words: u64) -> Result<Generational, NoMemory>
        requires at_least { 64 ≤ words }
        requires at_most { words ≤ 67108864 }
        ensures { IfOk result (λ heap. heap.generations.heap ≡ new_generations words) }
    {
        let generations = Generations::new(alloc, words)?;
        Ok(Generational { generations })
    }

    /// How many collections kept the old cells unasked. It stops at the end of its type.
    pub fn minor(&self) -> u64
        ensures { result ≡ self.now.generations.heap.minors }
    {
        self.generations.minors()
    }

    /// How many collections kept no cell unasked. It stops at the end of its type.
    pub fn full(&self) -> u64
        ensures { result ≡ self.now.generations.heap.fulls }
    {
        self.generations.fulls()
    }
}

impl Store for Generational {
    ghost use Rattle.m3_generational.specs.Remembering.{Fits, Fits-prop, empty_fits};

    ghost heap = { λ s. s.generations.heap };

    ghost fits = { λ s shapes. Fits shapes s.generations };

    ghost empty_fits = { λ s shapes none. empty_fits shapes s.generations none };

    ghost sound = { λ s. s.sound };

    ghost fits_once = { λ s shapes. Fits-prop shapes s.generations };

    fn allocate(&mut self, kind: u32, words: u64) -> Option<u64> {
        self.generations.allocate(kind, words)
    }

    #[inline]
    fn load(&self, at: u64) -> Option<u64> {
        self.generations.load(at)
    }

    #[inline]
    fn store(&mut self, at: u64, word: u64) -> bool {
        self.generations.store(at, word)
    }

    fn begin(&mut self) {
        self.generations.begin();
    }

    fn visit<L: Ledger>(&mut self, word: u64, steps: &mut Steps<L>) -> Option<u64> {
        self.generations.visit(word, steps)
    }

    fn finish<M: Maps, L: Ledger>(&mut self, maps: &M, steps: &mut Steps<L>) -> bool {
        self.generations.finish(maps, steps)
    }

    fn free_words(&self) -> u64 {
        self.generations.free_words()
    }
}
