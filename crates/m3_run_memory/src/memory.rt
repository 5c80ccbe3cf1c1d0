use crate::outside::Outside;
use m3_heap::Store;
use m3_isa::Words;
use m3_threads::Threads;

/// All words of a machine: the stacks of its threads, and the memory outside them.
#[derive(Drop)]
pub struct Memory<S: Store> {
    pub threads: Threads,
    pub outside: Outside<S>,
}

impl<S: Store> Words for Memory<S> {
    ghost use Rattle.std.specs.Prelude.{length, List};
    ghost use Rattle.m3_heap.specs.Shapes.{Shape};
    ghost use Rattle.m3_threads.specs.Spaces.{held, replaceable};
    ghost use Rattle.m3_run_memory.specs.Addresses.{outside_of, settable_of};
    ghost use Rattle.m3_run_memory.specs.Kept.{KeepsMemory};
    ghost use Rattle.m3_run_memory.specs.OutsideLaws.{readable_outside, low_outside};
    ghost use Rattle.m3_run_memory.specs.MemoryLaws.{readable_memory, low_memory, keeps_itself};
    ghost use Rattle.m3_run_memory.specs.MemoryLaws.{keeps_on};

    ghost holds = { λ m. held m.threads (outside_of m.outside.globals.items
        m.outside.constants.items (S.heap m.outside.heap.store).cells) };

    ghost writable = { λ m. replaceable m.threads
        (settable_of (length m.outside.globals.items) (S.heap m.outside.heap.store).cells) };

    ghost keeps = { λ old new. KeepsMemory old.threads new.threads old.outside.globals.items
        new.outside.globals.items old.outside.constants.items new.outside.constants.items
        (S.heap old.outside.heap.store) (S.heap new.outside.heap.store)
        × ((shapes : List Shape) → S.fits old.outside.heap.store shapes
        → S.fits new.outside.heap.store shapes) };

    ghost readable = { λ m x h. readable_memory m.threads
        (outside_of m.outside.globals.items m.outside.constants.items
        (S.heap m.outside.heap.store).cells) (settable_of (length m.outside.globals.items)
        (S.heap m.outside.heap.store).cells) x
        (readable_outside m.outside.globals.items m.outside.constants.items
        (S.heap m.outside.heap.store).cells x (S.sound m.outside.heap.store).cells.in_heap
        m.outside.few m.outside.small) h };

    ghost low = { λ m x h. low_memory m.threads
        (outside_of m.outside.globals.items m.outside.constants.items
        (S.heap m.outside.heap.store).cells) x
        (low_outside m.outside.globals.items m.outside.constants.items
        (S.heap m.outside.heap.store).cells x (S.sound m.outside.heap.store).cells.in_heap
        m.outside.few m.outside.small) h };

    ghost keeps_itself = { λ m. (
      keeps_itself m.threads m.outside.globals.items
          m.outside.constants.items (S.heap m.outside.heap.store),
      λ _ f. f,
    ) };

    ghost keeps_on = { λ s t u p q. (
      keeps_on s.threads t.threads u.threads s.outside.globals.items
          t.outside.globals.items u.outside.globals.items s.outside.constants.items
          t.outside.constants.items u.outside.constants.items (S.heap s.outside.heap.store)
          (S.heap t.outside.heap.store) (S.heap u.outside.heap.store) p.0 q.0,
      λ shapes f. q.1 shapes
          (p.1 shapes f),
    ) };

    #[inline(always)]
    fn load(&self, at: u64) -> Option<u64> {
        self.threads.load(at, &self.outside)
    }

    #[inline(always)]
    fn store(&mut self, at: u64, word: u64) -> bool {
        self.threads.store(at, word, &mut self.outside)
    }
}
