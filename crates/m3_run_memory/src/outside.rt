ghost use Rattle.std.specs.Prelude.{◌<◌, ◌≤◌, ◌≡◌, List, length};
ghost use Rattle.m3_heap.specs.Shapes.{Shape};

use m3_heap::{Closed, Store};
use m3_isa::Words;

// Where the globals, the constants and the heap begin.
const GLOBALS: u64 = 1 << 32;

const CONSTANTS: u64 = 1 << 50;

const HEAP: u64 = 1 << 60;

/// The memory outside the stacks: globals, constants and a heap.
#[derive(Drop)]
pub struct Outside<S: Store> {
    pub globals: Vec<u64>,
    pub constants: Vec<u64>,
    pub heap: Closed<S>,
    pub ghost few: { length globals.items < 4294967296 },
    pub ghost small: { length constants.items < 4294967296 },
}

impl<S: Store> Outside<S> {
    ghost use Rattle.m3_heap.specs.Heap.{Allots};

    /// A new cell, zero after its header. None comes exactly where the words exceed the free ones.
    pub fn allocate(&mut self, kind: u32, words: u64) -> Option<u64>
        requires { 1 ≤ words }
        ensures allots { Allots (S.heap self.old.heap.store) kind words result
            (S.heap self.new.heap.store) }
        ensures globals { self.new.globals.items ≡ self.old.globals.items }
        ensures constants { self.new.constants.items ≡ self.old.constants.items }
        ensures words { length self.new.globals.items ≡ length self.old.globals.items }
        ensures fitting { (shapes : List Shape) → S.fits self.old.heap.store shapes
            → S.fits self.new.heap.store shapes }
    {
        self.heap.allocate(kind, words)
    }
}

impl<S: Store> Words for Outside<S> {
    ghost use Rattle.std.specs.Prelude.{length, List};
    ghost use Rattle.m3_heap.specs.Shapes.{Shape};
    ghost use Rattle.m3_run_memory.specs.Addresses.{outside_of, settable_of};
    ghost use Rattle.m3_run_memory.specs.Kept.{KeepsOutside};
    ghost use Rattle.m3_run_memory.specs.OutsideLaws.{readable_outside, low_outside};
    ghost use Rattle.m3_run_memory.specs.OutsideLaws.{outside_keeps_itself, outside_keeps_on};

    ghost holds = { λ m. outside_of m.globals.items m.constants.items (S.heap m.heap.store).cells };

    ghost writable = { λ m. settable_of (length m.globals.items) (S.heap m.heap.store).cells };

    ghost keeps = { λ old new. KeepsOutside old.globals.items new.globals.items old.constants.items
        new.constants.items (S.heap old.heap.store) (S.heap new.heap.store)
        × ((shapes : List Shape) → S.fits old.heap.store shapes → S.fits new.heap.store shapes) };

    ghost readable = { λ m x h. readable_outside m.globals.items m.constants.items
        (S.heap m.heap.store).cells x (S.sound m.heap.store).cells.in_heap m.few m.small h };

    ghost low = { λ m x h. low_outside m.globals.items m.constants.items (S.heap m.heap.store).cells
        x (S.sound m.heap.store).cells.in_heap m.few m.small h };

    ghost keeps_itself = { λ m. (
      outside_keeps_itself m.globals.items m.constants.items
          (S.heap m.heap.store),
      λ _ f. f,
    ) };

    ghost keeps_on = { λ s t u p q. (
      outside_keeps_on s.globals.items t.globals.items
          u.globals.items s.constants.items t.constants.items u.constants.items (S.heap s.heap.store)
          (S.heap t.heap.store) (S.heap u.heap.store) p.0 q.0,
      λ shapes f. q.1 shapes
          (p.1 shapes f),
    ) };

    #[inline]
    fn load(&self, at: u64) -> Option<u64> {
        if at >= HEAP {
            return self.heap.load(at);
        }
        if at >= CONSTANTS {
            let place = at - CONSTANTS;
            if place >= self.constants.len() as u64 {
                return None;
            }
            return Some(self.constants[place as usize]);
        }
        let place = at.wrapping_sub(GLOBALS);
        if place < self.globals.len() as u64 {
            Some(self.globals[place as usize])
        } else {
            None
        }
    }

    #[inline]
    fn store(&mut self, at: u64, word: u64) -> bool {
        if at >= HEAP {
            return self.heap.set(at, word);
        }
        let place = at.wrapping_sub(GLOBALS);
        if place == 0 || place >= self.globals.len() as u64 {
            return false;
        }
        self.globals[place as usize] = word;
        true
    }
}
