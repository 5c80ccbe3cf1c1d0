ghost use Rattle.std.specs.Prelude.{◌≡◌};

use m3_heap::{Closed, Store};
use m3_isa::Words;

// Where the globals begin.
const GLOBALS: u64 = 1 << 32;

/// Sixteen globals and a heap, seen as one memory.
#[derive(Drop)]
pub struct Parts<S: Store> {
    pub globals: [u64; 16],
    pub heap: Closed<S>,
}

impl<S: Store> Words for Parts<S> {
    ghost use Rattle.std.specs.Prelude.{◌≡◌};
    ghost use Rattle.m3_heap.specs.Heap.{HasOtherWords};
    ghost use Rattle.m3_run_memory_tests.specs.Kept.{keeps_itself, keeps_on};
    ghost use Rattle.m3_run_memory_tests.specs.Held.{holds_in, can_set, readable_in, low_in};

    ghost holds = { λ m. holds_in m.globals (S.heap m.heap.store).cells };

    ghost writable = { λ m. can_set (S.heap m.heap.store).cells };

    ghost keeps = { λ old new. HasOtherWords (S.heap old.heap.store) (S.heap new.heap.store) };

    ghost readable = { λ m x h. readable_in m.globals (S.heap m.heap.store).cells x h };

    ghost low = { λ m x h. low_in m.globals (S.heap m.heap.store).cells (S.sound m.heap.store).cells.in_heap x h };

    ghost keeps_itself = { λ m. keeps_itself (S.heap m.heap.store) };

    ghost keeps_on = { λ s t u p q. keeps_on (S.heap s.heap.store) (S.heap t.heap.store) (S.heap u.heap.store) p q };

    #[inline]
    fn load(&self, at: u64) -> Option<u64> {
        if at >= GLOBALS && at < GLOBALS + 16 {
            Some(self.globals[(at - GLOBALS) as usize])
        } else {
            self.heap.load(at)
        }
    }

    #[inline]
    fn store(&mut self, at: u64, word: u64) -> bool {
        if at >= GLOBALS && at < GLOBALS + 16 {
            self.globals[(at - GLOBALS) as usize] = word;
            true
        } else {
            self.heap.set(at, word)
        }
    }
}
