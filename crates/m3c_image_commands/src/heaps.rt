//! The heaps that a run may begin with.
ghost use Rattle.std.specs.Prelude.{◌≡◌, ◌≤◌, ◌+◌, true, false, Bool, IfOk, vec_len, vec_capacity};
ghost use Rattle.m3_generational.specs.First.{first_heap};
ghost use Rattle.m3c_image_commands.specs.Reports.{with_generations};

use crate::line::{add, add_number};
use m3_base::NoMemory;
use m3_generational::Generational;
use m3_heap::{SemiSpace, Store};
use std::alloc::Global;

/// A heap that a run may begin with: one of two halves, or one of generations, whose minor and full
/// collections are told.
pub trait FirstHeap: Store + Drop + Sized {
    /// Whether it is one of generations.
    ghost young: { Bool };

    /// A heap without cells, each half of which has so many words.
    fn make(alloc: Global, words: u64) -> Result<Self, NoMemory>
        requires at_least { 64 ≤ words }
        requires at_most { words ≤ 67108864 }
        ensures { IfOk result (λ made. Self.heap made ≡ first_heap young words) };

    /// Adds the minor and the full collections to a line that has the room, if they are told.
    fn tell(&self, line: &mut Vec<u8>)
        requires { vec_len line.old + 60 ≤ vec_capacity line.old }
        ensures items { line.new.items
            ≡ with_generations young line.old.items (Self.heap self.now) }
        ensures len { vec_len line.new ≤ vec_len line.old + 60 }
        ensures capacity { vec_capacity line.old ≤ vec_capacity line.new };
}

impl FirstHeap for SemiSpace {
    ghost young = { false };

    fn make(alloc: Global, words: u64) -> Result<SemiSpace, NoMemory> {
        SemiSpace::new(alloc, words)
    }

    fn tell(&self, _line: &mut Vec<u8>) {}
}

impl FirstHeap for Generational {
    ghost young = { true };

    fn make(alloc: Global, words: u64) -> Result<Generational, NoMemory> {
        Generational::new(alloc, words)
    }

    fn tell(&self, line: &mut Vec<u8>) {
        add(line, b" minor ");
        add_number(line, self.minor());
        add(line, b" full ");
        add_number(line, self.full());
    }
}
