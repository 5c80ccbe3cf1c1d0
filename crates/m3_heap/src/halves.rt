ghost use Rattle.std.specs.Bool.{OnTrue};
ghost use Rattle.std.specs.Option.{IfNone};
ghost use Rattle.std.specs.Prelude.{◌≡◌, ℕ, ◌+◌, ◌≤◌, ◌↔◌, true, false, if◌then◌else◌, IsNone};
ghost use Rattle.std.specs.Prelude.{IfSome, IfOk, IsTrue, List, []};
ghost use Rattle.m3_heap.specs.Heap.{counted};

use crate::copying::Copying;
use crate::half::Half;
use crate::maps::Maps;
use crate::pair::{Pair, trace};
use crate::steps::Steps;
use m3_base::NoMemory;
use std::alloc::Global;
use std::marker::Model;
use std::mem;
use std::sync::ledger::Ledger;

/// Where the two halves begin.
const FIRST_BASE: u64 = 1 << 60;

const SECOND_BASE: u64 = 1 << 61;

/// Two halves, one of them in use. A collection copies what is reached to the other half, which is
/// in use from then on (Cheney 1970).
#[derive(Drop)]
pub struct Halves {
    pair: Pair,
    is_open: bool,
    copied: u64,
    asked: u64,
    fulls: u64,
}

impl Model for Halves {
    ghost use Rattle.m3_heap.specs.Heap.{Heap};

    ghost Value = { Heap };

    ghost use Rattle.m3_heap.specs.CollectorHalves.{semi_of, IsSemi};

    ghost view = { semi_of };

    ghost invariant = { IsSemi };
}

impl Halves {
    ghost use Rattle.m3_heap.specs.Semi.{new_heap};

    /// No cells yet. Both halves have so many words.
    pub fn new(alloc: Global, words: u64) -> Result<Halves, NoMemory>
        requires at_least { 64 ≤ words }
        requires at_most { words ≤ 67108864 }
        ensures { IfOk result (λ heap. heap ≡ new_heap words) }
    {
        let here = Half::new(alloc, FIRST_BASE, words as usize)?;
        let there = Half::new(alloc, SECOND_BASE, words as usize)?;
        Ok(Halves {
            pair: Pair { here, there },
            is_open: false,
            copied: 0,
            asked: 0,
            fulls: 0,
        })
    }
}

// A count that stops at the end of its type.
fn one_more(count: u64) -> u64
    ensures { result ≡ counted count }
{
    if count == u64::MAX { count } else { count + 1 }
}

impl Halves {
    ghost use Rattle.m3_heap.specs.Cells.{cell_word_at, is_writable, with_word};
    ghost use Rattle.m3_heap.specs.Semi.{IsOfHalves};
    ghost use Rattle.m3_heap.specs.Moves.{forwarded, with_kept, kept_words, kept_starts};
    ghost use Rattle.m3_heap.specs.Reach.{IsBadPointer, HasBadPointer};
    ghost use Rattle.m3_heap.specs.Heap.{IsSoundHeap, SameSizes, Allots, HasOtherWords};
    ghost use Rattle.m3_heap.specs.Heap.{CountsOne, ChangesHalves, KeepsReached, MovesCells};
    ghost use Rattle.m3_heap.specs.Heap.{MakesRoom, CostsTrace};

    /// As `allocate` of a store.
    pub fn allocate(&mut self, kind: u32, words: u64) -> Option<u64>
        requires closed { self.old.is_open ≡ false }
        requires some { 1 ≤ words }
        ensures allots { Allots self.old kind words result self.new }
        ensures sound { IsSoundHeap self.new }
        ensures of_halves { IsOfHalves self.new }
    {
        if words > self.pair.here.free() {
            self.asked = words;
            return None;
        }
        let header = u64::from(kind) + words * (1 << 32);
        Some(self.pair.here.append_zeroed(header, words))
    }

    /// As `load` of a store.
    #[inline]
    pub fn load(&self, at: u64) -> Option<u64>
        requires closed { self.now.is_open ≡ false }
        ensures { result ≡ cell_word_at self.now.cells at }
    {
        self.pair.here.word(at)
    }

    /// As `store` of a store.
    #[inline]
    pub fn store(&mut self, at: u64, word: u64) -> bool
        requires closed { self.old.is_open ≡ false }
        ensures value { result ≡ is_writable self.old.cells at }
        ensures cells { self.new.cells
            ≡ (if result then with_word self.old.cells at word else self.old.cells) }
        ensures rest { HasOtherWords self.old self.new }
        ensures sound { IsSoundHeap self.new }
        ensures of_halves { IsOfHalves self.new }
    {
        self.pair.here.replace(at, word)
    }

    /// As `begin` of a store.
    pub fn begin(&mut self)
        requires closed { self.old.is_open ≡ false }
        ensures opened { self.new ≡ record self.old { is_open = true; moves = [] } }
        ensures tenured { self.old.tenured ≡ [] }
        ensures sound { IsSoundHeap self.new }
        ensures of_halves { IsOfHalves self.new }
    {
        self.pair.there.clear();
        self.is_open = true;
    }

    /// As `visit` of a store.
    pub fn visit<L: Ledger>(&mut self, word: u64, steps: &mut Steps<L>) -> Option<u64>
        requires open { self.old.is_open ≡ true }
        ensures none { IsNone result ↔ IsBadPointer self.old.cells word }
        ensures value { IfSome result (λ to. to ≡ forwarded self.new.moves word) }
        ensures kept { IfSome result
            (λ to. self.new ≡ record self.old { moves = with_kept self.old.moves word to }) }
        ensures refused { IfNone result (self.new ≡ self.old) }
        ensures cost { steps.new + kept_words self.old.cells self.old.moves
            ≡ steps.old + 1 + kept_words self.old.cells self.new.moves }
        ensures sound { IsSoundHeap self.new }
        ensures of_halves { IsOfHalves self.new }
    {
        steps.tick();
        self.pair.forward(word, steps)
    }

    /// As `finish` of a store. Where it answers true, the other half is in use.
    pub fn finish<M: Maps, L: Ledger>(&mut self, maps: &M, steps: &mut Steps<L>) -> bool
        requires open { self.old.is_open ≡ true }
        ensures bad { result ≡ false
            → HasBadPointer (M.shapes maps.now) self.old.cells (kept_starts self.old.moves) }
        ensures good { IsTrue result
            → HasBadPointer (M.shapes maps.now) self.old.cells (kept_starts self.old.moves) → ⊥ }
        ensures reached { OnTrue result (KeepsReached (M.shapes maps.now) self.old self.new) }
        ensures moved { OnTrue result (MovesCells (M.shapes maps.now) self.old self.new) }
        ensures room { OnTrue result (MakesRoom self.old self.new) }
        ensures counted { OnTrue result (CountsOne self.old self.new) }
        ensures halves { OnTrue result (ChangesHalves self.old self.new) }
        ensures cost { OnTrue result
            (CostsTrace (M.shapes maps.now) self.old self.new steps.old steps.new) }
        ensures closed { self.new.is_open ≡ false }
        ensures asked { self.new.asked ≡ 0 }
        ensures sizes { SameSizes self.old self.new }
        ensures sound { IsSoundHeap self.new }
        ensures of_halves { IsOfHalves self.new }
    {
        let is_traced = trace(&mut self.pair, maps, steps);
        self.is_open = false;
        self.asked = 0;
        self.copied = 0;
        if !is_traced {
            self.pair.here.clear();
            return false;
        }
        self.copied = self.pair.there.total();
        mem::swap(&mut self.pair.here, &mut self.pair.there);
        self.fulls = one_more(self.fulls);
        true
    }

    /// As `free_words` of a store.
    pub fn free_words(&self) -> u64
        requires closed { self.now.is_open ≡ false }
        ensures { result ≡ self.now.free }
    {
        self.pair.here.free()
    }
}
