ghost use Rattle.std.specs.Bool.{OnTrue};
ghost use Rattle.std.specs.Option.{IfNone};
ghost use Rattle.std.specs.Prelude.{◌≡◌, ℕ, ◌+◌, ◌<◌, ◌≤◌, ◌↔◌, true, false, if◌then◌else◌};
ghost use Rattle.std.specs.Prelude.{IsNone, IfSome, IfOk, List, Some, None};
ghost use Rattle.m3_heap.specs.Heap.{counted};

use crate::forwarding::forward_word;
use crate::spaces::Spaces;
use crate::tracing::{trace_full, trace_minor};
use m3_base::NoMemory;
use m3_heap::{Half, Maps, Marks, Steps};
use std::alloc::Global;
use std::marker::Model;
use std::mem;
use std::snapshot::Snapshot;
use std::sync::ledger::Ledger;

/// Where the two halves begin, and the nursery.
const FIRST_BASE: u64 = 1 << 60;

const SECOND_BASE: u64 = 1 << 61;

const NURSERY_BASE: u64 = 1 << 62;

/// Two halves of old cells, one of them in use, a nursery of young ones, and marks for the words
/// of old cells that were set since the last collection.
#[derive(Drop)]
pub struct Generations {
    spaces: Spaces,
    remembered: Marks,
    is_open: bool,
    left: Snapshot<Spaces>,
    asked: u64,
    minors: u64,
    fulls: u64,
}

impl Model for Generations {
    ghost use Rattle.m3_generational.specs.Remembering.{Remembering};

    ghost Value = { Remembering };

    ghost use Rattle.m3_generational.specs.Inside.{seen, IsGenerations};

    ghost view = { seen };

    ghost invariant = { IsGenerations };
}

impl Generations {
    ghost use Rattle.m3_generational.specs.Remembering.{new_generations, AreForgotten};

    /// No cells yet. Both halves have so many words, and the nursery has a quarter of that.
    pub fn new(alloc: Global, words: u64) -> Result<Generations, NoMemory>
        requires at_least { 64 ≤ words }
        requires at_most { words ≤ 67108864 }
        ensures heap { IfOk result (λ generations. generations.heap ≡ new_generations words) }
        ensures remembered { IfOk result (λ generations. AreForgotten generations.remembered) }
    {
        let here = Half::new(alloc, FIRST_BASE, words as usize)?;
        let there = Half::new(alloc, SECOND_BASE, words as usize)?;
        let nursery = Half::new(alloc, NURSERY_BASE, (words / 4) as usize)?;
        let remembered = Marks::new(alloc, words as usize)?;
        let found = Snapshot::of(&here);
        let spaces = Spaces {
            here,
            there,
            nursery,
            is_minor: false,
            tenured: 0,
            found,
        };
        let left = Snapshot::of(&spaces);
        Ok(Generations {
            spaces,
            remembered,
            is_open: false,
            left,
            asked: 0,
            minors: 0,
            fulls: 0,
        })
    }
}

// A count that stops at the end of its type.
fn one_more(count: u64) -> u64
    ensures { result ≡ counted count }
{
    if count == u64::MAX { count } else { count + 1 }
}

impl Generations {
    ghost use Rattle.m3_heap.specs.Cells.{cell_word_at, is_writable, with_word};
    ghost use Rattle.m3_heap.specs.Heap.{IsSoundHeap, SameSizes, Allots, HasOtherWords, is_minor};
    ghost use Rattle.m3_heap.specs.Moves.{staying, forwarded, with_kept, kept_words, kept_starts};
    ghost use Rattle.m3_heap.specs.Reach.{IsBadPointer, HasBadPointer};
    ghost use Rattle.m3_heap.specs.Shapes.{Shape};
    ghost use Rattle.m3_generational.specs.Remembering.{HasNursery, Fits, Finishes};
    ghost use Rattle.m3_generational.specs.Remembering.{remembered_after};

    /// As `free_words` of a store.
    pub fn free_words(&self) -> u64
        requires closed { self.now.heap.is_open ≡ false }
        ensures free { result ≡ self.now.heap.free }
        ensures small { result ≤ 67108864 }
    {
        let young = self.spaces.nursery.total();
        let room = self.spaces.here.free() - young;
        if young == 0 {
            room
        } else {
            self.spaces.nursery.free().min(room)
        }
    }

    /// As `load` of a store.
    #[inline]
    pub fn load(&self, at: u64) -> Option<u64>
        requires closed { self.now.heap.is_open ≡ false }
        ensures { result ≡ cell_word_at self.now.heap.cells at }
    {
        if at < NURSERY_BASE {
            self.spaces.here.word(at)
        } else {
            self.spaces.nursery.word(at)
        }
    }

    // Sets a word of a young cell.
    #[inline]
    fn set_young(&mut self, at: u64, word: u64) -> bool
        requires closed { self.old.heap.is_open ≡ false }
        requires high { 4611686018427387904 ≤ at }
        ensures value { result ≡ is_writable self.old.heap.cells at }
        ensures cells { self.new.heap.cells
            ≡ (if result then with_word self.old.heap.cells at word else self.old.heap.cells) }
        ensures remembered { self.new.remembered ≡ remembered_after self.old at result }
        ensures rest { HasOtherWords self.old.heap self.new.heap }
        ensures fitting { (shapes : List Shape) → Fits shapes self.old → Fits shapes self.new }
        ensures sound { IsSoundHeap self.new.heap }
        ensures nursery { HasNursery self.new.heap }
    {
        self.spaces.nursery.replace(at, word)
    }

    // Sets a word of an old cell, and remembers it.
    #[inline]
    fn set_old(&mut self, at: u64, word: u64) -> bool
        requires closed { self.old.heap.is_open ≡ false }
        requires low { at < 4611686018427387904 }
        ensures value { result ≡ is_writable self.old.heap.cells at }
        ensures cells { self.new.heap.cells
            ≡ (if result then with_word self.old.heap.cells at word else self.old.heap.cells) }
        ensures remembered { self.new.remembered ≡ remembered_after self.old at result }
        ensures rest { HasOtherWords self.old.heap self.new.heap }
        ensures fitting { (shapes : List Shape) → Fits shapes self.old → Fits shapes self.new }
        ensures sound { IsSoundHeap self.new.heap }
        ensures nursery { HasNursery self.new.heap }
    {
        if !self.spaces.here.replace(at, word) {
            return false;
        }
        self.remembered.set((at - self.spaces.here.base()) as usize);
        true
    }

    /// As `store` of a store. A word of an old cell is remembered.
    #[inline]
    pub fn store(&mut self, at: u64, word: u64) -> bool
        requires closed { self.old.heap.is_open ≡ false }
        ensures value { result ≡ is_writable self.old.heap.cells at }
        ensures cells { self.new.heap.cells
            ≡ (if result then with_word self.old.heap.cells at word else self.old.heap.cells) }
        ensures remembered { self.new.remembered ≡ remembered_after self.old at result }
        ensures rest { HasOtherWords self.old.heap self.new.heap }
        ensures fitting { (shapes : List Shape) → Fits shapes self.old → Fits shapes self.new }
        ensures sound { IsSoundHeap self.new.heap }
        ensures nursery { HasNursery self.new.heap }
    {
        if at < NURSERY_BASE {
            self.set_old(at, word)
        } else {
            self.set_young(at, word)
        }
    }

    // Opens a collection of the young cells alone.
    fn begin_minor(&mut self)
        requires closed { self.old.heap.is_open ≡ false }
        requires minor { is_minor self.old.heap ≡ true }
        ensures opened { self.new.heap
            ≡ record self.old.heap { is_open = true; moves = staying self.old.heap.tenured } }
        ensures remembered { self.new.remembered ≡ self.old.remembered }
        ensures sound { IsSoundHeap self.new.heap }
        ensures nursery { HasNursery self.new.heap }
    {
        self.spaces.found = Snapshot::of(&self.spaces.here);
        self.spaces.tenured = self.spaces.here.total();
        self.spaces.is_minor = true;
        self.is_open = true;
    }

    // Opens a collection of all cells.
    fn begin_full(&mut self)
        requires closed { self.old.heap.is_open ≡ false }
        requires full { is_minor self.old.heap ≡ false }
        ensures opened { self.new.heap
            ≡ record self.old.heap { is_open = true; moves = staying self.old.heap.tenured } }
        ensures remembered { self.new.remembered ≡ self.old.remembered }
        ensures sound { IsSoundHeap self.new.heap }
        ensures nursery { HasNursery self.new.heap }
    {
        self.spaces.there.clear();
        self.spaces.is_minor = false;
        self.is_open = true;
    }

    /// As `begin` of a store: of a collection of the young cells alone, where the half in use has
    /// room for all cells and for what was asked for.
    pub fn begin(&mut self)
        requires closed { self.old.heap.is_open ≡ false }
        ensures opened { self.new.heap
            ≡ record self.old.heap { is_open = true; moves = staying self.old.heap.tenured } }
        ensures remembered { self.new.remembered ≡ self.old.remembered }
        ensures sound { IsSoundHeap self.new.heap }
        ensures nursery { HasNursery self.new.heap }
    {
        if self.asked <= self.spaces.here.free() - self.spaces.nursery.total() {
            self.begin_minor();
        } else {
            self.begin_full();
        }
    }

    /// As `visit` of a store.
    pub fn visit<L: Ledger>(&mut self, word: u64, steps: &mut Steps<L>) -> Option<u64>
        requires open { self.old.heap.is_open ≡ true }
        ensures none { IsNone result ↔ IsBadPointer self.old.heap.cells word }
        ensures value { IfSome result (λ to. to ≡ forwarded self.new.heap.moves word) }
        ensures kept { IfSome result
            (λ to. self.new.heap
            ≡ record self.old.heap { moves = with_kept self.old.heap.moves word to }) }
        ensures refused { IfNone result (self.new.heap ≡ self.old.heap) }
        ensures cost { steps.new + kept_words self.old.heap.cells self.old.heap.moves
            ≡ steps.old + 1 + kept_words self.old.heap.cells self.new.heap.moves }
        ensures remembered { self.new.remembered ≡ self.old.remembered }
        ensures sound { IsSoundHeap self.new.heap }
        ensures nursery { HasNursery self.new.heap }
    {
        steps.tick();
        forward_word(&mut self.spaces, word, steps)
    }

    // Ends a collection of all cells: the other half is in use from then on.
    fn finish_full<M: Maps, L: Ledger>(&mut self, maps: &M, steps: &mut Steps<L>) -> bool
        requires open { self.old.heap.is_open ≡ true }
        requires full { is_minor self.old.heap ≡ false }
        ensures bad { result ≡ false
            → HasBadPointer (M.shapes maps.now) self.old.heap.cells
            (kept_starts self.old.heap.moves) }
        ensures done { OnTrue result
            (Finishes (M.shapes maps.now) self.old self.new steps.old steps.new) }
        ensures closed { self.new.heap.is_open ≡ false }
        ensures asked { self.new.heap.asked ≡ 0 }
        ensures sizes { SameSizes self.old.heap self.new.heap }
        ensures sound { IsSoundHeap self.new.heap }
        ensures nursery { HasNursery self.new.heap }
    {
        let is_traced = trace_full(&mut self.spaces, maps, steps);
        self.is_open = false;
        self.asked = 0;
        self.remembered.clear(self.spaces.here.size() as usize);
        if !is_traced {
            self.spaces.here.clear();
            self.spaces.nursery.clear();
            return false;
        }
        self.left = Snapshot::of(&self.spaces);
        mem::swap(&mut self.spaces.here, &mut self.spaces.there);
        self.spaces.nursery.clear();
        self.fulls = one_more(self.fulls);
        true
    }

    // Ends a collection of the young cells alone: those that are kept lie behind the old ones.
    fn finish_minor<M: Maps, L: Ledger>(&mut self, maps: &M, steps: &mut Steps<L>) -> bool
        requires open { self.old.heap.is_open ≡ true }
        requires fitting { Fits (M.shapes maps.now) self.old }
        requires minor { is_minor self.old.heap ≡ true }
        ensures bad { result ≡ false
            → HasBadPointer (M.shapes maps.now) self.old.heap.cells
            (kept_starts self.old.heap.moves) }
        ensures done { OnTrue result
            (Finishes (M.shapes maps.now) self.old self.new steps.old steps.new) }
        ensures closed { self.new.heap.is_open ≡ false }
        ensures asked { self.new.heap.asked ≡ 0 }
        ensures sizes { SameSizes self.old.heap self.new.heap }
        ensures sound { IsSoundHeap self.new.heap }
        ensures nursery { HasNursery self.new.heap }
    {
        let is_traced = trace_minor(&mut self.spaces, &self.remembered, maps, steps);
        self.is_open = false;
        self.asked = 0;
        self.remembered.clear(self.spaces.here.size() as usize);
        if !is_traced {
            self.spaces.here.clear();
            self.spaces.nursery.clear();
            return false;
        }
        self.left = Snapshot::of(&self.spaces);
        self.spaces.nursery.clear();
        self.minors = one_more(self.minors);
        true
    }

    /// As `finish` of a store.
    pub fn finish<M: Maps, L: Ledger>(&mut self, maps: &M, steps: &mut Steps<L>) -> bool
        requires open { self.old.heap.is_open ≡ true }
        requires fitting { Fits (M.shapes maps.now) self.old }
        ensures bad { result ≡ false
            → HasBadPointer (M.shapes maps.now) self.old.heap.cells
            (kept_starts self.old.heap.moves) }
        ensures done { OnTrue result
            (Finishes (M.shapes maps.now) self.old self.new steps.old steps.new) }
        ensures closed { self.new.heap.is_open ≡ false }
        ensures asked { self.new.heap.asked ≡ 0 }
        ensures sizes { SameSizes self.old.heap self.new.heap }
        ensures sound { IsSoundHeap self.new.heap }
        ensures nursery { HasNursery self.new.heap }
    {
        if self.spaces.is_minor {
            self.finish_minor(maps, steps)
        } else {
            self.finish_full(maps, steps)
        }
    }

    /// How many collections kept the old cells unasked.
    pub fn minors(&self) -> u64
        ensures { result ≡ self.now.heap.minors }
    {
        self.minors
    }

    /// How many collections kept no cell unasked.
    pub fn fulls(&self) -> u64
        ensures { result ≡ self.now.heap.fulls }
    {
        self.fulls
    }

    // A new cell in the nursery.
    fn make_young(&mut self, kind: u32, words: u64) -> u64
        requires closed { self.old.heap.is_open ≡ false }
        requires some { 1 ≤ words }
        requires room { words ≤ self.old.heap.free }
        requires small { words ≤ 67108864 }
        requires fits { words ≤ self.old.heap.nursery }
        ensures allots { Allots self.old.heap kind words (Some result) self.new.heap }
        ensures remembered { self.new.remembered ≡ self.old.remembered }
        ensures fitting { (shapes : List Shape) → Fits shapes self.old → Fits shapes self.new }
        ensures sound { IsSoundHeap self.new.heap }
        ensures nursery { HasNursery self.new.heap }
    {
        let header = u64::from(kind) + words * (1 << 32);
        self.spaces.nursery.append_zeroed(header, words)
    }

    // A new cell that the nursery can't hold.
    fn make_old(&mut self, kind: u32, words: u64) -> u64
        requires closed { self.old.heap.is_open ≡ false }
        requires some { 1 ≤ words }
        requires room { words ≤ self.old.heap.free }
        requires small { words ≤ 67108864 }
        requires large { self.old.heap.nursery < words }
        ensures allots { Allots self.old.heap kind words (Some result) self.new.heap }
        ensures remembered { self.new.remembered ≡ self.old.remembered }
        ensures fitting { (shapes : List Shape) → Fits shapes self.old → Fits shapes self.new }
        ensures sound { IsSoundHeap self.new.heap }
        ensures nursery { HasNursery self.new.heap }
    {
        let header = u64::from(kind) + words * (1 << 32);
        self.spaces.here.append_zeroed(header, words)
    }

    // A request that has no room.
    fn refuse(&mut self, words: u64)
        requires closed { self.old.heap.is_open ≡ false }
        requires full { self.old.heap.free < words }
        ensures allots { (kind : ℕ) → Allots self.old.heap kind words None self.new.heap }
        ensures remembered { self.new.remembered ≡ self.old.remembered }
        ensures fitting { (shapes : List Shape) → Fits shapes self.old → Fits shapes self.new }
        ensures sound { IsSoundHeap self.new.heap }
        ensures nursery { HasNursery self.new.heap }
    {
        self.asked = words;
    }

    /// As `allocate` of a store. A cell that the nursery could hold is young, a larger one old.
    pub fn allocate(&mut self, kind: u32, words: u64) -> Option<u64>
        requires closed { self.old.heap.is_open ≡ false }
        requires some { 1 ≤ words }
        ensures allots { Allots self.old.heap kind words result self.new.heap }
        ensures remembered { self.new.remembered ≡ self.old.remembered }
        ensures fitting { (shapes : List Shape) → Fits shapes self.old → Fits shapes self.new }
        ensures sound { IsSoundHeap self.new.heap }
        ensures nursery { HasNursery self.new.heap }
    {
        if words > self.free_words() {
            self.refuse(words);
            return None;
        }
        if words <= self.spaces.nursery.size() {
            Some(self.make_young(kind, words))
        } else {
            Some(self.make_old(kind, words))
        }
    }
}
