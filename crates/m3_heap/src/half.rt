ghost use Rattle.std.specs.Prelude.{◌≡◌, ℕ, ◌+◌, ◌-◌, ◌^◌, ◌<◌, ◌≤◌, true, List, [], ◌∷◌, ◌++◌};
ghost use Rattle.std.specs.Prelude.{length, take, drop, replicate, IfOk, IfSome, is_some};
ghost use Rattle.std.specs.Prelude.{if◌then◌else◌, vec_items, vec_len, vec_capacity};
ghost use Rattle.m3_heap.specs.Cells.{header, is_start, is_writable, cell_word_at, words_from};
ghost use Rattle.m3_heap.specs.Cells.{with_word, total_words};
ghost use Rattle.m3_heap.specs.CollectorSpace.{AreLaid};
ghost use Rattle.m3_heap.specs.CollectorMoving.{CanMove, MovesCell};

use crate::marks::Marks;
use crate::steps::Steps;
use m3_base::NoMemory;
use std::alloc::Global;
use std::marker::Model;
use std::sync::ledger::Ledger;

/// The first address of heaps: a word from here on is a reference or nothing.
pub const HEAP_BASE: u64 = 1 << 60;

/// How many words more than are needed are cleared at once.
const AHEAD: usize = 4096;

/// One half of a heap's memory. Its cells follow one another from its first address on, and one
/// mark for each word tells where a cell starts. All of its memory is taken when it is made, but a
/// word is cleared only when cells come near it.
#[derive(Drop)]
pub struct Half {
    base: u64,
    size: usize,
    used: usize,
    words: Vec<u64>,
    starts: Marks,
}

impl Model for Half {
    ghost use Rattle.m3_heap.specs.CollectorSpace.{Space};

    ghost Value = { Space };

    ghost use Rattle.m3_heap.specs.CollectorHalf.{space_of, IsHalf};

    ghost view = { space_of };

    ghost invariant = { IsHalf };
}

// Clears words up to an end, and some behind it, of so many that there may be. It takes no memory.
#[cold]
#[inline(never)]
fn clear_to(words: &mut Vec<u64>, end: usize, size: usize)
    requires more { vec_len words.old < end }
    requires end { end ≤ size }
    requires room { size ≤ vec_capacity words.old }
    ensures words { (count : ℕ) × (vec_items words.new ≡ vec_items words.old ++ replicate count 0) }
    ensures end { end ≤ vec_len words.new }
    ensures within { vec_len words.new ≤ size }
    ensures room { size ≤ vec_capacity words.new }
{
    words.resize(end + AHEAD.min(size - end), 0).unwrap();
}

// A header and zeros.
fn write_cell(words: &mut [u64], at: usize, end: usize, header: u64)
    requires some { at < end }
    requires room { end ≤ length words.old }
    ensures length { length words.new ≡ length words.old }
    ensures words { take end words.new
        ≡ take at words.old ++ header ∷ replicate (end - (at + 1)) 0 }
{
    words[at] = header;
    words[at + 1..end].fill(0);
}

// So many words of a source, from a place on.
fn copy_words(words: &mut [u64], at: usize, source: &[u64], first: usize, count: usize)
    requires room { at + count ≤ length words.old }
    requires there { first + count ≤ length source.now }
    ensures length { length words.new ≡ length words.old }
    ensures words { take (at + count) words.new
        ≡ take at words.old ++ take count (drop first source.now) }
{
    words[at..at + count].copy_from_slice(&source[first..first + count]);
}

impl Half {
    /// A half of so many words without cells, from an address on.
    pub fn new(alloc: Global, base: u64, words: usize) -> Result<Half, NoMemory>
        requires { base + words ≤ 2 ^ 63 }
        ensures { IfOk result (λ half. half ≡ record { base = base; size = words; cells = [] }) }
    {
        Ok(Half {
            base,
            size: words,
            used: 0,
            words: Vec::with_capacity(alloc, words)?,
            starts: Marks::new(alloc, words)?,
        })
    }

    /// The first address.
    pub fn base(&self) -> u64
        ensures { result ≡ self.now.base }
    {
        self.base
    }

    /// How many words it has.
    pub fn size(&self) -> u64
        ensures { result ≡ self.now.size }
    {
        self.size as u64
    }

    /// The words of all cells.
    pub fn total(&self) -> u64
        ensures total { result ≡ total_words self.now.cells }
        ensures room { result ≤ self.now.size }
        ensures laid { AreLaid self.now.base self.now.cells }
        ensures small { self.now.base + self.now.size ≤ 2 ^ 63 }
    {
        self.used as u64
    }

    /// The words that no cell has.
    pub fn free(&self) -> u64
        ensures { result + total_words self.now.cells ≡ self.now.size }
    {
        (self.size - self.used) as u64
    }

    /// The word at an address. None comes exactly outside a cell.
    #[inline]
    pub fn word(&self, at: u64) -> Option<u64>
        ensures { result ≡ cell_word_at self.now.cells at }
    {
        let place = at.wrapping_sub(self.base);
        if place < self.used as u64 {
            Some(self.words[place as usize])
        } else {
            None
        }
    }

    /// Word 0 of the cell that starts at an address. None comes exactly where none does.
    #[inline]
    pub fn header(&self, at: u64) -> Option<u64>
        ensures starts { is_some result ≡ is_start self.now.cells at }
        ensures value { IfSome result (λ first. first ≡ header (words_from self.now.cells at)) }
    {
        let place = at.wrapping_sub(self.base);
        if place < self.used as u64 && self.starts.get(place as usize) {
            Some(self.words[place as usize])
        } else {
            None
        }
    }

    /// Where the cell starts that has a word at an address.
    pub fn start_of(&self, at: u64) -> u64
        requires { is_some (cell_word_at self.now.cells at) ≡ true }
        ensures starts { is_start self.now.cells result ≡ true }
        ensures low { result ≤ at }
        ensures within { at < result + length (words_from self.now.cells result) }
    {
        let place = (at - self.base) as usize;
        self.base + self.starts.last(place) as u64
    }

    /// Sets the word at an address, and says whether it did: it doesn't outside a cell and at a
    /// header.
    #[inline]
    pub fn replace(&mut self, at: u64, word: u64) -> bool
        ensures base { self.new.base ≡ self.old.base }
        ensures size { self.new.size ≡ self.old.size }
        ensures answer { result ≡ is_writable self.old.cells at }
        ensures cells { self.new.cells
            ≡ (if result then with_word self.old.cells at word else self.old.cells) }
    {
        let place = at.wrapping_sub(self.base);
        if place >= self.used as u64 || self.starts.get(place as usize) {
            return false;
        }
        self.words[place as usize] = word;
        true
    }

    /// Sets the word at an address, if it is a cell's.
    #[inline]
    pub fn put(&mut self, at: u64, word: u64)
        ensures base { self.new.base ≡ self.old.base }
        ensures size { self.new.size ≡ self.old.size }
        ensures cells { self.new.cells ≡ with_word self.old.cells at word }
    {
        let place = at.wrapping_sub(self.base);
        if place < self.used as u64 {
            self.words[place as usize] = word;
        }
    }

    /// Adds a cell with a header and zeros after the last one, and tells where it starts.
    pub fn append_zeroed(&mut self, header: u64, count: u64) -> u64
        requires some { 1 ≤ count }
        requires room { total_words self.old.cells + count ≤ self.old.size }
        ensures start { result ≡ self.old.base + total_words self.old.cells }
        ensures base { self.new.base ≡ self.old.base }
        ensures size { self.new.size ≡ self.old.size }
        ensures cells { self.new.cells
            ≡ self.old.cells ++ record { start = result; words = header ∷ replicate (count - 1) 0 }
            ∷ [] }
    {
        let at = self.used;
        let end = at + count as usize;
        self.starts.set(at);
        if self.words.len() < end {
            clear_to(&mut self.words, end, self.size);
        }
        write_cell(&mut self.words, at, end, header);
        self.used = end;
        self.base + at as u64
    }

    /// Adds a copy of a cell of another half after the last one, and tells where it starts.
    pub fn append_copy(&mut self, source: &Half, from: u64, count: u64) -> u64
        requires starts { is_start source.now.cells from ≡ true }
        requires words { length (words_from source.now.cells from) ≡ count }
        requires room { total_words self.old.cells + count ≤ self.old.size }
        ensures start { result ≡ self.old.base + total_words self.old.cells }
        ensures base { self.new.base ≡ self.old.base }
        ensures size { self.new.size ≡ self.old.size }
        ensures cells { self.new.cells
            ≡ self.old.cells ++ record { start = result; words = words_from source.now.cells from }
            ∷ [] }
    {
        let at = self.used;
        let end = at + count as usize;
        let first = (from - source.base) as usize;
        self.starts.set(at);
        if self.words.len() < end {
            clear_to(&mut self.words, end, self.size);
        }
        copy_words(&mut self.words, at, &source.words, first, count as usize);
        self.used = end;
        self.base + at as u64
    }

    /// Moves the cell that starts at an address behind the last one of another half, unless it was
    /// moved before, and tells its new start: its header gives way to that, which no header
    /// reaches (Cheney 1970). None comes exactly where no cell starts there. It takes a step for
    /// each word that is copied.
    pub fn move_cell<L: Ledger>(
        &mut self,
        to: &mut Half,
        at: u64,
        steps: &mut Steps<L>,
    ) -> Option<u64>
        requires { CanMove self.old to.old at }
        ensures { MovesCell self.old to.old at steps.old result self.new to.new steps.new }
    {
        let header = self.header(at)?;
        if header >= HEAP_BASE {
            return Some(header);
        }
        let words = header >> 32;
        let start = to.append_copy(self, at, words);
        self.put(at, start);
        steps.add(words);
        Some(start)
    }

    /// Leaves no cell.
    pub fn clear(&mut self)
        ensures base { self.new.base ≡ self.old.base }
        ensures size { self.new.size ≡ self.old.size }
        ensures cells { self.new.cells ≡ [] }
    {
        self.starts.clear(self.used);
        self.used = 0;
    }
}
