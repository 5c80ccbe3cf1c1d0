ghost use Rattle.std.specs.Int.{bit_at};
ghost use Rattle.std.specs.Prelude.{◌≡◌, ◌≢◌, ℕ, ◌<◌, ◌≤◌, true, false, length, slice_index_or};
ghost use Rattle.std.specs.Prelude.{slice_set, IfOk};

use m3_base::NoMemory;
use std::alloc::Global;
use std::marker::Model;

/// A row of marks, one bit each. Contracts see a list of truth values.
#[derive(Drop)]
pub struct Marks {
    bits: Vec<u64>,
    count: usize,
}

impl Model for Marks {
    ghost use Rattle.std.specs.Prelude.{List, Bool, ◌≤◌, ◌*◌, length};
    ghost use Rattle.m3_heap.specs.CollectorMarks.{marks_in};

    ghost Value = { List Bool };

    ghost view = { λ m. marks_in m.bits.items m.count };

    ghost invariant = { λ m. m.count ≤ 64 * length m.bits.items };
}

// The word with one bit set.
fn with_bit(word: u64, place: usize) -> u64
    requires { place < 64 }
    ensures here { bit_at result place ≡ 1 }
    ensures others { (k : ℕ) → k < 64 → k ≢ place → bit_at result k ≡ bit_at word k }
{
    word | 1 << place
}

impl Marks {
    /// So many marks, none of them set.
    pub fn new(alloc: Global, count: usize) -> Result<Marks, NoMemory>
        ensures length { IfOk result (λ marks. length marks ≡ count) }
        ensures clear { IfOk result (λ marks. (k : ℕ) → slice_index_or marks k false ≡ false) }
    {
        let bits = vec![in alloc; 0u64; count / 64 + 1]?;
        Ok(Marks { bits, count })
    }

    /// The mark at a place.
    #[inline]
    pub fn get(&self, i: usize) -> bool
        requires { i < length self.now }
        ensures { result ≡ slice_index_or self.now i false }
    {
        (self.bits[i / 64] >> (i % 64)) & 1 == 1
    }

    /// Sets the mark at a place.
    #[inline]
    pub fn set(&mut self, i: usize)
        requires { i < length self.old }
        ensures { self.new ≡ slice_set self.old i true }
    {
        let place = i / 64;
        let word = self.bits[place];
        self.bits[place] = with_bit(word, i % 64);
    }

    /// The first place from one on that is marked, or the number of marks.
    pub fn next(&self, from: usize) -> usize
        requires { from ≤ length self.now }
        ensures from { from ≤ result }
        ensures end { result ≤ length self.now }
        ensures between { (k : ℕ) → from ≤ k → k < result → slice_index_or self.now k false
            ≡ false }
        ensures there { result < length self.now → slice_index_or self.now result false ≡ true }
    {
        let count = self.count;
        let mut at = from;
        while at < count {
            if at % 64 == 0 && count - at >= 64 && self.bits[at / 64] == 0 {
                at += 64;
            } else if self.get(at) {
                return at;
            } else {
                at += 1;
            }
        }
        at
    }

    /// The last place up to one that is marked, where the first of all is.
    pub fn last(&self, from: usize) -> usize
        requires within { from < length self.now }
        requires first { slice_index_or self.now 0 false ≡ true }
        ensures from { result ≤ from }
        ensures there { slice_index_or self.now result false ≡ true }
        ensures between { (k : ℕ) → result < k → k ≤ from → slice_index_or self.now k false
            ≡ false }
    {
        let mut at = from;
        while !self.get(at) {
            if at % 64 == 63 && at > 63 && self.bits[at / 64] == 0 {
                at -= 64;
            } else {
                at -= 1;
            }
        }
        at
    }

    /// Clears all marks, where none is set from a place on.
    pub fn clear(&mut self, end: usize)
        requires end { end ≤ length self.old }
        requires rest { (k : ℕ) → end ≤ k → slice_index_or self.old k false ≡ false }
        ensures length { length self.new ≡ length self.old }
        ensures clear { (k : ℕ) → slice_index_or self.new k false ≡ false }
    {
        for place in 0..end.div_ceil(64) {
            self.bits[place] = 0;
        }
    }
}
