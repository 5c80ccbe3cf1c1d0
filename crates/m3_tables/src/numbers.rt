//! Numbers in bytes, the lowest byte first.
ghost use Rattle.std.specs.Prelude.{◌≡◌, ◌*◌, ◌≤◌, ◌<◌, ◌+◌, length, slice_index};
ghost use Rattle.m3_tables.specs.Numbers.{word_in, half_in, numbers};

use byteorder::{ByteOrder, LittleEndian};

/// The number in the first four bytes.
#[tactic(auto, unfolding(crate::specs::Numbers::word_in))]
pub fn word(bytes: &[u8]) -> u32
    requires { 4 ≤ length bytes.now }
    ensures { result ≡ word_in bytes.now }
{
    LittleEndian::read_u32(bytes)
}

/// The number in the first two bytes.
#[tactic(auto, unfolding(crate::specs::Numbers::half_in))]
pub(crate) fn half(bytes: &[u8]) -> u16
    requires { 2 ≤ length bytes.now }
    ensures { result ≡ half_in bytes.now }
{
    LittleEndian::read_u16(bytes)
}

/// Numbers of four bytes each, one after the other, and perhaps bytes after them.
#[derive(Clone, Copy)]
pub struct Numbers<'a> {
    pub(crate) count: usize,
    pub(crate) bytes: &'a [u8],
    ghost held: { 4 * count ≤ length bytes.now },
}

impl<'a> Iterator for Numbers<'a> {
    type Item = u32;

    ghost use Rattle.std.specs.Iterator.{YieldsFirst, item_count};
    ghost use Rattle.m3_tables.specs.Views.{numbers_of};

    ghost next_gives = { YieldsFirst numbers_of };

    ghost remaining = { item_count numbers_of };

    fn next(&mut self) -> Option<u32> {
        if self.count == 0 {
            return None;
        }
        let first = word(self.bytes);
        *self = Numbers {
            count: self.count - 1,
            bytes: &self.bytes[4..],
        };
        Some(first)
    }
}

impl<'a> Numbers<'a> {
    ghost use Rattle.std.specs.Prelude.{IsTrue, ◌==◌};
    ghost use Rattle.std.specs.List.{slice_get};
    ghost use Rattle.m3_tables.specs.Numbers.{has, rises};
    ghost use Rattle.m3_tables.specs.Views.{numbers_of};

    /// The number at a place, from 0.
    fn at(&self, place: usize) -> u32
        requires { place < self.now.count }
        ensures { result ≡ slice_index (numbers_of self.now) place }
    {
        word(&self.bytes[4 * place..])
    }

    /// The number at a place, from 0. None exactly past the last.
    pub fn get(&self, place: usize) -> Option<u32>
        ensures { result ≡ slice_get (numbers_of self.now) place }
    {
        if place < self.count {
            Some(self.at(place))
        } else {
            None
        }
    }

    /// Whether there is no number.
    pub fn is_empty(&self) -> bool
        ensures { result ≡ (length (numbers_of self.now) == 0) }
    {
        self.count == 0
    }

    /// Whether each number is above the one before.
    pub fn rises(&self) -> bool
        ensures { result ≡ rises (numbers_of self.now) }
    {
        for place in 1..self.count {
            if self.at(place) <= self.at(place - 1) {
                return false;
            }
        }
        true
    }

    /// Whether a number stands in a list that rises.
    pub fn has(&self, number: u32) -> bool
        requires { IsTrue (rises (numbers_of self.now)) }
        ensures { result ≡ has (numbers_of self.now) number }
    {
        let mut low = 0;
        let mut high = self.count;
        while low < high {
            let middle = low + (high - low) / 2;
            let found = self.at(middle);
            if found == number {
                return true;
            }
            if found < number {
                low = middle + 1;
            } else {
                high = middle;
            }
        }
        false
    }
}
