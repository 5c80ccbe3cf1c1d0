//! Things one after the other in bytes: numbers, procedures, places and names.
ghost use Rattle.std.specs.Prelude.{◌≡◌, ◌≤◌, ◌<◌, ◌*◌, ◌^◌, length, IfSome};
ghost use Rattle.std.specs.Option.{option_map};
ghost use Rattle.m3_image_sections.specs.Fields.{long_in, byte_at, text_at, past_many};

use byteorder::{ByteOrder, LittleEndian};
use m3_tables::{word, word_at};

/// The number in the first eight bytes, the lowest byte first.
#[tactic(auto, unfolding(crate::specs::Fields::long_in))]
pub fn long(bytes: &[u8]) -> u64
    requires { 8 ≤ length bytes.now }
    ensures { result ≡ long_in bytes.now }
{
    LittleEndian::read_u64(bytes)
}

/// One byte, and the bytes after it.
pub fn byte_at(bytes: &[u8]) -> Option<(u8, &[u8])>
    ensures { option_map (λ x. (x.0, x.1.now)) result ≡ byte_at bytes.now }
{
    let [first, rest @ ..] = bytes else {
        return None;
    };
    Some((*first, rest))
}

/// Bytes behind their count, and the bytes after them.
#[tactic(auto, unfolding(crate::specs::Fields::text_at))]
pub fn text_at(bytes: &[u8]) -> Option<(&[u8], &[u8])>
    ensures found { option_map (λ x. (x.0.now, x.1.now)) result ≡ text_at bytes.now }
    ensures small { IfSome result (λ x. length x.0.now < 2 ^ 32) }
{
    let (length, rest) = word_at(bytes)?;
    let length = length as usize;
    if rest.len() < length {
        return None;
    }
    Some((&rest[..length], &rest[length..]))
}

/// Numbers of eight bytes, one after the other.
#[derive(Clone, Copy)]
pub struct Longs<'a> {
    pub count: usize,
    pub bytes: &'a [u8],
    ghost held: { 8 * count ≤ length bytes.now },
}

/// Pairs of numbers of four bytes, one after the other.
#[derive(Clone, Copy)]
pub struct Pairs<'a> {
    pub count: usize,
    pub bytes: &'a [u8],
    ghost held: { 8 * count ≤ length bytes.now },
}

/// Names one after the other, as far as the bytes hold them.
#[derive(Clone, Copy)]
pub struct Names<'a> {
    pub count: u32,
    pub bytes: &'a [u8],
}

impl<'a> Longs<'a> {
    ghost use Rattle.std.specs.List.{slice_get};
    ghost use Rattle.m3_image_sections.specs.Fields.{counted_at};
    ghost use Rattle.m3_image_sections.specs.PartViews.{longs_of};

    /// How many numbers there are.
    #[tactic(auto, using(crate::proofs::ListLemmas::length_each))]
    pub fn len(&self) -> usize
        ensures { result ≡ length (longs_of self.now) }
    {
        self.count
    }

    /// The number at a place, from 0. None exactly past the last.
    pub fn get(&self, place: u32) -> Option<u64>
        ensures { result ≡ slice_get (longs_of self.now) place }
    {
        let place = place as usize;
        if place >= self.count {
            return None;
        }
        Some(long(&self.bytes[8 * place..]))
    }

    /// Numbers behind their count, and the bytes after them.
    #[tactic(auto, unfolding(crate::specs::Fields::counted_at))]
    pub fn at(bytes: &'a [u8]) -> Option<(Longs<'a>, &'a [u8])>
        ensures { option_map (λ x. (longs_of x.0, x.1.now)) result ≡ counted_at 8 long_in bytes.now }
    {
        let (count, rest) = word_at(bytes)?;
        let count = count as usize;
        if rest.len() < 8 * count {
            return None;
        }
        Some((Longs { count, bytes: rest }, &rest[8 * count..]))
    }
}

impl<'a> Pairs<'a> {
    ghost use Rattle.std.specs.List.{slice_get};
    ghost use Rattle.m3_image_sections.specs.Fields.{counted_at};
    ghost use Rattle.m3_image_sections.specs.Parts.{pair_in};
    ghost use Rattle.m3_image_sections.specs.PartViews.{pairs_of};

    /// How many pairs there are.
    #[tactic(auto, using(crate::proofs::ListLemmas::length_each))]
    pub fn len(&self) -> usize
        ensures { result ≡ length (pairs_of self.now) }
    {
        self.count
    }

    /// The pair at a place, from 0. None exactly past the last.
    pub fn get(&self, place: u32) -> Option<(u32, u32)>
        ensures { result ≡ slice_get (pairs_of self.now) place }
    {
        let place = place as usize;
        if place >= self.count {
            return None;
        }
        let pair = &self.bytes[8 * place..];
        Some((word(pair), word(&pair[4..])))
    }

    /// Pairs behind their count, and the bytes after them.
    #[tactic(auto, unfolding(crate::specs::Fields::counted_at))]
    pub fn at(bytes: &'a [u8]) -> Option<(Pairs<'a>, &'a [u8])>
        ensures { option_map (λ x. (pairs_of x.0, x.1.now)) result ≡ counted_at 8 pair_in bytes.now }
    {
        let (count, rest) = word_at(bytes)?;
        let count = count as usize;
        if rest.len() < 8 * count {
            return None;
        }
        Some((Pairs { count, bytes: rest }, &rest[8 * count..]))
    }
}

impl<'a> Iterator for Pairs<'a> {
    type Item = (u32, u32);

    ghost use Rattle.std.specs.Iterator.{YieldsFirst, item_count};
    ghost use Rattle.m3_image_sections.specs.PartViews.{pairs_of};

    ghost next_gives = { YieldsFirst pairs_of };

    ghost remaining = { item_count pairs_of };

    fn next(&mut self) -> Option<(u32, u32)> {
        if self.count == 0 {
            return None;
        }
        let first = (word(self.bytes), word(&self.bytes[4..]));
        *self = Pairs {
            count: self.count - 1,
            bytes: &self.bytes[8..],
        };
        Some(first)
    }
}

impl<'a> Iterator for Names<'a> {
    type Item = &'a [u8];

    ghost use Rattle.std.specs.Iterator.{YieldsFirstBy, item_count};
    ghost use Rattle.m3_image_sections.specs.PartViews.{names_of};

    ghost next_gives = { YieldsFirstBy (λ x. x.now) names_of };

    ghost remaining = { item_count names_of };

    fn next(&mut self) -> Option<&'a [u8]> {
        if self.count == 0 {
            return None;
        }
        let (first, rest) = text_at(self.bytes)?;
        *self = Names {
            count: self.count - 1,
            bytes: rest,
        };
        Some(first)
    }
}

/// The bytes after so many names.
fn past_names(count: u32, bytes: &[u8]) -> Option<&[u8]>
    ensures { option_map (λ x. x.now) result ≡ past_many text_at count bytes.now }
{
    let mut rest = bytes;
    for _ in 0..count {
        let (_, after) = text_at(rest)?;
        rest = after;
    }
    Some(rest)
}

impl<'a> Names<'a> {
    ghost use Rattle.std.specs.List.{slice_get};
    ghost use Rattle.m3_image_sections.specs.Fields.{many_at};
    ghost use Rattle.m3_image_sections.specs.PartViews.{names_of};

    /// Names behind their count, and the bytes after them.
    #[tactic(auto, unfolding(crate::specs::Fields::many_at), using(crate::proofs::ListLemmas::length_all))]
    pub fn at(bytes: &'a [u8]) -> Option<(Names<'a>, &'a [u8])>
        ensures found { option_map (λ x. (names_of x.0, x.1.now)) result ≡ many_at text_at bytes.now }
        ensures whole { IfSome result (λ x. length (names_of x.0) ≡ x.0.count) }
    {
        let (count, rest) = word_at(bytes)?;
        let after = past_names(count, rest)?;
        Some((Names { count, bytes: rest }, after))
    }

    /// The name at a place, from 0. None exactly past the last.
    pub fn get(&self, place: u32) -> Option<&'a [u8]>
        ensures { option_map (λ x. x.now) result ≡ slice_get (names_of self.now) place }
    {
        let mut names = *self;
        for _ in 0..place {
            names.next()?;
        }
        names.next()
    }
}
