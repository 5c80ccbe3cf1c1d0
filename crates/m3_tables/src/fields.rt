//! The fields of a row, read from the front of bytes. Each reader gives a view of the field and the
//! bytes after it, or None where the bytes don't hold it.
ghost use Rattle.std.specs.Prelude.{◌≡◌, ◌*◌, ◌≤◌, ◌<◌, ◌+◌, length};
ghost use Rattle.std.specs.Option.{option_map};
ghost use Rattle.m3_tables.specs.Fields.{word_at, half_at, list_at, bases_at, ways_in, past_ways, entry_at, past_entries, contents_at, tidies_at};
ghost use Rattle.m3_tables.specs.Views.{numbers_of, bases_of, entry_of, contents_of, tidies_of};

use crate::derivation::Derivation;
use crate::numbers::{Numbers, half, word};

/// The bases that are added on one way to a derived word, and those that are subtracted.
#[derive(Clone, Copy)]
pub struct WayView<'a> {
    pub added: Numbers<'a>,
    pub subtracted: Numbers<'a>,
}

/// Ways one after the other.
#[derive(Clone, Copy)]
pub struct Ways<'a> {
    pub(crate) count: u16,
    pub(crate) bytes: &'a [u8],
}

/// Derived words one after the other.
#[derive(Clone, Copy)]
pub struct Entries<'a> {
    pub(crate) count: u32,
    pub(crate) bytes: &'a [u8],
}

/// All of a row but its tidy places.
#[derive(Clone, Copy)]
pub(crate) struct Contents<'a> {
    pub(crate) arguments: Numbers<'a>,
    pub(crate) passed: Numbers<'a>,
    pub(crate) derived: Entries<'a>,
}

/// How a row tells its tidy places: all of them, or the change from the row before, or that they are the
/// same and so is all the rest.
#[derive(Clone, Copy)]
pub(crate) enum Listing<'a> {
    Ground(Numbers<'a>),
    Change(Numbers<'a>, Numbers<'a>),
    Same,
}

/// A number of four bytes, and the bytes after it. None exactly where there are fewer.
#[tactic(auto, unfolding(crate::specs::Fields::word_at))]
pub fn word_at(bytes: &[u8]) -> Option<(u32, &[u8])>
    ensures { option_map (λ x. (x.0, x.1.now)) result ≡ word_at bytes.now }
{
    if bytes.len() < 4 {
        return None;
    }
    Some((word(bytes), &bytes[4..]))
}

#[tactic(auto, unfolding(crate::specs::Fields::half_at))]
fn half_at(bytes: &[u8]) -> Option<(u16, &[u8])>
    ensures { option_map (λ x. (x.0, x.1.now)) result ≡ half_at bytes.now }
{
    if bytes.len() < 2 {
        return None;
    }
    Some((half(bytes), &bytes[2..]))
}

/// Numbers of four bytes behind their count, and the bytes after them. None exactly where the bytes don't
/// hold them.
#[tactic(auto, unfolding(crate::specs::Fields::list_at))]
pub fn list_at(bytes: &[u8]) -> Option<(Numbers<'_>, &[u8])>
    ensures { option_map (λ x. (numbers_of x.0, x.1.now)) result ≡ list_at bytes.now }
{
    let (count, rest) = word_at(bytes)?;
    let count = count as usize;
    if rest.len() < 4 * count {
        return None;
    }
    Some((Numbers { count, bytes: rest }, &rest[4 * count..]))
}

#[tactic(auto, unfolding(crate::specs::Fields::bases_at))]
fn bases_at(bytes: &[u8]) -> Option<(WayView<'_>, &[u8])>
    ensures { option_map (λ x. (bases_of x.0, x.1.now)) result ≡ bases_at bytes.now }
{
    let [added, subtracted, rest @ ..] = bytes else {
        return None;
    };
    let added = *added as usize;
    let subtracted = *subtracted as usize;
    if rest.len() < 4 * added + 4 * subtracted {
        return None;
    }
    let after_added = &rest[4 * added..];
    let way = WayView {
        added: Numbers {
            count: added,
            bytes: rest,
        },
        subtracted: Numbers {
            count: subtracted,
            bytes: after_added,
        },
    };
    Some((way, &after_added[4 * subtracted..]))
}

impl<'a> Iterator for Ways<'a> {
    type Item = WayView<'a>;

    ghost use Rattle.std.specs.Iterator.{YieldsFirstBy, item_count};
    ghost use Rattle.m3_tables.specs.Views.{bases_of, ways_of};

    ghost next_gives = { YieldsFirstBy bases_of ways_of };

    ghost remaining = { item_count ways_of };

    #[tactic(auto, unfolding(crate::specs::Fields::ways_in))]
    fn next(&mut self) -> Option<WayView<'a>> {
        if self.count == 0 {
            return None;
        }
        let (first, rest) = bases_at(self.bytes)?;
        *self = Ways {
            count: self.count - 1,
            bytes: rest,
        };
        Some(first)
    }
}

/// The bytes after so many ways.
fn past_ways(count: u16, bytes: &[u8]) -> Option<&[u8]>
    ensures { option_map (λ x. x.now) result ≡ past_ways count bytes.now }
{
    let mut rest = bytes;
    for _ in 0..count {
        let (_, after) = bases_at(rest)?;
        rest = after;
    }
    Some(rest)
}

#[tactic(auto, unfolding(crate::specs::Fields::entry_at), using(crate::proofs::FieldLemmas::length_ways_in))]
pub(crate) fn entry_at(bytes: &[u8]) -> Option<(Derivation<'_>, &[u8])>
    ensures { option_map (λ x. (entry_of x.0, x.1.now)) result ≡ entry_at bytes.now }
{
    let (location, rest) = word_at(bytes)?;
    let (path, rest) = word_at(rest)?;
    let (ways, rest) = half_at(rest)?;
    let after = past_ways(ways, rest)?;
    let entry = Derivation {
        location,
        path,
        ways,
        bytes: rest,
    };
    Some((entry, after))
}

impl<'a> Iterator for Entries<'a> {
    type Item = Derivation<'a>;

    ghost use Rattle.std.specs.Iterator.{YieldsFirstBy, item_count};
    ghost use Rattle.m3_tables.specs.Views.{entry_of, entries_of};

    ghost next_gives = { YieldsFirstBy entry_of entries_of };

    ghost remaining = { item_count entries_of };

    #[tactic(auto, unfolding(crate::specs::Fields::entries_in))]
    fn next(&mut self) -> Option<Derivation<'a>> {
        if self.count == 0 {
            return None;
        }
        let (first, rest) = entry_at(self.bytes)?;
        *self = Entries {
            count: self.count - 1,
            bytes: rest,
        };
        Some(first)
    }
}

/// The bytes after so many derived words.
fn past_entries(count: u32, bytes: &[u8]) -> Option<&[u8]>
    ensures { option_map (λ x. x.now) result ≡ past_entries count bytes.now }
{
    let mut rest = bytes;
    for _ in 0..count {
        let (_, after) = entry_at(rest)?;
        rest = after;
    }
    Some(rest)
}

#[tactic(auto, unfolding(crate::specs::Fields::contents_at))]
pub(crate) fn contents_at(bytes: &[u8]) -> Option<(Contents<'_>, &[u8])>
    ensures { option_map (λ x. (contents_of x.0, x.1.now)) result ≡ contents_at bytes.now }
{
    let (arguments, rest) = list_at(bytes)?;
    let (passed, rest) = list_at(rest)?;
    let (count, rest) = word_at(rest)?;
    let after = past_entries(count, rest)?;
    let contents = Contents {
        arguments,
        passed,
        derived: Entries { count, bytes: rest },
    };
    Some((contents, after))
}

#[tactic(auto, unfolding(crate::specs::Fields::tidies_at))]
pub(crate) fn listing_at(bytes: &[u8]) -> Option<(Listing<'_>, &[u8])>
    ensures { option_map (λ x. (tidies_of x.0, x.1.now)) result ≡ tidies_at bytes.now }
{
    match bytes {
        [0, rest @ ..] => {
            let (places, rest) = list_at(rest)?;
            Some((Listing::Ground(places), rest))
        }
        [1, rest @ ..] => {
            let (removed, rest) = list_at(rest)?;
            let (added, rest) = list_at(rest)?;
            Some((Listing::Change(removed, added), rest))
        }
        [2, rest @ ..] => Some((Listing::Same, rest)),
        _ => None,
    }
}

impl<'a> Contents<'a> {
    ghost use Rattle.m3_tables.specs.Rows.{nothing};

    /// What a row says that says nothing.
    #[tactic(auto, unfolding(crate::specs::Fields::entries_in))]
    pub(crate) fn nothing() -> Contents<'a>
        ensures { contents_of result ≡ nothing }
    {
        let none = Numbers {
            count: 0,
            bytes: &[],
        };
        Contents {
            arguments: none,
            passed: none,
            derived: Entries {
                count: 0,
                bytes: &[],
            },
        }
    }
}
