//! Marks of places in a row: the first is that of one place, the next that of the next, and so on.
ghost use Rattle.std.specs.Prelude.{◌≡◌, ℕ, true, None, ◌==◌, ◌&&◌, length, if◌then◌else◌};
ghost use Rattle.m3_tables.specs.Views.{numbers_of, bases_of, entry_of, entries_of};
ghost use Rattle.m3_tables.specs.Windows.{has_mark, mark_at, AreClear, MarkThose, places_apart, paths_apart};
ghost use Rattle.m3_tables.specs.Windows.{lower, lowest, lowest_in_way, lowest_path, lowest_in_ways, lowest_in_entry, lowest_of_all};

use crate::derivation::Derivation;
use crate::fields::{Entries, WayView};
use crate::numbers::Numbers;

/// How many places are marked at a time.
pub(crate) const MARKS: usize = 65536;

/// Whether a place has a mark, where the first is that of `from`.
pub(crate) fn has_mark(marks: &[bool], from: u64, place: u32) -> bool
    ensures { result ≡ has_mark marks.now from place }
{
    place as u64 >= from && place as u64 - from < marks.len() as u64
}

/// Whether a place is marked.
pub(crate) fn is_marked(marks: &[bool], from: u64, place: u32) -> bool
    ensures { result ≡ mark_at marks.now from place }
{
    has_mark(marks, from, place) && marks[(place as u64 - from) as usize]
}

/// Sets or takes away the mark of a place, where it has one.
pub(crate) fn set_mark(marks: &mut [bool], from: u64, place: u32, mark: bool)
    ensures marked { (l : ℕ) → mark_at marks.new from l ≡ (if place == l && has_mark marks.old from l then mark else mark_at marks.old from l) }
    ensures length { length marks.new ≡ length marks.old }
{
    if has_mark(marks, from, place) {
        marks[(place as u64 - from) as usize] = mark;
    }
}

/// The lower one of a place and another, where it isn't below `from`.
fn lower(from: u64, least: Option<u32>, place: u32) -> Option<u32>
    ensures { result ≡ lower from least place }
{
    match least {
        Some(known) if known <= place => least,
        _ if (place as u64) < from => least,
        _ => Some(place),
    }
}

/// The lowest one of some places and another, where it isn't below `from`.
fn lowest(from: u64, least: Option<u32>, places: Numbers<'_>) -> Option<u32>
    ensures { result ≡ lowest from least (numbers_of places.entry) }
{
    let mut least = least;
    for place in places {
        least = lower(from, least, place);
    }
    least
}

fn lowest_in_way(from: u64, least: Option<u32>, way: &WayView<'_>) -> Option<u32>
    ensures { result ≡ lowest_in_way from least (bases_of way.now) }
{
    lowest(from, lowest(from, least, way.added), way.subtracted)
}

fn lowest_path(from: u64, least: Option<u32>, entry: &Derivation<'_>) -> Option<u32>
    ensures { result ≡ lowest_path from least (entry_of entry.now).path }
{
    match entry.path_number() {
        Some(path) => lower(from, least, path),
        None => least,
    }
}

fn lowest_in_ways(from: u64, least: Option<u32>, entry: &Derivation<'_>) -> Option<u32>
    ensures { result ≡ lowest_in_ways from least (entry_of entry.now).ways }
{
    let mut least = least;
    for way in entry.every_way() {
        least = lowest_in_way(from, least, &way);
    }
    least
}

/// The lowest one of what a derived word names and a place, where it isn't below `from`.
fn lowest_in_entry(from: u64, least: Option<u32>, entry: &Derivation<'_>) -> Option<u32>
    ensures { result ≡ lowest_in_entry from least (entry_of entry.now) }
{
    let least = lower(from, least, entry.location);
    lowest_in_ways(from, lowest_path(from, least, entry), entry)
}

impl<'a> Entries<'a> {
    /// The lowest place from one on that the derived words name: their own, paths and bases.
    pub(crate) fn least_from(self, from: u64) -> Option<u32>
        ensures { result ≡ lowest_of_all from None (entries_of self.entry) }
    {
        let mut least = None;
        for entry in self {
            least = lowest_in_entry(from, least, &entry);
        }
        least
    }

    /// Marks the places of the derived words. False comes exactly where one that has a mark is that
    /// of two.
    pub(crate) fn mark_places(self, marks: &mut [bool], from: u64) -> bool
        requires { AreClear marks.old }
        ensures apart { result ≡ places_apart (has_mark marks.old from) (entries_of self.entry) }
        ensures marked { result ≡ true → MarkThose marks.new from (entries_of self.entry) }
        ensures length { length marks.new ≡ length marks.old }
    {
        for entry in self {
            if is_marked(marks, from, entry.location) {
                return false;
            }
            set_mark(marks, from, entry.location, true);
        }
        true
    }

    /// Whether no path is marked, where the places of these derived words are.
    pub(crate) fn paths_are_free(self, marks: &[bool], from: u64) -> bool
        requires { MarkThose marks.now from (entries_of self) }
        ensures { result ≡ paths_apart (has_mark marks.now from) (entries_of self.entry) (entries_of self.entry) }
    {
        for entry in self {
            if let Some(path) = entry.path_number()
                && is_marked(marks, from, path)
            {
                return false;
            }
        }
        true
    }
}
