//! What a row lists, marked.
ghost use Rattle.std.specs.Prelude.{◌≡◌, ◌∷◌, ◌++◌, [], map};
ghost use Rattle.std.specs.List.{flat_map};
ghost use Rattle.m3_tables.specs.Views.{numbers_of, bases_of, entry_of};
ghost use Rattle.m3_tables.specs.Tables.{derived_in};
ghost use Rattle.m3_roots.specs.ThreadWords.{place_from, places_from, derived_at, derived_from};
ghost use Rattle.m3_roots.specs.ThreadWords.{place_of, path_places, bases_in_way, base_places};
ghost use Rattle.m3_roots.specs.Marking.{Lists, Derives, Bars, Uses, MarksAll};
ghost use Rattle.m3_roots.specs.BarActs.{bar_acts};

use crate::marks::{Mark, bar, derive, is_plain, list};
use m3_tables::{Derivation, Numbers, Row, WayView};

/// Marks the words that some numbers of a row stand for as listed.
pub(crate) fn list_numbers(marks: &mut [Mark], first: usize, numbers: Numbers<'_>) -> bool
    ensures { MarksAll marks.old marks.new (map Lists
        (places_from first (numbers_of numbers.entry))) result }
{
    for number in numbers {
        if !list(marks, first, number) {
            return false;
        }
    }
    true
}

/// Marks the words that the numbers of a list stand for as listed.
fn list_all(marks: &mut [Mark], first: usize, numbers: &[u32]) -> bool
    ensures { MarksAll marks.old marks.new (map Lists (places_from first numbers.now)) result }
{
    for number in numbers {
        if !list(marks, first, *number) {
            return false;
        }
    }
    true
}

fn bar_path(marks: &mut [Mark], first: usize, entry: &Derivation<'_>) -> bool
    ensures { MarksAll marks.old marks.new (map Bars
        (path_places (derived_at first (entry_of entry.now)))) result }
{
    match entry.path_number() {
        Some(path) => bar(marks, first, path),
        None => true,
    }
}

/// Marks the paths of a row as words that no row may list.
fn bar_paths(marks: &mut [Mark], first: usize, row: &Row<'_>) -> bool
    ensures { MarksAll marks.old marks.new (map Bars
        (flat_map path_places (derived_from first (derived_in row.now)))) result }
{
    for entry in row.derivations() {
        if !bar_path(marks, first, &entry) {
            return false;
        }
    }
    true
}

fn are_plain(marks: &[Mark], first: usize, numbers: Numbers<'_>) -> bool
    ensures { MarksAll marks.now marks.now (map Uses (places_from first (numbers_of numbers.entry)))
        result }
{
    for number in numbers {
        if !is_plain(marks, first, number) {
            return false;
        }
    }
    true
}

fn way_is_plain(marks: &[Mark], first: usize, way: &WayView<'_>) -> bool
    ensures { MarksAll marks.now marks.now (map Uses
        (places_from first (bases_in_way (bases_of way.now)))) result }
{
    are_plain(marks, first, way.added) && are_plain(marks, first, way.subtracted)
}

fn entry_is_plain(marks: &[Mark], first: usize, entry: &Derivation<'_>) -> bool
    ensures { MarksAll marks.now marks.now (map Uses
        (base_places (derived_at first (entry_of entry.now)))) result }
{
    for way in entry.every_way() {
        if !way_is_plain(marks, first, &way) {
            return false;
        }
    }
    true
}

/// Whether no base of a row is a derived word that was marked before.
fn bases_are_plain(marks: &[Mark], first: usize, row: &Row<'_>) -> bool
    ensures { MarksAll marks.now marks.now (map Uses
        (flat_map base_places (derived_from first (derived_in row.now)))) result }
{
    for entry in row.derivations() {
        if !entry_is_plain(marks, first, &entry) {
            return false;
        }
    }
    true
}

/// Marks the derived words of a row.
fn derive_all(marks: &mut [Mark], first: usize, row: &Row<'_>) -> bool
    ensures { MarksAll marks.old marks.new (map Derives
        (map place_of (derived_from first (derived_in row.now)))) result }
{
    for entry in row.derivations() {
        if !derive(marks, first, entry.place_number()) {
            return false;
        }
    }
    true
}

fn bar_frame(marks: &mut [Mark], first: usize) -> bool
    ensures { MarksAll marks.old marks.new (Bars (place_from first 16) ∷ Bars (place_from first 17)
        ∷ []) result }
{
    bar(marks, first, 16) && bar(marks, first, 17)
}

fn bar_row(marks: &mut [Mark], first: usize, row: &Row<'_>) -> bool
    ensures { MarksAll marks.old marks.new (map Bars
        (flat_map path_places (derived_from first (derived_in row.now))) ++ map Uses
        (flat_map base_places (derived_from first (derived_in row.now)))) result }
{
    bar_paths(marks, first, row) && bases_are_plain(marks, first, row)
}

/// Marks the first two words of a frame and its paths as words that no row may list, and looks at
/// its bases.
pub(crate) fn bar_all(marks: &mut [Mark], first: usize, row: &Row<'_>) -> bool
    ensures { MarksAll marks.old marks.new (bar_acts first
        (derived_from first (derived_in row.now))) result }
{
    bar_frame(marks, first) && bar_row(marks, first, row)
}

/// Marks the tidy words of a row, which are these, and its derived words.
pub(crate) fn list_row(marks: &mut [Mark], first: usize, tidy: &[u32], row: &Row<'_>) -> bool
    ensures { MarksAll marks.old marks.new (map Lists (places_from first tidy.now) ++ map Derives
        (map place_of (derived_from first (derived_in row.now)))) result }
{
    list_all(marks, first, tidy) && derive_all(marks, first, row)
}
