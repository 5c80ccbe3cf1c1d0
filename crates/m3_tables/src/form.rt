//! The form of a row: which of its places may be the same, and which may be bases.
ghost use Rattle.std.specs.Prelude.{◌≤◌, ◌<◌, ℕ, IsTrue};
ghost use Rattle.m3_tables.specs.Numbers.{word_in, numbers, rises};
ghost use Rattle.m3_tables.specs.Sections.{row_rises};

use crate::derivation::Derivation;
use crate::fields::{Contents, WayView};
use crate::marks::{has_mark, is_marked, set_mark};
use crate::numbers::Numbers;
use crate::section::Section;

/// A row whose lists are known to rise, with what it says beside its tidy places.
#[derive(Clone, Copy)]
pub(crate) struct Candidate<'a> {
    pub(crate) section: Section<'a>,
    pub(crate) row: usize,
    pub(crate) contents: Contents<'a>,
    ghost there: { row < word_in section.bytes.now },
    ghost risen: { (k : ℕ) → k ≤ row → IsTrue (row_rises section.bytes.now k) },
    ghost arguments: { IsTrue (rises (numbers contents.arguments.count contents.arguments.bytes.now)) },
    ghost passed: { IsTrue (rises (numbers contents.passed.count contents.passed.bytes.now)) },
}

impl<'a> Candidate<'a> {
    ghost use Rattle.std.specs.Prelude.{◌≡◌, true, not, ◌||◌, ◌&&◌, List, length};
    ghost use Rattle.std.specs.List.{list_all};
    ghost use Rattle.m3_tables.specs.Numbers.{has};
    ghost use Rattle.m3_tables.specs.Sections.{is_tidy, is_listed, bases_known, path_fits, entries_fit, contents_fit};
    ghost use Rattle.m3_tables.specs.Rows.{Entry};
    ghost use Rattle.m3_tables.specs.Views.{numbers_of, bases_of, entry_of, entries_of, contents_of};
    ghost use Rattle.m3_tables.specs.Windows.{has_mark, mark_at, AreClear, MarkThose, places_fit, places_apart, bases_come, window_fits};

    fn is_tidy(&self, place: u32) -> bool
        ensures { result ≡ is_tidy self.now.section.bytes.now self.now.row place }
    {
        self.section.is_tidy(self.row, place)
    }

    fn is_listed(&self, place: u32) -> bool
        ensures { result ≡ is_listed (is_tidy self.now.section.bytes.now self.now.row) (contents_of self.now.contents) place }
    {
        self.is_tidy(place) || self.contents.arguments.has(place) || self.contents.passed.has(place)
    }

    /// No argument is a tidy place.
    fn arguments_fit(&self) -> bool
        ensures { result ≡ list_all (λ l. not (is_tidy self.now.section.bytes.now self.now.row l)) (numbers_of self.now.contents.arguments) }
    {
        for place in self.contents.arguments {
            if self.is_tidy(place) {
                return false;
            }
        }
        true
    }

    /// No formal that the caller describes is a tidy place or an argument.
    fn passed_fit(&self) -> bool
        ensures { result ≡ list_all (λ l. not (is_tidy self.now.section.bytes.now self.now.row l || has (numbers_of self.now.contents.arguments) l)) (numbers_of self.now.contents.passed) }
    {
        for place in self.contents.passed {
            if self.is_tidy(place) || self.contents.arguments.has(place) {
                return false;
            }
        }
        true
    }

    fn path_fits(&self, entry: &Derivation<'_>) -> bool
        ensures { result ≡ path_fits (is_listed (is_tidy self.now.section.bytes.now self.now.row) (contents_of self.now.contents)) (entry_of entry.now) }
    {
        match entry.path_number() {
            None => entry.ways == 1,
            Some(path) => !self.is_listed(path) && entry.ways > 1,
        }
    }

    /// No derived word is listed, and the paths are as they may be.
    fn places_fit(&self) -> bool
        ensures { result ≡ places_fit (is_listed (is_tidy self.now.section.bytes.now self.now.row) (contents_of self.now.contents)) (entries_of self.now.contents.derived) }
    {
        for entry in self.contents.derived {
            if self.is_listed(entry.location) || !self.path_fits(&entry) {
                return false;
            }
        }
        true
    }

    /// Whether a place has no mark, is marked, or is listed.
    fn is_known(&self, marks: &[bool], from: u64, place: u32) -> bool
        ensures { result ≡ (not (has_mark marks.now from place) || (mark_at marks.now from place || is_listed (is_tidy self.now.section.bytes.now self.now.row) (contents_of self.now.contents) place)) }
    {
        !has_mark(marks, from, place) || is_marked(marks, from, place) || self.is_listed(place)
    }

    fn places_known(&self, marks: &[bool], from: u64, places: Numbers<'_>) -> bool
        ensures { result ≡ list_all (λ l. not (has_mark marks.now from l) || (mark_at marks.now from l || is_listed (is_tidy self.now.section.bytes.now self.now.row) (contents_of self.now.contents) l)) (numbers_of places.entry) }
    {
        for place in places {
            if !self.is_known(marks, from, place) {
                return false;
            }
        }
        true
    }

    fn way_known(&self, marks: &[bool], from: u64, way: &WayView<'_>) -> bool
        ensures { (later : List Entry) → MarkThose marks.now from later → result ≡ bases_known (λ l. not (has_mark marks.now from l) || is_listed (is_tidy self.now.section.bytes.now self.now.row) (contents_of self.now.contents) l) later (bases_of way.now) }
    {
        self.places_known(marks, from, way.added) && self.places_known(marks, from, way.subtracted)
    }

    /// Whether the bases of a derived word that have a mark are listed, or are those of later ones,
    /// whose places are marked.
    fn ways_known(&self, marks: &[bool], from: u64, entry: &Derivation<'_>) -> bool
        ensures { (later : List Entry) → MarkThose marks.now from later → result ≡ list_all (bases_known (λ l. not (has_mark marks.now from l) || is_listed (is_tidy self.now.section.bytes.now self.now.row) (contents_of self.now.contents) l) later) (entry_of entry.now).ways }
    {
        for way in entry.every_way() {
            if !self.way_known(marks, from, &way) {
                return false;
            }
        }
        true
    }

    /// Whether the bases that have a mark are listed, or are those of later derived words, where the
    /// places of all are marked. Each derived word takes its mark away.
    fn bases_fit(&self, marks: &mut [bool], from: u64) -> bool
        requires marked { MarkThose marks.old from (entries_of self.now.contents.derived) }
        requires apart { IsTrue (places_apart (has_mark marks.old from) (entries_of self.now.contents.derived)) }
        ensures fit { result ≡ bases_come (has_mark marks.old from) (is_listed (is_tidy self.now.section.bytes.now self.now.row) (contents_of self.now.contents)) (entries_of self.now.contents.derived) }
        ensures clear { result ≡ true → AreClear marks.new }
        ensures length { length marks.new ≡ length marks.old }
    {
        let mut later = self.contents.derived;
        while let Some(entry) = later.next() {
            set_mark(marks, from, entry.location, false);
            if !self.ways_known(marks, from, &entry) {
                return false;
            }
        }
        true
    }

    /// Whether the places that have a mark fit: those of derived words, paths and bases.
    fn window_fits(&self, marks: &mut [bool], from: u64) -> bool
        requires { AreClear marks.old }
        ensures fit { result ≡ window_fits (has_mark marks.old from) (is_listed (is_tidy self.now.section.bytes.now self.now.row) (contents_of self.now.contents)) (entries_of self.now.contents.derived) }
        ensures clear { result ≡ true → AreClear marks.new }
        ensures length { length marks.new ≡ length marks.old }
    {
        let derived = self.contents.derived;
        if !derived.mark_places(marks, from) || !derived.paths_are_free(marks, from) {
            return false;
        }
        self.bases_fit(marks, from)
    }

    /// Whether the derived words fit. They are compared with each other by as many places at a time
    /// as there are marks.
    fn entries_fit(&self, marks: &mut [bool]) -> bool
        requires clear { AreClear marks.old }
        requires length { length marks.old ≡ 65536 }
        ensures fit { result ≡ entries_fit (is_listed (is_tidy self.now.section.bytes.now self.now.row) (contents_of self.now.contents)) (entries_of self.now.contents.derived) (entries_of self.now.contents.derived) }
        ensures clear { result ≡ true → AreClear marks.new }
        ensures length { length marks.new ≡ length marks.old }
    {
        if !self.places_fit() {
            return false;
        }
        let mut from = 0;
        while let Some(place) = self.contents.derived.least_from(from) {
            if !self.window_fits(marks, place as u64) {
                return false;
            }
            from = place as u64 + marks.len() as u64;
        }
        true
    }

    /// Whether the row has the form that a row must have.
    pub(crate) fn fits(&self, marks: &mut [bool]) -> bool
        requires clear { AreClear marks.old }
        requires length { length marks.old ≡ 65536 }
        ensures fit { result ≡ contents_fit (is_tidy self.now.section.bytes.now self.now.row) (contents_of self.now.contents) }
        ensures clear { result ≡ true → AreClear marks.new }
        ensures length { length marks.new ≡ length marks.old }
    {
        self.arguments_fit() && self.passed_fit() && self.entries_fit(marks)
    }
}
