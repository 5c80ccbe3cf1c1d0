//! Tests of all places that a row names.
ghost use Rattle.std.specs.Prelude.{◌≡◌, ◌<◌, ◌≤◌, ◌+◌, ℕ, IsTrue, not, ◌||◌, nat_lt};
ghost use Rattle.std.specs.List.{list_all};
ghost use Rattle.m3_tables.specs.Numbers.{word_in};
ghost use Rattle.m3_tables.specs.Sections.{is_tidy, row_rises, tidy_all, is_between, entry_passes, derived_pass, contents_in, is_within, are_free, spares_registers};
ghost use Rattle.m3_tables.specs.Tables.{section_of_row, number_of_row};
ghost use Rattle.m3_tables.specs.Views.{numbers_of, entries_of, contents_of};

use crate::fields::{Contents, Entries, Listing};
use crate::numbers::Numbers;
use crate::row::Row;
use crate::section::Section;

fn is_between(place: u32, lowest: u64, limit: u64) -> bool
    ensures { result ≡ is_between lowest limit place }
{
    place as u64 >= lowest && (place as u64) < limit
}

fn places_between(places: Numbers<'_>, lowest: u64, limit: u64) -> bool
    ensures { result ≡ list_all (is_between lowest limit) (numbers_of places.entry) }
{
    for place in places {
        if !is_between(place, lowest, limit) {
            return false;
        }
    }
    true
}

fn entries_between(entries: Entries<'_>, lowest: u64, limit: u64) -> bool
    ensures { result ≡ list_all (entry_passes (is_between lowest limit)) (entries_of entries.entry) }
{
    for entry in entries {
        let path_fits = match entry.path_number() {
            Some(path) => is_between(path, lowest, limit),
            None => true,
        };
        if !is_between(entry.location, lowest, limit) || !path_fits {
            return false;
        }
    }
    true
}

fn derived_between(contents: &Contents<'_>, lowest: u64, limit: u64) -> bool
    ensures { result ≡ derived_pass (is_between lowest limit) (contents_of contents.now) }
{
    places_between(contents.passed, lowest, limit)
        && entries_between(contents.derived, lowest, limit)
}

impl<'a> Section<'a> {
    /// Those of some places that are tidy at a row are below a limit.
    fn tidy_below(&self, row: usize, places: Numbers<'_>, limit: u64) -> bool
        requires row { row < word_in self.now.bytes.now }
        requires rises { (k : ℕ) → k ≤ row → IsTrue (row_rises self.now.bytes.now k) }
        ensures { result ≡ list_all (λ l. not (is_tidy self.now.bytes.now row l) || nat_lt l limit) (numbers_of places.entry) }
    {
        for place in places {
            if place as u64 >= limit && self.is_tidy(row, place) {
                return false;
            }
        }
        true
    }

    /// All tidy places of a row are below a limit. It goes back to the row that told all of them.
    fn all_tidy_below(&self, row: usize, limit: u64) -> bool
        requires row { row < word_in self.now.bytes.now }
        requires rises { (k : ℕ) → k ≤ row → IsTrue (row_rises self.now.bytes.now k) }
        ensures { result ≡ tidy_all (λ l. not (is_tidy self.now.bytes.now row l) || nat_lt l limit) self.now.bytes.now row }
    {
        let mut at = row;
        loop {
            let Some((listing, _)) = self.listing(at) else {
                return true;
            };
            match listing {
                Listing::Ground(places) => return self.tidy_below(row, places, limit),
                Listing::Change(_, added) => {
                    if !self.tidy_below(row, added, limit) {
                        return false;
                    }
                }
                Listing::Same => {}
            }
            if at == 0 {
                return true;
            }
            at -= 1;
        }
    }
}

impl<'a> Row<'a> {
    /// Whether each slot that the row names is below a frame's size.
    pub fn is_within(&self, frame: u32) -> bool
        ensures { result ≡ is_within (section_of_row self.now) (number_of_row self.now) frame }
    {
        let limit = frame as u64 + 16;
        let contents = self.contents();
        self.section.all_tidy_below(self.number, limit)
            && places_between(contents.arguments, 0, limit)
            && derived_between(&contents, 0, limit)
    }

    /// Whether no register is tidy.
    fn registers_are_free(&self) -> bool
        ensures { result ≡ are_free (is_tidy (section_of_row self.now) (number_of_row self.now)) 16 }
    {
        for register in 0..16 {
            if self.section.is_tidy(self.number, register) {
                return false;
            }
        }
        true
    }

    /// Whether no register is a tidy place, a formal that the caller describes, a derived word or a path: what a
    /// row of a call must keep, since the registers are the callee's then.
    pub fn spares_registers(&self) -> bool
        ensures { result ≡ spares_registers (section_of_row self.now) (number_of_row self.now) }
    {
        self.registers_are_free() && derived_between(&self.contents(), 16, 4294967296)
    }
}
