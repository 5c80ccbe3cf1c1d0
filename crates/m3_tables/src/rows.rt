//! Which rows of a section are bad, in the order of their numbers.
ghost use Rattle.std.specs.Prelude.{◌≡◌, ◌≢◌, ◌≤◌, ◌<◌, ◌+◌, ◌*◌, ℕ, IsTrue, true, not, ◌==◌, length};
ghost use Rattle.std.specs.List.{list_all};
ghost use Rattle.std.specs.Option.{option_map};
ghost use Rattle.m3_tables.specs.Numbers.{word_in};
ghost use Rattle.m3_tables.specs.Sections.{row_in, body_of, was_tidy, is_tidy, past_row, past_contents, tidies_rise, tidies_fit, rest_fits, start_of, instruction_rises, row_rises, row_fits, is_good, first_bad};
ghost use Rattle.m3_tables.specs.Views.{numbers_of, tidies_of};
ghost use Rattle.m3_tables.specs.Windows.{AreClear};

use crate::fields::{Listing, contents_at};
use crate::form::Candidate;
use crate::marks::MARKS;
use crate::numbers::{Numbers, word};
use crate::section::Section;

impl<'a> Listing<'a> {
    /// Whether the lists of tidy places rise.
    fn rises(self) -> bool
        ensures { result ≡ tidies_rise (tidies_of self.entry) }
    {
        match self {
            Listing::Ground(places) => places.rises(),
            Listing::Change(removed, added) => removed.rises() && added.rises(),
            Listing::Same => true,
        }
    }

    /// The bytes after a row that begins so.
    fn past(self, rest: &'a [u8]) -> Option<&'a [u8]>
        ensures { option_map (λ x. x.now) result ≡ past_contents (tidies_of self.entry) rest.now }
    {
        match self {
            Listing::Same => Some(rest),
            Listing::Ground(_) | Listing::Change(_, _) => {
                let (_, after) = contents_at(rest)?;
                Some(after)
            }
        }
    }
}

impl<'a> Section<'a> {
    /// Whether a place was tidy at the row before.
    #[tactic(auto, using(crate::proofs::SectionLemmas::was_tidy_at))]
    fn was_tidy(&self, row: usize, place: u32) -> bool
        requires row { row < word_in self.now.bytes.now }
        requires rises { (k : ℕ) → k ≤ row → IsTrue (row_rises self.now.bytes.now k) }
        ensures { result ≡ was_tidy self.now.bytes.now row place }
    {
        row > 0 && self.is_tidy(row - 1, place)
    }

    /// All of these places were tidy at the row before.
    fn were_tidy(&self, row: usize, places: Numbers<'_>) -> bool
        requires row { row < word_in self.now.bytes.now }
        requires rises { (k : ℕ) → k ≤ row → IsTrue (row_rises self.now.bytes.now k) }
        ensures { result ≡ list_all (was_tidy self.now.bytes.now row) (numbers_of places.entry) }
    {
        for place in places {
            if !self.was_tidy(row, place) {
                return false;
            }
        }
        true
    }

    /// None of these places was tidy at the row before.
    fn were_free(&self, row: usize, places: Numbers<'_>) -> bool
        requires row { row < word_in self.now.bytes.now }
        requires rises { (k : ℕ) → k ≤ row → IsTrue (row_rises self.now.bytes.now k) }
        ensures { result ≡ list_all (λ l. not (was_tidy self.now.bytes.now row l)) (numbers_of places.entry) }
    {
        for place in places {
            if self.was_tidy(row, place) {
                return false;
            }
        }
        true
    }

    /// Whether a row may tell its tidy places so.
    fn listing_fits(&self, row: usize, listing: Listing<'_>) -> bool
        requires row { row < word_in self.now.bytes.now }
        requires rises { (k : ℕ) → k ≤ row → IsTrue (row_rises self.now.bytes.now k) }
        ensures { result ≡ tidies_fit row (was_tidy self.now.bytes.now row) (tidies_of listing.entry) }
    {
        match listing {
            Listing::Ground(_) => true,
            Listing::Change(removed, added) => {
                row % 16 != 0 && self.were_tidy(row, removed) && self.were_free(row, added)
            }
            Listing::Same => row % 16 != 0,
        }
    }

    /// Whether the rest of a row has its form.
    fn rest_fits(
        &self,
        row: usize,
        listing: Listing<'_>,
        rest: &'a [u8],
        marks: &mut [bool],
    ) -> bool
        requires row { row < word_in self.now.bytes.now }
        requires rises { (k : ℕ) → k ≤ row → IsTrue (row_rises self.now.bytes.now k) }
        requires clear { AreClear marks.old }
        requires length { length marks.old ≡ 65536 }
        ensures value { result ≡ rest_fits (is_tidy self.now.bytes.now row) (tidies_of listing.entry) rest.now }
        ensures clear { result ≡ true → AreClear marks.new }
        ensures length { length marks.new ≡ length marks.old }
    {
        if let Listing::Same = listing {
            return true;
        }
        let Some((contents, _)) = contents_at(rest) else {
            return false;
        };
        if !contents.arguments.rises() || !contents.passed.rises() {
            return false;
        }
        let section = *self;
        Candidate {
            section,
            row,
            contents,
        }
        .fits(marks)
    }

    fn row_fits(&self, row: usize, marks: &mut [bool]) -> bool
        requires row { row < word_in self.now.bytes.now }
        requires rises { (k : ℕ) → k ≤ row → IsTrue (row_rises self.now.bytes.now k) }
        requires clear { AreClear marks.old }
        requires length { length marks.old ≡ 65536 }
        ensures value { result ≡ row_fits self.now.bytes.now row }
        ensures clear { result ≡ true → AreClear marks.new }
        ensures length { length marks.new ≡ length marks.old }
    {
        let Some((listing, rest)) = self.listing(row) else {
            return false;
        };
        self.listing_fits(row, listing) && self.rest_fits(row, listing, rest, marks)
    }

    fn row_rises(&self, row: usize) -> bool
        requires { row < word_in self.now.bytes.now }
        ensures { result ≡ row_rises self.now.bytes.now row }
    {
        let Some((listing, _)) = self.listing(row) else {
            return false;
        };
        listing.rises()
    }

    fn instruction_rises(&self, row: usize) -> bool
        requires { row < word_in self.now.bytes.now }
        ensures { result ≡ instruction_rises self.now.bytes.now row }
    {
        row == 0 || self.instruction(row - 1) < self.instruction(row)
    }

    /// Whether a row is good, where those before it are, by where it has to begin.
    #[tactic(auto, unfolding(crate::specs::Sections::is_good))]
    fn is_good(&self, row: usize, start: usize, marks: &mut [bool]) -> bool
        requires row { row < word_in self.now.bytes.now }
        requires start { start ≡ start_of self.now.bytes.now row }
        requires before { (k : ℕ) → k < row → IsTrue (row_rises self.now.bytes.now k) }
        requires clear { AreClear marks.old }
        requires length { length marks.old ≡ 65536 }
        ensures value { result ≡ is_good self.now.bytes.now row }
        ensures clear { result ≡ true → AreClear marks.new }
        ensures length { length marks.new ≡ length marks.old }
    {
        self.instruction_rises(row)
            && self.offset(row) as usize == start
            && self.row_rises(row)
            && self.row_fits(row, marks)
    }

    /// Where the row after this one has to begin.
    #[tactic(auto, unfolding(crate::specs::Sections::past_row))]
    fn start_after(&self, row: usize) -> usize
        requires { row < word_in self.now.bytes.now }
        ensures { result ≡ start_of self.now.bytes.now (row + 1) }
    {
        let Some((listing, rest)) = self.listing(row) else {
            return 0;
        };
        match listing.past(rest) {
            None => 0,
            Some(after) => self.body().len().saturating_sub(after.len()),
        }
    }

    /// The first bad row.
    pub(crate) fn first_bad(&self) -> Option<u32>
        ensures { result ≡ first_bad self.now.bytes.now (word_in self.now.bytes.now) }
    {
        let mut marks = [false; MARKS];
        let mut start = 0;
        for row in 0..word(self.bytes) {
            if !self.is_good(row as usize, start, &mut marks) {
                return Some(row);
            }
            start = self.start_after(row as usize);
        }
        None
    }

    /// Whether the bytes end with the last row.
    pub(crate) fn ends(&self) -> bool
        ensures { result ≡ (start_of self.now.bytes.now (word_in self.now.bytes.now) == length (body_of self.now.bytes.now)) }
    {
        let count = self.count();
        let end = if count == 0 {
            0
        } else {
            self.start_after(count - 1)
        };
        end == self.body().len()
    }
}
