//! The section of the tables by its rows' numbers: where each row begins, and what it says.
ghost use Rattle.std.specs.Prelude.{◌≤◌, ◌+◌, ◌*◌, length};
ghost use Rattle.m3_tables.specs.Numbers.{word_in};

use crate::fields::{Contents, Entries, Listing, contents_at, listing_at};
use crate::numbers::{Numbers, word};

/// Bytes that hold a directory of rows.
#[derive(Clone, Copy)]
pub(crate) struct Section<'a> {
    pub(crate) bytes: &'a [u8],
    ghost count: { 4 ≤ length bytes.now },
    ghost directory: { 4 + 8 * word_in bytes.now ≤ length bytes.now },
}

impl<'a> Section<'a> {
    ghost use Rattle.std.specs.Prelude.{◌≡◌, ◌<◌, ℕ, IsTrue, is_some};
    ghost use Rattle.std.specs.Option.{option_map};
    ghost use Rattle.m3_tables.specs.Fields.{tidies_at};
    ghost use Rattle.m3_tables.specs.Sections.{instruction_in, offset_in, body_of, row_in, is_tidy, contents_in, row_rises};
    ghost use Rattle.m3_tables.specs.Views.{tidies_of, contents_of};

    /// How many rows the directory has.
    pub(crate) fn count(&self) -> usize
        ensures { result ≡ word_in self.now.bytes.now }
    {
        word(self.bytes) as usize
    }

    /// The instruction of a row.
    pub(crate) fn instruction(&self, row: usize) -> u32
        requires { row < word_in self.now.bytes.now }
        ensures { result ≡ instruction_in self.now.bytes.now row }
    {
        word(&self.bytes[4 + 8 * row..])
    }

    /// Where a row begins, by the directory.
    pub(crate) fn offset(&self, row: usize) -> u32
        requires { row < word_in self.now.bytes.now }
        ensures { result ≡ offset_in self.now.bytes.now row }
    {
        word(&self.bytes[8 + 8 * row..])
    }

    /// The bytes after the directory.
    pub(crate) fn body(&self) -> &'a [u8]
        ensures { result.now ≡ body_of self.now.bytes.now }
    {
        &self.bytes[4 + 8 * self.count()..]
    }

    /// The bytes from where a row begins.
    pub(crate) fn row(&self, row: usize) -> &'a [u8]
        requires { row < word_in self.now.bytes.now }
        ensures { result.now ≡ row_in self.now.bytes.now row }
    {
        let body = self.body();
        let start = (self.offset(row) as usize).min(body.len());
        &body[start..]
    }

    /// How a row tells its tidy places, and the bytes after that.
    pub(crate) fn listing(&self, row: usize) -> Option<(Listing<'a>, &'a [u8])>
        requires { row < word_in self.now.bytes.now }
        ensures { option_map (λ x. (tidies_of x.0, x.1.now)) result ≡ tidies_at (row_in self.now.bytes.now row) }
    {
        listing_at(self.row(row))
    }

    #[tactic(auto, using(crate::proofs::SectionLemmas::is_tidy_at))]
    /// Whether a place is tidy at a row, where the lists of tidy places up to that row rise. It goes back to
    /// the row that told of the place last.
    pub(crate) fn is_tidy(&self, row: usize, place: u32) -> bool
        requires row { row < word_in self.now.bytes.now }
        requires rises { (k : ℕ) → k ≤ row → IsTrue (row_rises self.now.bytes.now k) }
        ensures { result ≡ is_tidy self.now.bytes.now row place }
    {
        let mut row = row;
        loop {
            let Some((listing, _)) = self.listing(row) else {
                return false;
            };
            match listing {
                Listing::Ground(places) => return places.has(place),
                Listing::Change(removed, added) => {
                    if added.has(place) {
                        return true;
                    }
                    if removed.has(place) {
                        return false;
                    }
                }
                Listing::Same => {}
            }
            if row == 0 {
                return false;
            }
            row -= 1;
        }
    }
}
