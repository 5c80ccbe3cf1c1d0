//! The tidy places of a row, in a list of their own.
ghost use Rattle.std.specs.Prelude.{◌≡◌, ◌<◌, ◌≤◌, ℕ, IsTrue, IfOk};
ghost use Rattle.m3_tables.specs.Numbers.{word_in, rises};
ghost use Rattle.m3_tables.specs.Rows.{Changed};
ghost use Rattle.m3_tables.specs.Sections.{row_rises, tidies_list, was_list, tidy_list};
ghost use Rattle.m3_tables.specs.Views.{numbers_of};

use crate::fields::Listing;
use crate::numbers::Numbers;
use crate::section::Section;
use m3_base::NoMemory;
use std::alloc::Global;

/// Numbers in a list of their own.
fn copied(alloc: Global, places: Numbers<'_>) -> Result<Vec<u32>, NoMemory>
    ensures { IfOk result (λ v. v.items ≡ numbers_of places.entry) }
{
    let mut found = Vec::new(alloc);
    for place in places {
        found.push(place)?;
    }
    Ok(found)
}

/// Those that are added, and those from before that aren't removed.
fn changed(
    alloc: Global,
    before: &[u32],
    removed: Numbers<'_>,
    added: Numbers<'_>,
) -> Result<Vec<u32>, NoMemory>
    requires { IsTrue (rises (numbers_of removed)) }
    ensures { IfOk result (λ v. v.items ≡ tidies_list (Changed (numbers_of removed.entry) (numbers_of added.entry)) before.now) }
{
    let mut found = copied(alloc, added)?;
    let mut rest = before;
    while let [place, after @ ..] = rest {
        if !removed.has(*place) {
            found.push(*place)?;
        }
        rest = after;
    }
    Ok(found)
}

impl<'a> Section<'a> {
    /// Whether a row says that it is the same as the one before.
    #[tactic(auto, using(crate::proofs::SectionLemmas::tidy_list_at))]
    pub(crate) fn is_same(&self, row: usize) -> bool
        requires { row < word_in self.now.bytes.now }
        ensures { IsTrue result → tidy_list self.now.bytes.now row ≡ was_list self.now.bytes.now row }
    {
        matches!(self.listing(row), Some((Listing::Same, _)))
    }

    /// The tidy places of a row, by those of the row before.
    #[tactic(auto, using(crate::proofs::SectionLemmas::tidy_list_at))]
    pub(crate) fn tidy_places(
        &self,
        alloc: Global,
        row: usize,
        before: &[u32],
    ) -> Result<Vec<u32>, NoMemory>
        requires row { row < word_in self.now.bytes.now }
        requires rises { (k : ℕ) → k ≤ row → IsTrue (row_rises self.now.bytes.now k) }
        requires before { before.now ≡ was_list self.now.bytes.now row }
        ensures { IfOk result (λ v. v.items ≡ tidy_list self.now.bytes.now row) }
    {
        let Some((listing, _)) = self.listing(row) else {
            return Ok(Vec::new(alloc));
        };
        match listing {
            Listing::Ground(places) => copied(alloc, places),
            Listing::Change(removed, added) => changed(alloc, before, removed, added),
            Listing::Same => Ok(Vec::from_slice(alloc, before)?),
        }
    }
}
