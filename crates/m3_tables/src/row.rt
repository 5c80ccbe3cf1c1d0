ghost use Rattle.std.specs.Prelude.{◌<◌, ◌≤◌, ℕ, IsTrue};
ghost use Rattle.m3_tables.specs.Numbers.{word_in};
ghost use Rattle.m3_tables.specs.Sections.{is_good};

use crate::derivation::Derivation;
use crate::fields::{Contents, Entries, Listing, contents_at};
use crate::numbers::Numbers;
use crate::place::Location;
use crate::section::Section;
use m3_base::NoMemory;
use std::alloc::Global;

/// A row of the tables: where the live pointers are while a thread stands at its instruction.
#[derive(Clone, Copy)]
pub struct Row<'a> {
    pub(crate) section: Section<'a>,
    pub(crate) number: usize,
    ghost there: { number < word_in section.bytes.now },
    ghost good: { (k : ℕ) → k ≤ number → IsTrue (is_good section.bytes.now k) },
}

impl<'a> Row<'a> {
    ghost use Rattle.std.specs.Prelude.{◌≡◌, true, IfOk};
    ghost use Rattle.std.specs.Option.{option_map};
    ghost use Rattle.std.specs.List.{slice_get};
    ghost use Rattle.m3_tables.specs.Numbers.{has, is_once};
    ghost use Rattle.m3_tables.specs.Sections.{contents_in, instruction_in, is_tidy, was_list};
    ghost use Rattle.m3_tables.specs.Keeping.{RowKept};
    ghost use Rattle.m3_tables.specs.Views.{contents_of, entry_of, numbers_of, entries_of};
    ghost use Rattle.m3_tables.specs.Tables.{section_of_row, number_of_row, is_tidy_in, is_argument_in, is_passed_in, tidy_in, arguments_in, passed_in, derived_in};

    pub(crate) fn of(section: Section<'a>, number: usize) -> Row<'a>
        requires there { number < word_in section.bytes.now }
        requires good { (k : ℕ) → k ≤ number → IsTrue (is_good section.bytes.now k) }
        ensures section { section_of_row result ≡ section.entry.bytes.now }
        ensures number { number_of_row result ≡ number }
    {
        Row { section, number }
    }

    /// What every row keeps: it holds of each, however it was come by.
    pub fn keeps_its_form(&self)
        ensures { RowKept (section_of_row self.now) (number_of_row self.now) }
    {}

    /// The row's instruction.
    pub fn instruction(&self) -> u32
        ensures { result ≡ instruction_in (section_of_row self.now) (number_of_row self.now) }
    {
        self.section.instruction(self.number)
    }

    /// All of the row but its tidy places. A row that is the same as the one before has that one's.
    pub(crate) fn contents(&self) -> Contents<'a>
        ensures { contents_of result ≡ contents_in self.now.section.bytes.now self.now.number }
    {
        let mut row = self.number;
        while let Some((listing, rest)) = self.section.listing(row) {
            if let Listing::Same = listing {
                if row == 0 {
                    break;
                }
                row -= 1;
            } else {
                return match contents_at(rest) {
                    Some((contents, _)) => contents,
                    None => Contents::nothing(),
                };
            }
        }
        Contents::nothing()
    }

    /// The row's number, from 0 in the order of the code.
    pub fn number(&self) -> usize
        ensures { result ≡ number_of_row self.now }
    {
        self.number
    }

    /// Whether the row says that it is the same as the one before: its tidy places are the same then.
    pub fn is_same(&self) -> bool
        ensures { IsTrue result → tidy_in self.now ≡ was_list (section_of_row self.now) (number_of_row self.now) }
    {
        self.section.is_same(self.number)
    }

    /// The numbers of the tidy places, each once, by those of the row before; the first row has none before it.
    #[tactic(auto, using(crate::proofs::SectionLemmas::has_tidy_list))]
    pub fn tidy_places(&self, alloc: Global, before: &[u32]) -> Result<Vec<u32>, NoMemory>
        requires { before.now ≡ was_list (section_of_row self.now) (number_of_row self.now) }
        ensures list { IfOk result (λ v. v.items ≡ tidy_in self.now) }
        ensures once { IfOk result (λ v. is_once v.items ≡ true) }
        ensures tidy { IfOk result (λ v. (l : ℕ) → has v.items l ≡ is_tidy (section_of_row self.now) (number_of_row self.now) l) }
    {
        self.section.tidy_places(alloc, self.number, before)
    }

    /// The numbers of the places of the arguments by value, which rise.
    pub fn argument_places(&self) -> Numbers<'a>
        ensures { numbers_of result ≡ arguments_in self.now }
    {
        self.contents().arguments
    }

    /// The numbers of the places of the formals that the caller's row describes, which rise.
    pub fn passed_places(&self) -> Numbers<'a>
        ensures { numbers_of result ≡ passed_in self.now }
    {
        self.contents().passed
    }

    /// The derived words, one after the other, in the order in which bases are subtracted.
    pub fn derivations(&self) -> Entries<'a>
        ensures { entries_of result ≡ derived_in self.now }
    {
        self.contents().derived
    }

    /// Whether a place is a tidy pointer.
    pub fn tidy(&self, l: Location) -> bool
        ensures { result ≡ is_tidy_in self.now l }
    {
        match l.number() {
            Some(place) => self.section.is_tidy(self.number, place),
            None => false,
        }
    }

    /// Whether a place is an argument by value of the call at this point.
    pub fn argument(&self, l: Location) -> bool
        ensures { result ≡ is_argument_in self.now l }
    {
        match l.number() {
            Some(place) => self.contents().arguments.has(place),
            None => false,
        }
    }

    /// Whether a place is a formal that the caller's row describes.
    pub fn passed(&self, l: Location) -> bool
        ensures { result ≡ is_passed_in self.now l }
    {
        match l.number() {
            Some(place) => self.contents().passed.has(place),
            None => false,
        }
    }

    /// The derived word of a number, from 0, in the order in which bases are subtracted. None exactly past
    /// the row's entries.
    pub fn derived(&self, n: u32) -> Option<Derivation<'a>>
        ensures { option_map entry_of result ≡ slice_get (derived_in self.now) n }
    {
        let mut entries = self.contents().derived;
        for _ in 0..n {
            entries.next()?;
        }
        entries.next()
    }
}
