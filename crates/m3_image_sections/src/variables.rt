//! The shown variables of an image.
ghost use Rattle.std.specs.Prelude.{◌≡◌};
ghost use Rattle.std.specs.Option.{option_map};

use crate::lists::{Pairs, byte_at, text_at};
use m3_tables::{Location, word_at};

/// A shown variable, as it stands in the bytes of an image.
#[derive(Clone, Copy)]
pub struct VarView<'a> {
    /// The number of its procedure, or the greatest number of 32 bits for a global.
    pub proc: u32,
    /// Which of the global words it is; 0 for a variable of a procedure.
    pub word: u32,
    /// Its name, for a global with its unit before it.
    pub name: &'a [u8],
    /// 0 for a number, 1 for a reference.
    pub form: u8,
    pub spans: Pairs<'a>,
}

/// Variables one after the other, as far as the bytes hold them.
#[derive(Clone, Copy)]
pub struct Variables<'a> {
    pub count: u32,
    pub bytes: &'a [u8],
}

impl<'a> VarView<'a> {
    ghost use Rattle.std.specs.Prelude.{map};
    ghost use Rattle.std.specs.List.{slice_get};
    ghost use Rattle.m3_tables.specs.Numbers.{rises};
    ghost use Rattle.m3_tables.specs.Places.{location_of};
    ghost use Rattle.m3_image_sections.specs.Parts.{variable_at};
    ghost use Rattle.m3_image_sections.specs.PartViews.{variable_of, pairs_of};

    /// Where the variable is while a thread stands at an instruction: that instruction, and the place. None
    /// exactly past the variable's spans.
    pub fn span(&self, n: u32) -> Option<(u32, Location)>
        ensures { result ≡ option_map (λ s. (s.0, location_of s.1)) (slice_get (variable_of self.now).spans n) }
    {
        let (instr, location) = self.spans.get(n)?;
        Some((instr, Location::from_number(location)))
    }

    /// The spans, one after the other: an instruction, and the number of the place where the variable is.
    pub fn spans(&self) -> Pairs<'a>
        ensures { pairs_of result ≡ (variable_of self.now).spans }
    {
        self.spans
    }

    /// A variable, and the bytes after it.
    #[tactic(auto, unfolding(crate::specs::Parts::variable_at))]
    fn at(bytes: &'a [u8]) -> Option<(VarView<'a>, &'a [u8])>
        ensures { option_map (λ x. (variable_of x.0, x.1.now)) result ≡ variable_at bytes.now }
    {
        let (proc, rest) = word_at(bytes)?;
        let (word, rest) = word_at(rest)?;
        let (name, rest) = text_at(rest)?;
        let (form, rest) = byte_at(rest)?;
        let (spans, rest) = Pairs::at(rest)?;
        let found = VarView {
            proc,
            word,
            name,
            form,
            spans,
        };
        Some((found, rest))
    }

    /// Whether the instruction of each span is above that of the one before.
    pub fn rises(&self) -> bool
        ensures { result ≡ rises (map (λ s. s.0) (variable_of self.now).spans) }
    {
        let mut spans = self.spans;
        let Some((mut last, _)) = spans.next() else {
            return true;
        };
        for (instr, _) in spans {
            if instr <= last {
                return false;
            }
            last = instr;
        }
        true
    }
}

impl<'a> Iterator for Variables<'a> {
    type Item = VarView<'a>;

    ghost use Rattle.std.specs.Iterator.{YieldsFirstBy, item_count};
    ghost use Rattle.m3_image_sections.specs.PartViews.{variable_of, variables_list};

    ghost next_gives = { YieldsFirstBy variable_of variables_list };

    ghost remaining = { item_count variables_list };

    fn next(&mut self) -> Option<VarView<'a>> {
        if self.count == 0 {
            return None;
        }
        let (first, rest) = VarView::at(self.bytes)?;
        *self = Variables {
            count: self.count - 1,
            bytes: rest,
        };
        Some(first)
    }
}

impl<'a> Variables<'a> {
    ghost use Rattle.std.specs.Prelude.{[]};
    ghost use Rattle.std.specs.List.{slice_get};
    ghost use Rattle.m3_image_sections.specs.Fields.{past_many};
    ghost use Rattle.m3_image_sections.specs.Parts.{variable_at, variables_at};
    ghost use Rattle.m3_image_sections.specs.PartViews.{variable_of, variables_list};

    /// No variables.
    pub fn nothing() -> Variables<'a>
        ensures { variables_list result ≡ [] }
    {
        Variables {
            count: 0,
            bytes: &[],
        }
    }

    /// The bytes after so many variables.
    fn past(count: u32, bytes: &'a [u8]) -> Option<&'a [u8]>
        ensures { option_map (λ x. x.now) result ≡ past_many variable_at count bytes.now }
    {
        let mut rest = bytes;
        for _ in 0..count {
            let (_, after) = VarView::at(rest)?;
            rest = after;
        }
        Some(rest)
    }

    /// Variables behind their count, and the bytes after them.
    #[tactic(auto, unfolding(crate::specs::Fields::many_at))]
    pub fn at(bytes: &'a [u8]) -> Option<(Variables<'a>, &'a [u8])>
        ensures { option_map (λ x. (variables_list x.0, x.1.now)) result ≡ variables_at bytes.now }
    {
        let (count, rest) = word_at(bytes)?;
        let after = Variables::past(count, rest)?;
        Some((Variables { count, bytes: rest }, after))
    }

    /// The variable of a number, from 0. None exactly past the last.
    pub fn get(&self, number: u32) -> Option<VarView<'a>>
        ensures { option_map variable_of result ≡ slice_get (variables_list self.now) number }
    {
        let mut variables = *self;
        for _ in 0..number {
            variables.next()?;
        }
        variables.next()
    }
}
