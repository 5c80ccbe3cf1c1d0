//! The shown variables of an image beside its program.
ghost use Rattle.std.specs.Prelude.{◌≡◌};
ghost use Rattle.std.specs.Option.{option_map};

use crate::program::Program;
use m3_image_sections::{ImageRefusal, NONE, Pairs, ProcPart, VarView, Variables};

impl<'a> Program<'a> {
    ghost use Rattle.std.specs.Prelude.{IfOk, IsTrue};
    ghost use Rattle.std.specs.List.{list_all};
    ghost use Rattle.m3_image.specs.Programs.{span_fits, local_fits, owner_fits, variable_fits};
    ghost use Rattle.m3_image_sections.specs.Reading.{seen};
    ghost use Rattle.m3_image.specs.Images.{variables_of};
    ghost use Rattle.m3_image_sections.specs.PartViews.{pairs_of, variable_of, variables_list};
    ghost use Rattle.m3_image.specs.Views.{program_view};

    /// Whether a span is at a point of a procedure, in a register or in a slot of its frame.
    fn span_fits(&self, proc: ProcPart, instr: u32, location: u32) -> bool
        ensures { result ≡ span_fits (program_view self.now) proc (instr, location) }
    {
        self.code.is_point_at(instr)
            && instr >= proc.first
            && (instr as u64) < proc.end()
            && (location as u64) < proc.frame as u64 + 16
    }

    fn spans_fit(&self, proc: ProcPart, spans: Pairs<'_>) -> bool
        ensures { result ≡ list_all (span_fits (program_view self.now) proc) (pairs_of spans.entry) }
    {
        for (instr, location) in spans {
            if !self.span_fits(proc, instr, location) {
                return false;
            }
        }
        true
    }

    /// Whether a variable's word and spans are those of a global or of a procedure that is there.
    fn owner_fits(&self, v: &VarView<'_>) -> bool
        ensures { result ≡ owner_fits (program_view self.now) (variable_of v.now) }
    {
        if v.proc == NONE {
            return v.word < self.globals.words && v.spans.count == 0;
        }
        match self.procs.get(v.proc) {
            Some(proc) => v.word == 0 && v.rises() && self.spans_fit(proc, v.spans),
            None => false,
        }
    }

    fn variables_fit(&self, variables: Variables<'_>) -> bool
        ensures { result ≡ list_all (variable_fits (program_view self.now)) (variables_list variables.entry) }
    {
        for v in variables {
            if v.form > 1 || !self.owner_fits(&v) {
                return false;
            }
        }
        true
    }

    /// The variables of the ninth section, where it holds nothing else and they have their form; none where there
    /// is no such section.
    #[tactic(auto, unfolding(crate::specs::Images::variables_of))]
    pub(crate) fn variables(&self, section: Option<&'a [u8]>) -> Result<Variables<'a>, ImageRefusal>
        ensures value { seen variables_list result ≡ variables_of (program_view self.now) (option_map (λ s. s.now) section.entry) }
        ensures fit { IfOk result (λ v. IsTrue (list_all (variable_fits (program_view self.now)) (variables_list v))) }
    {
        let Some(section) = section else {
            return Ok(Variables::nothing());
        };
        match Variables::at(section) {
            Some((variables, rest)) if rest.is_empty() && self.variables_fit(variables) => {
                Ok(variables)
            }
            _ => Err(ImageRefusal::Section(9)),
        }
    }
}
