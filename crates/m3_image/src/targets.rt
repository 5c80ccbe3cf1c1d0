//! What the numbers of instructions name, and which of them name what isn't there.
ghost use Rattle.std.specs.Prelude.{◌≡◌, length};
ghost use Rattle.m3_image.specs.Programs.{is_below};

use crate::program::Program;
use m3_isa::{Instr, Op};

/// What the number of an instruction names.
#[derive(Clone, Copy)]
pub(crate) enum Target {
    Jump,
    Procedure,
    Constant,
    Global,
    Type,
    Place,
    Method,
    Slot,
    Register,
    Nothing,
}

impl Target {
    ghost use Rattle.m3_image.specs.Programs.{target_of};

    /// What the number of an operation's instruction names.
    fn of(op: Op) -> Target
        ensures { result ≡ target_of op }
    {
        match op {
            Op::Con => Target::Constant,
            Op::Glb => Target::Global,
            Op::Slot | Op::Lds | Op::Sts => Target::Slot,
            Op::Addo | Op::Subo | Op::Mulo => Target::Jump,
            Op::Divf | Op::Modf | Op::Divu | Op::Modu => Target::Jump,
            Op::Jmp | Op::Bz | Op::Bnz | Op::Blt | Op::Bltu | Op::Beq => Target::Jump,
            Op::Call => Target::Procedure,
            Op::Callm | Op::Meth => Target::Method,
            Op::Subt | Op::New | Op::Newo => Target::Type,
            Op::Fault => Target::Place,
            Op::Tsub => Target::Register,
            Op::Join | Op::Rel | Op::Wait | Op::Await | Op::Ajoin | Op::Getc => Target::Jump,
            _ => Target::Nothing,
        }
    }
}

/// Whether a number is from 0 on and below a limit.
fn is_below(number: i32, limit: usize) -> bool
    ensures { result ≡ is_below limit number }
{
    number >= 0 && (number as usize) < limit
}

impl<'a> Program<'a> {
    ghost use Rattle.m3_image.specs.Programs.{names, target_fits};
    ghost use Rattle.m3_image_sections.specs.Ranges.{first_failing};
    ghost use Rattle.m3_image.specs.Views.{program_view};

    /// Whether the number of an instruction at a place names what is there, where there are so many types.
    fn names(&self, pc: u32, i: Instr, target: Target, types: u32) -> bool
        requires { types ≡ length (program_view self.now).types }
        ensures { result ≡ names (program_view self.now) pc i target }
    {
        match target {
            Target::Jump => match self.procs.containing(pc) {
                Some(proc) => proc.contains(i.imm),
                None => false,
            },
            Target::Procedure => is_below(i.imm, self.procs.len()),
            Target::Constant => is_below(i.imm, self.constants.len()),
            Target::Global => is_below(i.imm, self.globals.words as usize),
            Target::Type => is_below(i.imm, types as usize),
            Target::Place => is_below(i.imm, self.places.len()) && i.a < 16,
            Target::Method | Target::Slot => i.imm >= 0,
            Target::Register => is_below(i.imm, 16),
            Target::Nothing => true,
        }
    }

    /// Whether the number of the instruction at a place names what is there, where there are so many types.
    fn target_fits(&self, pc: u32, types: u32) -> bool
        requires { types ≡ length (program_view self.now).types }
        ensures { result ≡ target_fits (program_view self.now) pc }
    {
        match self.code.get(pc) {
            Some(i) => self.names(pc, i, Target::of(i.op), types),
            None => true,
        }
    }

    /// The first instruction whose number names what isn't there.
    pub(crate) fn first_bad_target(&self) -> Option<u32>
        ensures { result ≡ first_failing (target_fits (program_view self.now)) (length (program_view self.now).code) }
    {
        let types = self.types.len();
        let count = self.code.len();
        for pc in 0..count {
            if !self.target_fits(pc, types) {
                return Some(pc);
            }
        }
        None
    }
}
