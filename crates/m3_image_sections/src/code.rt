//! The code of an image.
ghost use Rattle.std.specs.Prelude.{◌≡◌, ◌≤◌, ◌<◌, ◌^◌, ◌/◌, None, IfSome, is_some, length};
ghost use Rattle.m3_isa.specs.Instructions.{IsInstruction};
ghost use Rattle.m3_isa.specs.CodeBytes.{instruction_in};
ghost use Rattle.m3_image_sections.specs.Ranges.{first_failing};
ghost use Rattle.m3_image_sections.specs.Reading.{instruction_at};

use crate::refusal::ImageRefusal;
use m3_isa::{Instr, decode};

/// Instructions one after the other, in eight bytes each.
#[derive(Clone, Copy)]
pub struct Code<'a> {
    pub bytes: &'a [u8],
    ghost sound: { first_failing (λ n. is_some (instruction_at bytes.now n)) (length bytes.now / 8) ≡ None },
    ghost small: { length bytes.now < 2 ^ 32 },
}

/// The instruction in the first eight bytes, where they are those of one.
fn instruction_in(bytes: &[u8]) -> Option<Instr>
    requires { 8 ≤ length bytes.now }
    ensures value { result ≡ instruction_in bytes.now }
    ensures good { IfSome result (λ i. IsInstruction i) }
{
    let mut eight = [0; 8];
    eight.copy_from_slice(&bytes[..8]);
    decode(eight)
}

/// Whether the first eight bytes are those of an instruction.
fn is_instruction(bytes: &[u8]) -> bool
    requires { 8 ≤ length bytes.now }
    ensures { result ≡ is_some (instruction_in bytes.now) }
{
    instruction_in(bytes).is_some()
}

/// The first number whose eight bytes are no instruction.
fn first_bad(section: &[u8]) -> Option<u32>
    requires { length section.now < 2 ^ 32 }
    ensures { result ≡ first_failing (λ n. is_some (instruction_at section.now n)) (length section.now / 8) }
{
    for n in 0..(section.len() / 8) as u32 {
        if !is_instruction(&section[8 * n as usize..]) {
            return Some(n);
        }
    }
    None
}

impl<'a> Code<'a> {
    ghost use Rattle.std.specs.List.{slice_get};
    ghost use Rattle.m3_image_sections.specs.Reading.{code_of, seen};
    ghost use Rattle.m3_image_sections.specs.Ranges.{is_point_at};
    ghost use Rattle.m3_image_sections.specs.PartViews.{code_list};

    /// The code of a section.
    #[tactic(auto, unfolding(crate::specs::Reading::code_of))]
    pub fn of(section: &'a [u8]) -> Result<Code<'a>, ImageRefusal>
        requires { length section.now < 2 ^ 32 }
        ensures { seen code_list result ≡ code_of section.now }
    {
        if section.len() % 8 != 0 {
            return Err(ImageRefusal::Section(1));
        }
        match first_bad(section) {
            Some(n) => Err(ImageRefusal::Instruction(n)),
            None => Ok(Code { bytes: section }),
        }
    }

    /// How many instructions there are.
    pub fn len(&self) -> u32
        ensures { result ≡ length (code_list self.now) }
    {
        (self.bytes.len() / 8) as u32
    }

    /// The instruction of a number, from 0. None exactly past the last.
    pub fn get(&self, number: u32) -> Option<Instr>
        ensures value { result ≡ slice_get (code_list self.now) number }
        ensures good { IfSome result (λ i. IsInstruction i) }
    {
        if number >= (self.bytes.len() / 8) as u32 {
            return None;
        }
        instruction_in(&self.bytes[8 * number as usize..])
    }

    /// Whether a point instruction stands at a place.
    pub fn is_point_at(&self, number: u32) -> bool
        ensures { result ≡ is_point_at (code_list self.now) number }
    {
        match self.get(number) {
            Some(i) => i.op.is_point(),
            None => false,
        }
    }
}
