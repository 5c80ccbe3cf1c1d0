//! The lines that refuse an image and a schedule.
ghost use Rattle.std.specs.Prelude.{◌≡◌, ◌++◌, ℕ, List, IfOk, OnOk, decimal};
ghost use Rattle.m3c_image_commands.specs.Refusals.{bad_line, cause, image_line, too_many};
ghost use Rattle.m3c_image_commands.specs.Statuses.{RefusesBy};

use crate::answers::{Answer, Refusal};
use itoa::Buffer;
use m3_image::ImageRefusal;
use std::alloc::{AllocError, Global};

/// A refusal with a line of its own, if there was memory for it.
pub fn refuse(status: u8, line: Result<Vec<u8>, AllocError>) -> Result<Answer, Refusal<'static>>
    ensures { (said : List ℕ) → IfOk line (λ l. l.items ≡ said) → RefusesBy status said result }
{
    match line {
        Ok(line) => Ok(Answer { status, line }),
        Err(_) => Err(Refusal::NO_MEMORY),
    }
}

/// Adds a number in decimal.
pub fn push_number(line: &mut Vec<u8>, number: u32) -> Result<(), AllocError>
    ensures { OnOk result (line.new.items ≡ line.old.items ++ decimal number) }
{
    let mut buffer = Buffer::new();
    line.extend_from_slice(buffer.format(number).as_bytes())?;
    Ok(())
}

// Adds a word and a number.
fn push_numbered(line: &mut Vec<u8>, word: &[u8], number: u32) -> Result<(), AllocError>
    ensures { OnOk result (line.new.items ≡ line.old.items ++ (word.now ++ decimal number)) }
{
    line.extend_from_slice(word)?;
    push_number(line, number)
}

// Adds the condition that bytes meet which are no image.
fn push_cause(line: &mut Vec<u8>, refusal: ImageRefusal) -> Result<(), AllocError>
    ensures { OnOk result (line.new.items ≡ line.old.items ++ cause refusal) }
{
    match refusal {
        ImageRefusal::Short => line.extend_from_slice(b"short")?,
        ImageRefusal::Magic => line.extend_from_slice(b"magic")?,
        ImageRefusal::Version => line.extend_from_slice(b"version")?,
        ImageRefusal::Section(number) => push_numbered(line, b"section ", number)?,
        ImageRefusal::Instruction(number) => push_numbered(line, b"instruction ", number)?,
        ImageRefusal::Target(number) => push_numbered(line, b"target ", number)?,
        ImageRefusal::Table(number) => push_numbered(line, b"table ", number)?,
        ImageRefusal::Rest => line.extend_from_slice(b"rest")?,
    }
    Ok(())
}

/// The line of bytes that are no image.
pub fn image_line(alloc: Global, refusal: ImageRefusal) -> Result<Vec<u8>, AllocError>
    ensures { IfOk result (λ line. line.items ≡ image_line refusal) }
{
    let mut line = Vec::from_slice(alloc, b"image refused: ")?;
    push_cause(&mut line, refusal)?;
    line.extend_from_slice(b"\n")?;
    Ok(line)
}

/// The line of a text of which the line of this number is no entry of a schedule.
pub fn bad_line(alloc: Global, number: u32) -> Result<Vec<u8>, AllocError>
    ensures { IfOk result (λ line. line.items ≡ bad_line number) }
{
    let mut line = Vec::from_slice(alloc, b"schedule refused: line ")?;
    push_number(&mut line, number)?;
    line.extend_from_slice(b"\n")?;
    Ok(line)
}

/// The line of a text that has more entries than a schedule may have.
pub fn too_many(alloc: Global) -> Result<Vec<u8>, AllocError>
    ensures { IfOk result (λ line. line.items ≡ too_many) }
{
    Vec::from_slice(alloc, b"schedule refused: too many\n")
}
