//! The whole image.
ghost use Rattle.std.specs.Prelude.{◌≡◌, ◌≤◌, ◌<◌, ◌^◌, ◌++◌, length, OnOk, IfOk, Ok};
ghost use Rattle.std.specs.List.{AllByRecursion};
ghost use Rattle.m3_isa.specs.Instructions.{IsInstruction};
ghost use Rattle.m3_image.specs.Images.{read_of};
ghost use Rattle.m3_image_writer.specs.Again.{AreRead};
ghost use Rattle.m3_image_writer.specs.Views.{image_of};
ghost use Rattle.m3_image_writer.specs.Parts.{AreParts};
ghost use Rattle.m3_image_writer.specs.Image.{fixed_bytes, image_bytes};

use crate::fields::{put_text, put_word};
use crate::parts::ImageParts;
use crate::sections::{
    put_code, put_constants, put_exceptions, put_globals, put_places, put_procs, put_types,
};
use crate::variables::put_variables;
use m3_base::NoMemory;
use std::alloc::Global;

/// The eight sections that each image has.
#[tactic(auto, unfolding(crate::specs::Image::fixed_bytes))]
fn put_sections(alloc: Global, out: &mut Vec<u8>, parts: &ImageParts) -> Result<(), NoMemory>
    requires form { AllByRecursion IsInstruction parts.now.code.items }
    requires size { length (fixed_bytes parts.now) < 2 ^ 32 }
    ensures again { OnOk result (AreRead parts.now) }
    ensures bytes { OnOk result (out.new.items ≡ out.old.items ++ fixed_bytes parts.now) }
{
    put_code(alloc, out, &parts.code)?;
    put_procs(alloc, out, &parts.procs)?;
    put_types(alloc, out, &parts.types)?;
    put_globals(alloc, out, &parts.globals)?;
    put_constants(alloc, out, &parts.constants)?;
    put_places(alloc, out, &parts.places)?;
    put_exceptions(alloc, out, &parts.exceptions)?;
    put_text(out, &parts.tables)?;
    Ok(())
}

/// The bytes of an image: `M3IM`, the version, and each section behind its length, of at most
/// 4,294,967,295 bytes in all. The parts have to keep what the reader of images asks of every
/// image. The only error is want of memory.
#[tactic(auto, unfolding(crate::specs::Image::image_bytes))]
pub fn write_image(alloc: Global, parts: &ImageParts) -> Result<Vec<u8>, NoMemory>
    requires form { AreParts parts.now }
    requires size { length (image_bytes parts.now) ≤ 4294967295 }

    ensures bytes { IfOk result (λ v. v.items ≡ image_bytes parts.now) }
    // What is written is read again as the same lists.
    ensures read_again { IfOk result (λ v. read_of v.items ≡ Ok (image_of parts.now)) }
{
    let mut out = Vec::from_slice(alloc, b"M3IM")?;
    match &parts.variables {
        None => {
            put_word(&mut out, 1)?;
            put_sections(alloc, &mut out, parts)?;
            Ok(out)
        }
        Some(variables) => {
            put_word(&mut out, 2)?;
            put_sections(alloc, &mut out, parts)?;
            put_variables(alloc, &mut out, variables)?;
            Ok(out)
        }
    }
}
