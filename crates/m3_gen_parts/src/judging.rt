ghost use Rattle.std.specs.Prelude.{IfOk, IfSome, IsTrue};
ghost use Rattle.std.specs.Result.{IsOk};
ghost use Rattle.m3_image.specs.Images.{read_of};

use crate::fields::{put_text, put_word};
use crate::sections::{
    put_code, put_constants, put_exceptions, put_globals, put_places, put_procs, put_types,
    put_variables,
};
use m3_base::NoMemory;
use m3_image::ImageView;
use m3_image_writer::ImageParts;
use std::alloc::Global;

/// The image that has these parts; none where the parts aren't those of an image.
pub fn judged_image(alloc: Global, parts: &ImageParts) -> Result<Option<Vec<u8>>, NoMemory>
    ensures { IfOk result (λ found. IfSome found (λ image. IsOk (read_of image.items))) }
{
    let bytes = drafted(alloc, parts)?;
    if is_image(&bytes) {
        Ok(Some(bytes))
    } else {
        Ok(None)
    }
}

fn is_image(bytes: &[u8]) -> bool
    ensures { IsTrue result → IsOk (read_of bytes.now) }
{
    match ImageView::read(bytes) {
        Ok(_) => true,
        Err(_) => false,
    }
}

/// `M3IM`, the version, and each section behind its length.
fn drafted(alloc: Global, parts: &ImageParts) -> Result<Vec<u8>, NoMemory> {
    let mut out = Vec::from_slice(alloc, b"M3IM")?;
    match &parts.variables {
        None => {
            put_word(&mut out, 1)?;
            put_sections(alloc, &mut out, parts)?;
        }
        Some(variables) => {
            put_word(&mut out, 2)?;
            put_sections(alloc, &mut out, parts)?;
            put_variables(alloc, &mut out, variables)?;
        }
    }
    Ok(out)
}

/// The eight sections that each image has.
fn put_sections(alloc: Global, out: &mut Vec<u8>, parts: &ImageParts) -> Result<(), NoMemory> {
    put_code(alloc, out, &parts.code)?;
    put_procs(alloc, out, &parts.procs)?;
    put_types(alloc, out, &parts.types)?;
    put_globals(alloc, out, &parts.globals)?;
    put_constants(alloc, out, &parts.constants)?;
    put_places(alloc, out, &parts.places)?;
    put_exceptions(alloc, out, &parts.exceptions)?;
    put_text(out, &parts.tables)
}
