ghost use Rattle.std.specs.Prelude.{IfOk};
ghost use Rattle.std.specs.Result.{IsOk};
ghost use Rattle.m3_image.specs.Images.{read_of};

use crate::code::{Code, code_of};
use bumpalo::Bump;
use bumpalo::collections::into_bump_slice;
use m3_base::{NoMemory, gap};
use m3_core::Core;
use m3_emit::Places;
use m3_gen_parts::{
    Constants, exception_names, global_part, judged_image, place_part, table_section, type_parts,
    var_parts,
};
use m3_image_writer::ImageParts;
use m3_lower_storage::Storage;
use std::alloc::Global;

/// The image of a checked program, of version 2 (docs/MACHINE.md). The program stands in the arena,
/// and what is known of where it keeps its things goes there too.
pub fn build<'a>(alloc: Global, arena: &'a Bump, core: &'a Core<'a>) -> Result<Vec<u8>, NoMemory>
    ensures { IfOk result (λ image. IsOk (read_of image.items)) }
{
    let parts = program_parts(alloc, arena, core)?;
    match judged_image(alloc, &parts)? {
        Some(image) => Ok(image),
        // the parts of a checked program are those of an image
        None => Err(gap()),
    }
}

fn program_parts<'a>(
    alloc: Global,
    arena: &'a Bump,
    core: &'a Core<'a>,
) -> Result<ImageParts, NoMemory> {
    let mut kept = Vec::new(arena);
    kept.push(Storage::of(alloc, core)?)?;
    match into_bump_slice(kept) {
        [storage, ..] => parts_in(alloc, core, storage),
        [] => Err(NoMemory),
    }
}

fn parts_in<'a>(
    alloc: Global,
    core: &Core,
    storage: &'a Storage<'a>,
) -> Result<ImageParts, NoMemory> {
    let constants = Constants::of(alloc, core.texts, storage)?;
    let mut places = Places::new(alloc);
    let code = code_of(alloc, core, storage, &constants, &mut places)?;
    parts_of(alloc, core, storage, constants.words, code, &places)
}

fn parts_of(
    alloc: Global,
    core: &Core,
    storage: &Storage,
    constants: Vec<u64>,
    code: Code,
    places: &Places,
) -> Result<ImageParts, NoMemory> {
    let tables = table_section(alloc, &code.rows)?;
    let variables = var_parts(alloc, core, storage, &code.spans)?;
    let Code {
        code,
        procs,
        rows: _,
        spans: _,
    } = code;
    Ok(ImageParts {
        code,
        procs,
        types: type_parts(alloc, storage)?,
        globals: global_part(alloc, storage)?,
        constants,
        places: place_part(alloc, core, places)?,
        exceptions: exception_names(alloc, core)?,
        tables,
        variables: Some(variables),
    })
}
