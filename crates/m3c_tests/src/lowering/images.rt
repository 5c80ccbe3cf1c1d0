use bumpalo::Bump;
use m3_base::NoMemory;
use m3_build::build;
use m3_core::Core;
use m3_source::image_size;
use std::alloc::Global;

/// The bytes that an image may have for each unit of its program's size.
const BYTES_FOR_ONE: u128 = 80;
/// The bytes that it may have more. The limit is 200,000,000; programs of a test are far smaller.
const BYTES_MORE: u128 = 4096;

/// What is too large of the program's image; none where it is within its bound.
pub fn too_large<'a>(
    alloc: Global,
    arena: &'a Bump,
    core: &'a Core<'a>,
) -> Result<Option<String>, NoMemory> {
    let image = build(alloc, arena, core)?;
    let size = image_size(alloc, core)?;
    let most = size
        .saturating_mul(BYTES_FOR_ONE)
        .saturating_add(BYTES_MORE);
    let bytes = image.len();
    if bytes as u128 <= most {
        return Ok(None);
    }
    Ok(Some(format!(in alloc; "an image of {bytes} bytes for {most}")?))
}
