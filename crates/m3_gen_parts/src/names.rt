use m3_base::{Bytes, NoMemory};
use m3_core::Core;
use m3_emit::Places;
use m3_image_writer::PlacePart;
use std::alloc::Global;

/// The name of a unit and of a thing in it, with a dot between.
pub(crate) fn full_name(alloc: Global, unit: &[u8], name: &[u8]) -> Result<Bytes, NoMemory> {
    let mut text = Vec::from_slice(alloc, unit)?;
    text.push(b'.')?;
    for byte in name {
        text.push(*byte)?;
    }
    Bytes::of(alloc, text.as_slice())
}

/// The names of the files, and the places that faults name.
pub fn place_part(alloc: Global, core: &Core, places: &Places) -> Result<PlacePart, NoMemory> {
    Ok(PlacePart {
        files: file_names(alloc, core)?,
        places: Vec::from_slice(alloc, places.list())?,
    })
}

fn file_names(alloc: Global, core: &Core) -> Result<Vec<Bytes>, NoMemory> {
    let mut files = Vec::new(alloc);
    for file in core.files {
        files.push(Bytes::of(alloc, file)?)?;
    }
    Ok(files)
}

/// The full names of the exceptions, in their order.
pub fn exception_names(alloc: Global, core: &Core) -> Result<Vec<Bytes>, NoMemory> {
    let mut names = Vec::new(alloc);
    for exception in core.exceptions {
        names.push(full_name(alloc, exception.unit, exception.name)?)?;
    }
    Ok(names)
}
