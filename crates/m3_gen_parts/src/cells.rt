use crate::methods::Tables;
use m3_base::{NoMemory, gap};
use m3_image_writer::{GlobalPart, TypePart};
use m3_layout::{cell_shape, has_cell};
use m3_lower_objects::number_of;
use m3_lower_storage::Storage;
use m3_types::TypeId;
use std::alloc::Global;

/// A type without a parent, in an image.
const NO_PARENT: u32 = u32::MAX;

const FIXED: u32 = 0;

const OPEN: u32 = 1;

const TEXT: u32 = 2;

/// The types of heap cells as an image has them: texts, threads, and then those of the program.
pub fn type_parts(alloc: Global, storage: &Storage) -> Result<Vec<TypePart>, NoMemory> {
    let tables = Tables::of(alloc, storage)?;
    let mut parts = Vec::new(alloc);
    parts.push(text_type(alloc))?;
    parts.push(thread_type(alloc)?)?;
    for kind in storage.cells.types() {
        let number = number_of(parts.len());
        parts.push(type_part(alloc, storage, &tables, *kind, number)?)?;
    }
    Ok(parts)
}

fn text_type(alloc: Global) -> TypePart {
    TypePart {
        kind: TEXT,
        parent: NO_PARENT,
        words: 0,
        dims: 0,
        methods: Vec::new(alloc),
        pointers: Vec::new(alloc),
    }
}

/// A thread's cell has its header, its number, its state and its result.
fn thread_type(alloc: Global) -> Result<TypePart, NoMemory> {
    let mut pointers = Vec::new(alloc);
    pointers.push(3)?;
    Ok(TypePart {
        kind: FIXED,
        parent: NO_PARENT,
        words: 4,
        dims: 0,
        methods: Vec::new(alloc),
        pointers,
    })
}

fn type_part(
    alloc: Global,
    storage: &Storage,
    tables: &Tables,
    kind: TypeId,
    number: u32,
) -> Result<TypePart, NoMemory> {
    let types = storage.types;
    // a type has no number where it has no cells
    if !has_cell(types, kind) {
        return Err(gap());
    }
    let shape = cell_shape(alloc, types, kind)?;
    Ok(TypePart {
        kind: if shape.dims == 0 { FIXED } else { OPEN },
        parent: storage.cells.parent(types, kind).unwrap_or(NO_PARENT),
        words: word_number(shape.words)?,
        dims: shape.dims,
        methods: tables.codes(alloc, number)?,
        pointers: pointers_from(alloc, 0, &shape.pointers)?,
    })
}

/// The words that are so many behind one.
fn pointers_from(alloc: Global, start: u32, pointers: &[u64]) -> Result<Vec<u32>, NoMemory> {
    let mut words = Vec::new(alloc);
    for pointer in pointers {
        words.push(start.saturating_add(word_number(*pointer)?))?;
    }
    Ok(words)
}

fn word_number(words: u64) -> Result<u32, NoMemory> {
    match u32::try_from(words) {
        Ok(words) => Ok(words),
        Err(_) => Err(NoMemory),
    }
}

/// The words of the global variables, and those that are pointers.
pub fn global_part(alloc: Global, storage: &Storage) -> Result<GlobalPart, NoMemory> {
    let mut pointers = Vec::new(alloc);
    for global in storage.globals() {
        let shape = storage.shape(alloc, global.kind)?;
        pointers.extend_from_slice(&pointers_from(alloc, global.word, &shape.pointers)?)?;
    }
    Ok(GlobalPart {
        words: storage.global_words,
        pointers,
    })
}
