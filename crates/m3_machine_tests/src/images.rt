//! Images of two or three procedures, with the same types, globals, constants, places and
//! exceptions in each.
use crate::assembly::{Assembly, Row};
use crate::bytes::{add, add_count, add_section};
use std::alloc::{AllocError, Global};

const NONE: u32 = 4_294_967_295;

/// Four types: 0 is a text, 1 the cell of a thread, 2 has three words with a pointer in word 2,
/// and 3 is an open array of one dimension, whose elements have a word.
const TYPES: [u32; 26] = [
    2, NONE, 0, 0, 0, 0, 0, NONE, 4, 0, 0, 1, 3, 0, NONE, 3, 0, 0, 1, 2, 1, NONE, 1, 1, 0, 0,
];

/// Type 4, in an image with a procedure 2: its parent is 2, it has four words with a pointer in
/// word 2, and two methods, of which the first is procedure 2 and the other is none.
const CHILD: [u32; 9] = [0, 2, 4, 0, 2, 3, 0, 1, 2];

/// The words of a frame below its callee's, and all of them.
const FRAMES: [(u32, u32); 3] = [(6, 12), (3, 7), (3, 8)];

/// The image of some code: eight global words, of which 4 and 5 are pointers, the constants 7 and
/// 9, one place (line 3 of A.m3) and one exception (A.E).
pub fn image_of(alloc: Global, assembly: &Assembly) -> Result<Vec<u8>, AllocError> {
    let mut bytes = Vec::from_slice(alloc, b"M3IM\x01\x00\x00\x00")?;
    add_section(&mut bytes, assembly.code.as_slice())?;
    let procedures = procedures_of(alloc, assembly)?;
    add_section(&mut bytes, procedures.as_slice())?;
    let types = types_of(alloc, assembly.firsts.len() > 2)?;
    add_section(&mut bytes, types.as_slice())?;
    add_words(alloc, &mut bytes, &[8, 2, 4, 5])?;
    add_words(alloc, &mut bytes, &[2, 7, 0, 9, 0])?;
    add_section(
        &mut bytes,
        b"\x01\x00\x00\x00\x04\x00\x00\x00A.m3\x01\x00\x00\x00\x00\x00\x00\x00\x03\x00\x00\x00",
    )?;
    add_section(&mut bytes, b"\x01\x00\x00\x00\x03\x00\x00\x00A.E")?;
    let table = table_of(alloc, assembly.rows.as_slice())?;
    add_section(&mut bytes, table.as_slice())?;
    Ok(bytes)
}

/// Adds a section of words.
fn add_words(alloc: Global, bytes: &mut Vec<u8>, words: &[u32]) -> Result<(), AllocError> {
    let mut section = Vec::new(alloc);
    for word in words {
        add(&mut section, *word)?;
    }
    add_section(bytes, section.as_slice())
}

fn procedures_of(alloc: Global, assembly: &Assembly) -> Result<Vec<u8>, AllocError> {
    let mut bytes = Vec::new(alloc);
    for (number, first) in assembly.firsts.iter().enumerate() {
        let behind = assembly.firsts.get(number.wrapping_add(1));
        let end = behind.copied().unwrap_or(assembly.count);
        let (body, frame) = FRAMES.get(number).copied().unwrap_or((3, 8));
        add(&mut bytes, *first)?;
        add(&mut bytes, end.wrapping_sub(*first))?;
        add(&mut bytes, body)?;
        add(&mut bytes, frame)?;
    }
    Ok(bytes)
}

fn types_of(alloc: Global, has_child: bool) -> Result<Vec<u8>, AllocError> {
    let mut bytes = Vec::new(alloc);
    for word in &TYPES {
        add(&mut bytes, *word)?;
    }
    if has_child {
        add_child(&mut bytes)?;
    }
    Ok(bytes)
}

fn add_child(bytes: &mut Vec<u8>) -> Result<(), AllocError> {
    for word in &CHILD {
        add(bytes, *word)?;
    }
    Ok(())
}

/// The table: the count of its rows, the instruction of each row and where it begins, and the
/// rows.
fn table_of(alloc: Global, rows: &[Row]) -> Result<Vec<u8>, AllocError> {
    let mut bytes = Vec::new(alloc);
    let mut all = Vec::new(alloc);
    add_count(&mut bytes, rows.len())?;
    for row in rows {
        add(&mut bytes, row.instruction)?;
        add_count(&mut bytes, all.len())?;
        all.extend_from_slice(row.bytes.as_slice())?;
    }
    bytes.extend_from_slice(all.as_slice())?;
    Ok(bytes)
}
