use crate::bytes::{add, add_list};
use std::alloc::{AllocError, Global};

/// The bytes of a row, whose text ends with a brace. `same` is a row like the one before, `change`
/// stands before the places that come with `+` and go with `-`, and else the lists T, A, R and D
/// of a row stand with commas between.
pub fn row_of(alloc: Global, text: &str) -> Result<Vec<u8>, AllocError> {
    let (text, _) = text.split_once("}").unwrap_or((text, ""));
    let mut bytes = Vec::new(alloc);
    if text == "same" {
        bytes.push(2)?;
        return Ok(bytes);
    }
    match text.strip_prefix("change ") {
        Some(places) => {
            bytes.push(1)?;
            add_places(alloc, &mut bytes, places, "-")?;
            add_places(alloc, &mut bytes, places, "+")?;
            add_places(alloc, &mut bytes, "", "")?;
            add_places(alloc, &mut bytes, "", "")?;
            add_entries(alloc, &mut bytes, "")?;
        }
        None => {
            bytes.push(0)?;
            add_places(alloc, &mut bytes, list_of(text, "T"), "")?;
            add_places(alloc, &mut bytes, list_of(text, "A"), "")?;
            add_places(alloc, &mut bytes, list_of(text, "R"), "")?;
            add_entries(alloc, &mut bytes, list_of(text, "D"))?;
        }
    }
    Ok(bytes)
}

/// The words of a list of a row.
fn list_of<'t>(text: &'t str, wanted: &str) -> &'t str {
    for list in text.split(", ") {
        let (name, words) = list.split_once(" ").unwrap_or((list, ""));
        if name == wanted {
            return words;
        }
    }
    ""
}

/// The number of a place: a register as r3, or a slot as s3.
fn place_of(word: &str) -> Option<u32> {
    match word.strip_prefix("r") {
        Some(digits) => digits.parse::<u32>().ok(),
        None => {
            let digits = word.strip_prefix("s")?;
            Some(digits.parse::<u32>().ok()?.wrapping_add(16))
        }
    }
}

/// Adds the list of the places before which this mark stands.
fn add_places(
    alloc: Global,
    bytes: &mut Vec<u8>,
    words: &str,
    mark: &str,
) -> Result<(), AllocError> {
    let mut places = Vec::new(alloc);
    for word in words.split(" ") {
        if let Some(place) = word.strip_prefix(mark).and_then(place_of) {
            places.push(place)?;
        }
    }
    add_list(bytes, places.as_slice())
}

/// Adds the derived words of a row.
fn add_entries(alloc: Global, bytes: &mut Vec<u8>, words: &str) -> Result<(), AllocError> {
    let mut count = 0u32;
    let mut entries = Vec::new(alloc);
    for word in words.split(" ") {
        if let Some((places, ways)) = word.split_once("=") {
            count = count.wrapping_add(1);
            add_entry(alloc, &mut entries, places, ways)?;
        }
    }
    add(bytes, count)?;
    bytes.extend_from_slice(entries.as_slice())
}

fn add_entry(
    alloc: Global,
    bytes: &mut Vec<u8>,
    places: &str,
    ways: &str,
) -> Result<(), AllocError> {
    let (place, path) = places.split_once("?").unwrap_or((places, ""));
    add(bytes, place_of(place).unwrap_or(0))?;
    add(bytes, place_of(path).unwrap_or(4_294_967_295))?;
    let mut count = 0u16;
    let mut all = Vec::new(alloc);
    for way in ways.split("|") {
        count = count.wrapping_add(1);
        add_way(alloc, &mut all, way)?;
    }
    bytes.extend_from_slice(&count.to_le_bytes())?;
    bytes.extend_from_slice(all.as_slice())
}

/// Adds a way: its bases have a `+` or a `-` before each.
fn add_way(alloc: Global, bytes: &mut Vec<u8>, way: &str) -> Result<(), AllocError> {
    let mut added = Vec::new(alloc);
    let mut subtracted = Vec::new(alloc);
    for piece in way.split("+") {
        let (first, rest) = piece.split_once("-").unwrap_or((piece, ""));
        if let Some(place) = place_of(first) {
            added.push(place)?;
        }
        if let Some(place) = place_of(rest) {
            subtracted.push(place)?;
        }
    }
    bytes.push(u8::try_from(added.len()).unwrap_or(u8::MAX))?;
    bytes.push(u8::try_from(subtracted.len()).unwrap_or(u8::MAX))?;
    add_all(bytes, added.as_slice())?;
    add_all(bytes, subtracted.as_slice())
}

fn add_all(bytes: &mut Vec<u8>, numbers: &[u32]) -> Result<(), AllocError> {
    for number in numbers {
        add(bytes, *number)?;
    }
    Ok(())
}
