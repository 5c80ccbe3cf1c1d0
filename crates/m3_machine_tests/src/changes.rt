//! Changes of the smallest image.
use crate::runs::answer_of_run;
use crate::smallest::SMALLEST;
use m3_test_tables::Tally;
use std::alloc::{AllocError, Global};
use std::io;

/// Tries each line of a table of changes, and each front of the image. A line has a title and a
/// colon, and behind it, with semicolons between, its changes, the words of the command line, and
/// what it answers.
pub fn try_changes(rt: &(impl Print + AllocGlobal), content: &str) -> io::Result<Tally> {
    let mut tally = Tally::new();
    for line in content.lines() {
        if let Some((title, case)) = line.split_once(": ") {
            try_change(rt, &mut tally, title, case)?;
        }
    }
    try_fronts(rt, &mut tally)?;
    Ok(tally)
}

fn try_change(
    rt: &(impl Print + AllocGlobal),
    tally: &mut Tally,
    title: &str,
    case: &str,
) -> io::Result<()> {
    let (change, rest) = case.split_once("; ").unwrap_or((case, ""));
    let (words, wanted) = rest.split_once("; ").unwrap_or((rest, ""));
    let image = changed(rt.alloc(), change)?;
    let got = answer_of_run(rt.alloc(), image.as_slice(), None, words)?;
    tally.tell(rt, title, got.as_str(), wanted)
}

/// The smallest image with changes, which have commas between them.
fn changed(alloc: Global, changes: &str) -> Result<Vec<u8>, AllocError> {
    let mut image = Vec::from_slice(alloc, &SMALLEST)?;
    for change in changes.split(", ") {
        image = changed_once(alloc, image.as_slice(), change)?;
    }
    Ok(image)
}

/// An image with the bytes behind `at PLACE` in place of as many, or with those behind `into
/// PLACE` before the byte that stands there.
fn changed_once(alloc: Global, before: &[u8], change: &str) -> Result<Vec<u8>, AllocError> {
    let (way, rest) = change.split_once(" ").unwrap_or((change, ""));
    let (place, numbers) = rest.split_once(" ").unwrap_or((rest, ""));
    let place = place.parse::<usize>().unwrap_or(0);
    let bytes = bytes_of(alloc, numbers)?;
    let end = match way {
        "at" => place.saturating_add(bytes.len()),
        _ => place,
    };
    let mut image = Vec::from_slice(alloc, before.get(..place).unwrap_or(&[]))?;
    image.extend_from_slice(bytes.as_slice())?;
    image.extend_from_slice(before.get(end..).unwrap_or(&[]))?;
    Ok(image)
}

fn bytes_of(alloc: Global, numbers: &str) -> Result<Vec<u8>, AllocError> {
    let mut bytes = Vec::new(alloc);
    for number in numbers.split(" ") {
        if let Ok(byte) = number.parse::<u8>() {
            bytes.push(byte)?;
        }
    }
    Ok(bytes)
}

/// Each front of the image is short.
fn try_fronts(rt: &(impl Print + AllocGlobal), tally: &mut Tally) -> io::Result<()> {
    for end in 0..SMALLEST.len() {
        let front = SMALLEST.get(..end).unwrap_or(&[]);
        let got = answer_of_run(rt.alloc(), front, None, "--heap 1024 --stack 1024")?;
        tally.tell(rt, "a front", got.as_str(), "8 image refused: short")?;
    }
    Ok(())
}
