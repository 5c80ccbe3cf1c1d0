use crate::commands::answers::{Answer, NO_FAILURE, answer_of, shelf_with};
use m3_test_tables::Tally;
use std::alloc::Global;
use std::io;

/// Tries texts and images of odd forms, which no table holds.
pub fn try_shapes(rt: &(impl Print + AllocGlobal)) -> io::Result<()> {
    let mut tally = Tally::new();
    try_bytes(rt, &mut tally)?;
    let is_right = parentheses_are_refused(rt.alloc())?;
    tally.count(rt, "201 parentheses", is_right)?;
    let is_right = long_files_are_refused(rt.alloc())?;
    tally.count(rt, "a file of a byte too many", is_right)?;
    let is_right = images_are_one(rt.alloc())?;
    tally.count(rt, "one image by build, run and exec", is_right)?;
    try_lengths(rt, &mut tally)?;
    try_sums(rt, &mut tally)?;
    tally.sum_up(rt, "texts and images of odd forms")
}

/// What a command answers on a shelf of one file.
fn on_file(alloc: Global, words: &str, name: &str, bytes: &[u8]) -> io::Result<Answer> {
    let mut shelf = shelf_with(alloc, name, bytes)?;
    answer_of(alloc, words, &mut shelf, NO_FAILURE)
}

/// Each byte by itself is no program.
fn try_bytes(rt: &(impl Print + AllocGlobal), tally: &mut Tally) -> io::Result<()> {
    for byte in 0..=255u8 {
        let answer = on_file(rt.alloc(), "exec Main.m3", "Main.m3", &[byte])?;
        let is_right = answer.status == 1
            && answer.out.bytes().is_empty()
            && answer.err.bytes().starts_with(b"Main.m3:")
            && answer.err.bytes().ends_with(b"\n");
        tally.count(rt, "a byte", is_right)?;
    }
    Ok(())
}

/// The 199th parenthesis lies in a block, a statement and 199 expressions.
fn parentheses_are_refused(alloc: Global) -> io::Result<bool> {
    let mut text = Vec::from_slice(alloc, b"MODULE Main; BEGIN EVAL ")?;
    for _ in 0..201u32 {
        text.push(b'(')?;
    }
    let answer = on_file(alloc, "exec Main.m3", "Main.m3", &text)?;
    let line = b"Main.m3:1:223: rule 13 nesting too deep\n";
    Ok(answer.status == 1 && answer.err.bytes() == line.as_slice())
}

fn long_files_are_refused(alloc: Global) -> io::Result<bool> {
    let text = vec![in alloc; b' '; 1_048_577]?;
    let answer = on_file(alloc, "exec Main.m3", "Main.m3", &text)?;
    Ok(answer.status == 7 && answer.err.bytes() == b"too long Main.m3\n".as_slice())
}

/// What is built is what is run, and what `exec` builds.
fn images_are_one(alloc: Global) -> io::Result<bool> {
    let mut shelf = shelf_with(alloc, "Main.m3", b"MODULE Main; BEGIN END Main.")?;
    let built = answer_of(alloc, "build a.img Main.m3", &mut shelf, NO_FAILURE)?;
    let run = answer_of(alloc, "run a.img", &mut shelf, NO_FAILURE)?;
    let exec = answer_of(alloc, "exec Main.m3", &mut shelf, NO_FAILURE)?;
    Ok(
        built.status == 0
            && run.status == 0
            && exec.status == 0
            && built.image.starts_with(b"M3IM")
            && run.image.as_slice() == built.image.as_slice()
            && exec.image.as_slice() == built.image.as_slice(),
    )
}

/// An image without its last byte is short, and one with a byte more has a rest.
fn try_lengths(rt: &(impl Print + AllocGlobal), tally: &mut Tally) -> io::Result<()> {
    let alloc = rt.alloc();
    let text = b"MODULE Main; BEGIN END Main.";
    let built = on_file(alloc, "build a.img Main.m3", "Main.m3", text)?;
    let mut bytes = Vec::from_slice(alloc, built.image.as_slice())?;
    bytes.push(0)?;
    let is_right = is_refused(alloc, &bytes, b"image refused: rest\n")?;
    tally.count(rt, "an image with a rest", is_right)?;
    bytes.truncate(built.image.len().saturating_sub(1));
    let is_right = is_refused(alloc, &bytes, b"image refused: short\n")?;
    tally.count(rt, "a short image", is_right)?;
    let is_right = is_refused(alloc, b"", b"image refused: short\n")?;
    tally.count(rt, "no bytes", is_right)
}

fn is_refused(alloc: Global, bytes: &[u8], line: &[u8]) -> io::Result<bool> {
    let answer = on_file(alloc, "run a.img", "a.img", bytes)?;
    Ok(answer.status == 8 && answer.out.bytes().is_empty() && answer.err.bytes() == line)
}

/// A sum of 993 ones, in the form of plain texts and in another one.
fn try_sums(rt: &(impl Print + AllocGlobal), tally: &mut Tally) -> io::Result<()> {
    for end in [b") END Main.".as_slice(), b"); END Main.".as_slice()] {
        let alloc = rt.alloc();
        let mut text = Vec::from_slice(alloc, b"MODULE Main; IMPORT IO; BEGIN IO.PutInt(1")?;
        add_ones(&mut text, 992)?;
        text.extend_from_slice(end)?;
        let answer = on_file(alloc, "exec Main.m3", "Main.m3", &text)?;
        let is_right = answer.status == 0 && answer.out.bytes() == b"993".as_slice();
        tally.count(rt, "a long sum", is_right)?;
    }
    Ok(())
}

fn add_ones(text: &mut Vec<u8>, count: u32) -> io::Result<()> {
    for _ in 0..count {
        text.extend_from_slice(b"+1")?;
    }
    Ok(())
}
