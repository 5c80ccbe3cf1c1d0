use crate::commands::answers::{Answer, NO_FAILURE, answer_of, no_memory};
use crate::commands::heaps::store_collections;
use m3_ports::{MemShelf, Shelf};
use m3_test_tables::Tally;
use std::alloc::{AllocError, Global};
use std::rt::Files;
use std::{fs, io};

/// A run with little to clear before it begins.
const RUN: &str = "run a.img --heap 1024 --stack 2048";

const COLLECTED: &str = "run a.img --heap 1024 --stack 2048 --switches every-point";

/// A part of the programs of the table: what it is and its name, and its lines.
#[derive(Clone, Copy)]
struct Piece<'a> {
    head: &'a str,
    text: &'a str,
}

/// A row: what an element is, what is passed where, and what comes.
#[derive(Clone, Copy)]
struct Row<'a> {
    element: &'a str,
    passed: &'a str,
    place: &'a str,
    out: &'a str,
    /// The line on err up to its instructions.
    err: &'a str,
}

impl<'a> Row<'a> {
    fn of(line: &'a str) -> Row<'a> {
        let mut columns = line.split(" | ");
        Row {
            element: columns.next().unwrap_or(""),
            passed: columns.next().unwrap_or(""),
            place: columns.next().unwrap_or(""),
            out: columns.next().unwrap_or(""),
            err: columns.next().unwrap_or("no such row"),
        }
    }
}

/// Tries each row of the table of arrays that are passed to places of all kinds: the program that
/// it stands for is run without switches, and with a collection at each point.
pub fn try_conversions(rt: &(impl Print + Files + AllocGlobal), table: &str) -> io::Result<()> {
    let alloc = rt.alloc();
    let content = fs::read_to_string(rt, table)?;
    let pieces = pieces_of(alloc, content.as_str())?;
    let Ok(mut shelf) = MemShelf::new(alloc) else {
        return Err(no_memory());
    };
    store_collections(alloc, &mut shelf)?;
    let mut tally = Tally::new();
    for line in text_of_piece(&pieces, "rows", "").lines() {
        let is_right = try_row(alloc, &pieces, Row::of(line), &mut shelf)?;
        tally.count(rt, line, is_right)?;
    }
    tally.sum_up(rt, table)
}

/// The pieces of the table, whose heads stand behind `== `.
fn pieces_of<'a>(alloc: Global, content: &'a str) -> Result<Vec<Piece<'a>>, AllocError> {
    let mut pieces = Vec::new(alloc);
    for piece in content.split("\n== ").skip(1) {
        let (head, text) = piece.split_once("\n").unwrap_or((piece, ""));
        pieces.push(Piece { head, text })?;
    }
    Ok(pieces)
}

/// The lines of a piece; none where it isn't there.
fn text_of_piece<'a>(pieces: &[Piece<'a>], kind: &str, name: &str) -> &'a str {
    for piece in pieces {
        let (own_kind, own_name) = piece.head.split_once(" ").unwrap_or((piece.head, ""));
        if own_kind == kind && own_name == name {
            return piece.text;
        }
    }
    ""
}

/// The program of a row: the place with what is passed in it, what that needs, the element, and
/// what all rows have.
fn program_of(alloc: Global, pieces: &[Piece<'_>], row: Row<'_>) -> Result<String, AllocError> {
    let place = text_of_piece(pieces, "place", row.place);
    let passed = text_of_piece(pieces, "passed", row.passed);
    let (before, behind) = place.split_once("\n%\n").unwrap_or((place, ""));
    let (needed, value) = passed.split_once(">>> ").unwrap_or((passed, ""));
    let element = text_of_piece(pieces, "element", row.element);
    let common = text_of_piece(pieces, "common", "");
    format!(in alloc;
        "MODULE Main; IMPORT IO, Text;\n{before}\n{value}\n{behind}\n{needed}{element}\n{common}\n"
    )
}

/// Whether the program of a row answers as it has to.
fn try_row(
    alloc: Global,
    pieces: &[Piece<'_>],
    row: Row<'_>,
    shelf: &mut MemShelf,
) -> io::Result<bool> {
    let program = program_of(alloc, pieces, row)?;
    if shelf.store(alloc, "Main.m3", program.as_bytes()).is_err() {
        return Err(no_memory());
    }
    let built = answer_of(alloc, "build a.img Main.m3", shelf, NO_FAILURE)?;
    if built.status != 0 {
        let line = format!(in alloc; "{}\n", row.err)?;
        return Ok(built.err.bytes() == line.as_bytes());
    }
    let run = answer_of(alloc, RUN, shelf, NO_FAILURE)?;
    let collected = answer_of(alloc, COLLECTED, shelf, NO_FAILURE)?;
    Ok(is_as_wanted(alloc, &run, row)? && is_as_wanted(alloc, &collected, row)?)
}

/// Whether a run put what a row says.
fn is_as_wanted(alloc: Global, answer: &Answer, row: Row<'_>) -> Result<bool, AllocError> {
    let line = format!(in alloc; "{} instructions ", row.err)?;
    Ok(answer.out.bytes() == row.out.as_bytes() && answer.err.bytes().starts_with(line.as_bytes()))
}
