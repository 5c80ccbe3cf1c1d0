use crate::lowering::answers::{Question, answer_to};
use m3_base::Source;
use m3_test_tables::Tally;
use std::alloc::{AllocError, Global};
use std::rt::Files;
use std::{fs, io};

/// A frame with two texts in the places of its first sign `@` and of the others.
fn filled(alloc: Global, frame: &str, first: &str, second: &str) -> Result<String, AllocError> {
    let mut text = String::new(alloc);
    for (place, piece) in frame.split('@').enumerate() {
        match place {
            0 => {}
            1 => text.push_str(first)?,
            _ => text.push_str(second)?,
        }
        text.push_str(piece)?;
    }
    Ok(text)
}

/// The frame of a table, which stands before its first line of signs `=`, and its lines.
fn frame_of(content: &str) -> (&str, &str) {
    content.split_once("\n====\n").unwrap_or((content, ""))
}

fn answer_of_text(alloc: Global, text: &str, question: Question<'_>) -> Result<String, AllocError> {
    let unit = Source {
        name: b"Main.m3",
        text: text.as_bytes(),
    };
    answer_to(alloc, &[unit], question)
}

/// Tries the statements of a table in its frame, whose procedure P has to test what stands before
/// the bar, in this order.
pub fn try_orders(rt: &(impl Print + Files + AllocGlobal), table: &str) -> io::Result<()> {
    let content = fs::read_to_string(rt, table)?;
    let (frame, lines) = frame_of(content.as_str());
    let mut tally = Tally::new();
    for line in lines.lines() {
        if let Some((wanted, statement)) = line.split_once(" | ") {
            let text = filled(rt.alloc(), frame, statement, "")?;
            let question = Question::Order { name: "P" };
            let got = answer_of_text(rt.alloc(), text.as_str(), question)?;
            tally.tell(rt, statement, got.as_str(), wanted)?;
        }
    }
    tally.sum_up(rt, table)
}

/// An expression, and the fault that it has in its frame.
#[derive(Clone, Copy)]
struct Faulty<'t> {
    kind: &'t str,
    line: &'t str,
    expression: &'t str,
}

fn faulty_of(line: &str) -> Faulty<'_> {
    let (kind, rest) = line.split_once(" ").unwrap_or((line, ""));
    let (line, expression) = rest.split_once(" ").unwrap_or((rest, ""));
    Faulty {
        kind,
        line,
        expression,
    }
}

/// Tries each expression of a table before each one, in the frame of the table. A line has the
/// fault of its expression and the line of the frame at which it comes, before that of the other
/// one.
pub fn try_pairs(rt: &(impl Print + Files + AllocGlobal), table: &str) -> io::Result<()> {
    let content = fs::read_to_string(rt, table)?;
    let (frame, lines) = frame_of(content.as_str());
    let mut tally = Tally::new();
    for line in lines.lines() {
        try_before_each(rt, &mut tally, frame, faulty_of(line), lines)?;
    }
    tally.sum_up(rt, table)
}

/// Tries an expression before each one of a table.
fn try_before_each(
    rt: &(impl Print + AllocGlobal),
    tally: &mut Tally,
    frame: &str,
    first: Faulty<'_>,
    lines: &str,
) -> io::Result<()> {
    for line in lines.lines() {
        try_pair(rt, tally, frame, first, faulty_of(line))?;
    }
    Ok(())
}

fn try_pair(
    rt: &(impl Print + AllocGlobal),
    tally: &mut Tally,
    frame: &str,
    first: Faulty<'_>,
    second: Faulty<'_>,
) -> io::Result<()> {
    let alloc = rt.alloc();
    let (left, right) = (first.expression, second.expression);
    let text = filled(alloc, frame, left, right)?;
    let question = Question::Run {
        input: &[],
        expected: &[],
    };
    let answer = answer_of_text(alloc, text.as_str(), question)?;
    let (got, _) = answer.as_str().split_once(" points ").unwrap_or(("", ""));
    let (kind, line) = (first.kind, first.line);
    let wanted = format!(in alloc; "fault {kind} Main.m3:{line}")?;
    let title = format!(in alloc; "{left} before {right}")?;
    tally.tell(rt, title.as_str(), got, wanted.as_str())
}
