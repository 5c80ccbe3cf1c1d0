use crate::commands::answers::{Answer, FailingPuts, NO_FAILURE, answer_of, no_memory, text_of};
use crate::commands::heaps::suffices;
use m3_ports::{MemShelf, Shelf};
use std::alloc::{AllocError, Global};
use std::io;

/// What a step has to answer.
#[derive(Clone, Copy)]
pub struct Wanted<'a> {
    pub status: &'a str,
    /// What is put on out; None for anything.
    pub out: Option<&'a str>,
    /// How what is put on err begins; all of it where it ends in a line feed.
    pub err: &'a str,
    /// How what is put on err ends.
    pub end: &'a str,
    /// A file that is held afterwards, and its bytes.
    pub held: Option<(&'a str, &'a str)>,
}

impl<'a> Wanted<'a> {
    /// The same, but for the count of instructions and what stands behind it, which change with
    /// collections.
    pub fn before_instructions(self) -> Wanted<'a> {
        let (front, _) = self
            .err
            .split_once(" instructions")
            .unwrap_or((self.err, ""));
        Wanted {
            err: front,
            end: "",
            ..self
        }
    }
}

/// A step: the words of its command, which calls of the ports fail, and what it has to answer.
#[derive(Clone, Copy)]
struct Step<'a> {
    words: &'a str,
    failing: FailingPuts,
    /// The number of the call of the shelf that fails, the files of the case counted; 0 for none.
    failing_call: u64,
    wanted: Wanted<'a>,
    /// The words of the least heap with which the command answers so.
    least_heap: Option<&'a str>,
    /// A line that says nothing.
    strange: Option<&'a str>,
}

impl<'a> Step<'a> {
    fn new(words: &'a str) -> Step<'a> {
        Step {
            words,
            failing: NO_FAILURE,
            failing_call: 0,
            wanted: Wanted {
                status: "0",
                out: Some(""),
                err: "",
                end: "",
                held: None,
            },
            least_heap: None,
            strange: None,
        }
    }

    /// Takes a line behind the words.
    fn take(&mut self, line: &'a str) {
        let (key, value) = line.split_once(" ").unwrap_or((line, ""));
        match key {
            // A page of the documents ends each case so.
            "" | "```" => {}
            "status" => self.wanted.status = value,
            "out" => self.wanted.out = Some(value),
            "anything" => self.wanted.out = None,
            "err" => self.wanted.err = value,
            "end" => self.wanted.end = value,
            "holds" => self.wanted.held = Some(value.split_once(" ").unwrap_or((value, ""))),
            "least-heap" => self.least_heap = Some(value),
            "shelf-fails" => self.failing_call = number(value),
            "out-fails" => self.failing.out = number(value),
            "err-fails" => self.failing.err = number(value),
            _ => self.strange = Some(line),
        }
    }
}

fn number(text: &str) -> u64 {
    text.parse().unwrap_or(0)
}

/// The bytes of a text in which `\n` stands for a line feed and `\\` for a backslash.
fn unescaped(alloc: Global, text: &str) -> Result<Vec<u8>, AllocError> {
    let mut bytes = Vec::new(alloc);
    let mut is_escaped = false;
    for byte in text.bytes() {
        match (is_escaped, byte) {
            (false, b'\\') => is_escaped = true,
            (true, b'n') => {
                bytes.push(b'\n')?;
                is_escaped = false;
            }
            _ => {
                bytes.push(byte)?;
                is_escaped = false;
            }
        }
    }
    Ok(bytes)
}

/// Whether a step of a case answers as it has to; what differs is shown.
pub fn try_step(
    rt: &(impl Print + AllocGlobal),
    text: &str,
    shelf: &mut MemShelf,
) -> io::Result<bool> {
    let mut lines = text.lines();
    let mut step = Step::new(lines.next().unwrap_or(""));
    for line in lines {
        step.take(line);
    }
    if let Some(line) = step.strange {
        println!(rt; "  no such line: {line}")?;
        return Ok(false);
    }
    if step.failing_call > 0 && shelf.fail_at(step.failing_call).is_err() {
        return Err(no_memory());
    }
    let answer = answer_of(rt.alloc(), step.words, shelf, step.failing)?;
    let is_right = is_as_wanted(rt.alloc(), &answer, step.wanted)?
        && holds(rt.alloc(), shelf, step.wanted.held)?;
    if !is_right {
        show(rt, step.words, &answer)?;
    }
    let is_least = match step.least_heap {
        Some(least) => suffices(rt, step.words, step.wanted, shelf, least)?,
        None => true,
    };
    Ok(is_right && is_least)
}

/// Whether an answer is the one that is wanted.
pub fn is_as_wanted(alloc: Global, answer: &Answer, wanted: Wanted) -> io::Result<bool> {
    let status = format!(in alloc; "{}", answer.status)?;
    let out = match wanted.out {
        Some(out) => answer.out.bytes() == unescaped(alloc, out)?.as_slice(),
        None => true,
    };
    let err = unescaped(alloc, wanted.err)?;
    let is_err = if err.is_empty() || err.ends_with(b"\n") {
        answer.err.bytes() == err.as_slice()
    } else {
        answer.err.bytes().starts_with(&err)
    };
    let end = unescaped(alloc, wanted.end)?;
    Ok(status.as_str() == wanted.status && out && is_err && answer.err.bytes().ends_with(&end))
}

/// Whether the shelf holds a file of some bytes.
fn holds(alloc: Global, shelf: &mut MemShelf, held: Option<(&str, &str)>) -> io::Result<bool> {
    let Some((name, text)) = held else {
        return Ok(true);
    };
    let mut bytes = Vec::new(alloc);
    let is_there = shelf.fetch(alloc, name, 65_536, &mut bytes).is_ok();
    Ok(is_there && bytes.as_slice() == unescaped(alloc, text)?.as_slice())
}

/// Shows what a command answered.
pub fn show(rt: &(impl Print + AllocGlobal), words: &str, answer: &Answer) -> io::Result<()> {
    let status = answer.status;
    let out = text_of(rt.alloc(), answer.out.bytes())?;
    let err = text_of(rt.alloc(), answer.err.bytes())?;
    println!(rt; "  {words}: status {status}, out {out}, err {err}")
}
