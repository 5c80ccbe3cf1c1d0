use crate::answers::answer_to;
use crate::frames::{Frame, WHOLE, frame_of};
use crate::repeats::expanded;
use std::alloc::{AllocError, Global};
use std::io;

/// How many cases were tried, and how many of them came out otherwise.
#[derive(Clone, Copy)]
pub struct Tally {
    pub cases: u32,
    pub differing: u32,
}

/// Tries each case of a table, and shows those that come out otherwise.
pub fn try_cases(rt: &(impl Print + AllocGlobal), name: &str, content: &str) -> io::Result<Tally> {
    let mut tally = Tally {
        cases: 0,
        differing: 0,
    };
    let mut frame = WHOLE;
    let mut text = String::new(rt.alloc());
    for (number, line) in content.split('\n').enumerate() {
        let Some(answer) = take_line(line, &mut frame, &mut text)? else {
            continue;
        };
        let case = Case {
            frame,
            text: text.as_str(),
            answer,
        };
        tally.count(try_case(rt, name, number.saturating_add(1), case)?);
        text.clear();
    }
    Ok(tally)
}

/// Takes a line of a table: a remark, the frame of the cases from here on, or a line of a text. What
/// the text before it is to give is handed back. Empty lines before a text are no part of it.
fn take_line<'s>(
    line: &'s str,
    frame: &mut Frame,
    text: &mut String,
) -> Result<Option<&'s str>, AllocError> {
    if line == "+" || line == "=" || line.starts_with("= ") || line.starts_with("! ") {
        return Ok(Some(line));
    }
    if let Some(name) = line.strip_prefix("@") {
        *frame = frame_of(name).unwrap_or(WHOLE);
    } else if !line.starts_with("--") {
        if !text.is_empty() {
            text.push_str("\n")?;
        }
        text.push_str(line)?;
    }
    Ok(None)
}

impl Tally {
    pub fn count(&mut self, is_right: bool) {
        self.cases = self.cases.saturating_add(1);
        if !is_right {
            self.differing = self.differing.saturating_add(1);
        }
    }
}

/// A text with its frame, and what it is to give.
#[derive(Clone, Copy)]
struct Case<'s> {
    frame: Frame,
    text: &'s str,
    answer: &'s str,
}

/// Whether a case comes out as it should. Where it doesn't, what differs is printed.
fn try_case(
    rt: &(impl Print + AllocGlobal),
    name: &str,
    line: usize,
    case: Case<'_>,
) -> io::Result<bool> {
    let found = found_of(rt.alloc(), case)?;
    let wanted = wanted_of(rt.alloc(), case)?;
    if is_wanted(case, &found, wanted.as_bytes()) {
        return Ok(true);
    }
    let text = case.text;
    let found = str::from_utf8(&found).unwrap_or("no text");
    println!(rt; "{name}, line {line}: {text}\nwanted {wanted}\nfound  {found}\n")?;
    Ok(false)
}

fn is_wanted(case: Case<'_>, found: &[u8], wanted: &[u8]) -> bool {
    if case.answer == "+" {
        found.first().copied() == Some(b'=')
    } else {
        found == wanted
    }
}

/// What the whole text of a case gives.
fn found_of(alloc: Global, case: Case<'_>) -> io::Result<Vec<u8>> {
    let text = expanded(alloc, case.text)?;
    let source = joined(alloc, &[case.frame.before, text.as_str(), case.frame.after])?;
    answer_to(alloc, source.as_bytes(), case.frame.has_places)
}

/// The whole answer that a case is to give: a tree is put into that of the frame.
fn wanted_of(alloc: Global, case: Case<'_>) -> Result<String, AllocError> {
    let answer = expanded(alloc, case.answer)?;
    match answer.as_str().strip_prefix("=") {
        None => Ok(answer),
        Some(tree) => joined(
            alloc,
            &["=", case.frame.tree_before, tree, case.frame.tree_after],
        ),
    }
}

fn joined(alloc: Global, parts: &[&str]) -> Result<String, AllocError> {
    let mut whole = String::new(alloc);
    for part in parts {
        whole.push_str(part)?;
    }
    Ok(whole)
}
