use crate::tally::{Tally, Trial};
use m3_base::Source;
use std::alloc::{AllocError, Global};
use std::io;

/// Tries each line of a table of pieces, in the module of a prelude.
pub fn try_pieces<T: Trial>(
    rt: &(impl Print + AllocGlobal),
    trial: &T,
    prelude: &str,
    content: &str,
) -> io::Result<Tally> {
    let mut tally = Tally::new();
    for section in content.split("\n[").skip(1) {
        try_section(rt, trial, &mut tally, prelude, section)?;
    }
    Ok(tally)
}

/// Tries the lines of a section, which stand behind its name.
fn try_section<T: Trial>(
    rt: &(impl Print + AllocGlobal),
    trial: &T,
    tally: &mut Tally,
    prelude: &str,
    section: &str,
) -> io::Result<()> {
    let (name, lines) = section.split_once("]\n").unwrap_or((section, ""));
    let around = Around::of(prelude, name);
    for line in lines.lines() {
        if line.is_empty() || line.starts_with("#") {
            continue;
        }
        let (rule, piece) = line.split_once(" ").unwrap_or((line, ""));
        try_piece(rt, trial, tally, &around, rule, piece)?;
    }
    Ok(())
}

/// What stands around a piece.
#[derive(Clone, Copy)]
struct Around<'t> {
    prelude: &'t str,
    before: &'static str,
    behind: &'static str,
}

impl<'t> Around<'t> {
    /// What stands around the pieces of a section with this name; whole programs stand alone.
    fn of(prelude: &'t str, name: &str) -> Around<'t> {
        let (before, behind) = match name {
            "statements" => (
                "PROCEDURE Test() =\nBEGIN\n",
                "\nEND Test;\nBEGIN END Main.\n",
            ),
            "function" => (
                "PROCEDURE Test(): INTEGER =\nBEGIN\n",
                "\nEND Test;\nBEGIN END Main.\n",
            ),
            "body" => ("BEGIN\n", "\nEND Main.\n"),
            "declarations" => ("", "\nBEGIN END Main.\n"),
            _ => {
                return Around {
                    prelude: "",
                    before: "",
                    behind: "",
                };
            }
        };
        Around {
            prelude,
            before,
            behind,
        }
    }

    /// The program of a piece, with its mark.
    fn with(&self, alloc: Global, piece: &str) -> Result<String, AllocError> {
        let mut text = String::from_str(alloc, self.prelude)?;
        text.push_str(self.before)?;
        text.push_str(piece)?;
        text.push_str(self.behind)?;
        Ok(text)
    }
}

/// Tries one piece.
fn try_piece<T: Trial>(
    rt: &(impl Print + AllocGlobal),
    trial: &T,
    tally: &mut Tally,
    around: &Around<'_>,
    rule: &str,
    piece: &str,
) -> io::Result<()> {
    let alloc = rt.alloc();
    let marked = around.with(alloc, piece)?;
    let marked = marked.as_str();
    let (before, behind) = marked.split_once("@").unwrap_or((marked, ""));
    let wanted = wanted_of(alloc, before, rule)?;
    let mut text = String::from_str(alloc, before)?;
    text.push_str(behind)?;
    let source = Source {
        name: b"Main.m3",
        text: text.as_bytes(),
    };
    let got = trial.answer(alloc, &[source], wanted.as_str())?;
    tally.tell(rt, piece, got.as_str(), wanted.as_str())
}

/// The answer that is wanted where the mark stands behind this text.
fn wanted_of(alloc: Global, before: &str, rule: &str) -> Result<String, AllocError> {
    if rule == "ok" {
        return String::from_str(alloc, "ok");
    }
    let mut line = 1u64;
    let mut col = 1u64;
    for byte in before.bytes() {
        if byte == b'\n' {
            line = line.saturating_add(1);
            col = 1;
        } else {
            col = col.saturating_add(1);
        }
    }
    format!(in alloc; "Main.m3:{line}:{col}: rule {rule}")
}
