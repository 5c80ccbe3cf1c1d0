use crate::lowering::answers::{Question, answer_to};
use m3_base::Source;
use m3_test_tables::Trial;
use std::alloc::{AllocError, Global};

/// Tries what is lowered of a program. A case asks for the middle code of a procedure by
/// `text NAME`, and for no run by `valid`; else it has the end of a run and the points that this
/// passes. The file `input` has what is read, and `expected` what is put, or the text of the
/// procedure.
pub struct Lowering;

impl Trial for Lowering {
    fn answer(
        &self,
        alloc: Global,
        sources: &[Source<'_>],
        wanted: &str,
    ) -> Result<String, AllocError> {
        let question = question_of(sources, wanted);
        let program = program_of(alloc, sources)?;
        answer_to(alloc, program.as_slice(), question)
    }
}

fn question_of<'s>(sources: &'s [Source<'_>], wanted: &'s str) -> Question<'s> {
    let expected = text_of(sources, b"expected");
    match wanted.split_once(" ") {
        Some(("text", name)) => Question::Text { name, expected },
        None if wanted == "valid" => Question::Validity,
        _ => Question::Run {
            input: text_of(sources, b"input"),
            expected,
        },
    }
}

/// The text of a file by its name; nothing where it isn't there.
fn text_of<'s>(sources: &'s [Source<'_>], name: &[u8]) -> &'s [u8] {
    for source in sources {
        if source.name == name {
            return source.text;
        }
    }
    &[]
}

/// The files that are units.
fn program_of<'s>(alloc: Global, sources: &[Source<'s>]) -> Result<Vec<Source<'s>>, AllocError> {
    let mut units = Vec::new(alloc);
    for source in sources {
        if source.name != b"expected".as_slice() && source.name != b"input".as_slice() {
            units.push(*source)?;
        }
    }
    Ok(units)
}
