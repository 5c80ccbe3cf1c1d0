use crate::case_files::files_of;
use crate::tally::{Tally, Trial};
use m3_base::Source;
use std::alloc::{AllocError, Global};
use std::io;

/// Tries each case of a table of cases.
pub fn try_cases<T: Trial>(
    rt: &(impl Print + AllocGlobal),
    trial: &T,
    content: &str,
) -> io::Result<Tally> {
    let mut tally = Tally::new();
    for case in content.split("\n== ").skip(1) {
        let (body, rest) = case.split_once("\n>>> ").unwrap_or((case, "nothing"));
        let wanted = rest.lines().next().unwrap_or("");
        let title = body.lines().next().unwrap_or("");
        let got = answer_of_case(rt.alloc(), trial, body, wanted)?;
        tally.tell(rt, title, got.as_str(), wanted)?;
    }
    Ok(tally)
}

/// What the files of a case give.
fn answer_of_case<T: Trial>(
    alloc: Global,
    trial: &T,
    body: &str,
    wanted: &str,
) -> Result<String, AllocError> {
    let files = files_of(alloc, body)?;
    let mut sources = Vec::new(alloc);
    for file in &files {
        sources.push(Source {
            name: file.name.as_bytes(),
            text: file.text.as_bytes(),
        })?;
    }
    trial.answer(alloc, sources.as_slice(), wanted)
}
