use crate::assembly::Assembly;
use crate::images::image_of;
use crate::runs::answer_of_run;
use m3_test_tables::Tally;
use std::alloc::{AllocError, Global};
use std::io;

/// Tries each case of a table of images.
pub fn try_cases(rt: &(impl Print + AllocGlobal), content: &str) -> io::Result<Tally> {
    let mut tally = Tally::new();
    for case in content.split("\n== ").skip(1) {
        let title = case.lines().next().unwrap_or("");
        let wanted = wanted(rt.alloc(), case)?;
        let got = got(rt.alloc(), case)?;
        tally.tell(rt, title, got.as_str(), wanted.as_str())?;
    }
    Ok(tally)
}

/// What stands behind a word at the beginning of a line of a case.
fn field<'t>(case: &'t str, name: &str) -> Option<&'t str> {
    for line in case.lines() {
        if let Some((found, rest)) = line.split_once(" ") {
            if found == name {
                return Some(rest);
            }
        }
    }
    None
}

/// The status, the line and the output that a case expects.
fn wanted(alloc: Global, case: &str) -> Result<String, AllocError> {
    let ending = field(case, ">>>").unwrap_or("");
    match field(case, "out") {
        Some(out) => format!(in alloc; "{ending} / {out}"),
        None => String::from_str(alloc, ending),
    }
}

/// The image of a case.
fn image(alloc: Global, case: &str) -> Result<Vec<u8>, AllocError> {
    let mut assembly = Assembly::new(alloc);
    assembly.add_procedure(alloc, field(case, "0").unwrap_or(""))?;
    assembly.add_procedure(alloc, field(case, "1").unwrap_or("POINT; ENDP"))?;
    if let Some(text) = field(case, "2") {
        assembly.add_procedure(alloc, text)?;
    }
    image_of(alloc, &assembly)
}

/// The status, the line and the output of `run` of a case. A case without words of its own has a
/// small heap and small stacks.
fn got(alloc: Global, case: &str) -> Result<String, AllocError> {
    let bytes = image(alloc, case)?;
    let words = field(case, "words").unwrap_or("--heap 1024 --stack 1024");
    answer_of_run(alloc, bytes.as_slice(), field(case, "lines"), words)
}
