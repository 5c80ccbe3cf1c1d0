use crate::lowering::programs::Lowering;
use m3_base::Source;
use m3_test_tables::{CaseFile, Tally, Trial};
use std::rt::Files;
use std::{fs, io};

/// Tries the programs of examples/ as middle code. A line of the table has the folder, its files,
/// and behind ` > ` what they give.
pub fn try_examples(rt: &(impl Print + Files + AllocGlobal), table: &str) -> io::Result<()> {
    let content = fs::read_to_string(rt, table)?;
    let mut tally = Tally::new();
    for line in content.as_str().lines() {
        let (words, wanted) = line.split_once(" > ").unwrap_or((line, ""));
        let got = answer_of_files(rt, words, wanted)?;
        tally.tell(rt, words, got.as_str(), wanted)?;
    }
    tally.sum_up(rt, table)
}

/// What the files of a folder give.
fn answer_of_files(
    rt: &(impl Files + AllocGlobal),
    words: &str,
    wanted: &str,
) -> io::Result<String> {
    let (folder, names) = words.split_once(" ").unwrap_or((words, ""));
    let files = files_of(rt, folder, names)?;
    let mut sources = Vec::new(rt.alloc());
    for file in &files {
        sources.push(Source {
            name: file.name.as_bytes(),
            text: file.text.as_bytes(),
        })?;
    }
    Ok(Lowering.answer(rt.alloc(), sources.as_slice(), wanted)?)
}

fn files_of(
    rt: &(impl Files + AllocGlobal),
    folder: &str,
    names: &str,
) -> io::Result<Vec<CaseFile>> {
    let alloc = rt.alloc();
    let mut files = Vec::new(alloc);
    for name in names.split(' ') {
        let path = format!(in alloc; "examples/{folder}/{name}")?;
        let text = fs::read_to_string(rt, path.as_str())?;
        let name = String::from_str(alloc, name)?;
        files.push(CaseFile { name, text })?;
    }
    Ok(files)
}
