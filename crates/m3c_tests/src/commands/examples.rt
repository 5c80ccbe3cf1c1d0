use crate::commands::answers::{NO_FAILURE, answer_of};
use m3_ports::FileShelf;
use m3_test_tables::Tally;
use std::rt::Files;
use std::{fs, io};

/// Runs the programs of examples/ on files of the system. A line of the table has the status that
/// is wanted, the file with the output that is wanted, and the words of the command.
pub fn try_examples(rt: &(impl Print + Files + AllocGlobal), table: &str) -> io::Result<()> {
    let cases = fs::read_to_string(rt, table)?;
    let mut tally = Tally::new();
    for line in cases.as_str().lines() {
        let (status, rest) = line.split_once(" ").unwrap_or((line, ""));
        let (expected, words) = rest.split_once(" ").unwrap_or((rest, ""));
        let is_right = is_as_wanted(rt, status, expected, words)?;
        tally.count(rt, expected, is_right)?;
    }
    tally.sum_up(rt, table)
}

/// Whether a command answers with a status and what a file holds.
fn is_as_wanted(
    rt: &(impl Files + AllocGlobal),
    status: &str,
    expected: &str,
    words: &str,
) -> io::Result<bool> {
    let wanted = fs::read(rt, expected)?;
    let mut shelf = FileShelf::new(rt);
    let answer = answer_of(rt.alloc(), words, &mut shelf, NO_FAILURE)?;
    let told = format!(in rt.alloc(); "{}", answer.status)?;
    Ok(told.as_str() == status && answer.out.bytes() == wanted.as_slice())
}
