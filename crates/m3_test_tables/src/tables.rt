use crate::cases::try_cases;
use crate::tally::Trial;
use std::rt::Files;
use std::{fs, io};

/// Tries a table of cases, and shows how many it has.
pub fn try_file<T: Trial>(
    rt: &(impl Print + Files + AllocGlobal),
    trial: &T,
    name: &str,
) -> io::Result<()> {
    let content = fs::read_to_string(rt, name)?;
    let tally = try_cases(rt, trial, content.as_str())?;
    tally.sum_up(rt, name)
}
