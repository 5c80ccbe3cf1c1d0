//! Tries small images by `run`. images.txt has cases: a title behind `== `, the code of its
//! procedures behind their numbers, procedure 1 a point and ENDP where it isn't told, then, where
//! it has them, the words of the command line behind `words`, the entries of its switch file
//! behind `lines` with commas between, and its output behind `out`, and behind `>>> ` its status
//! and its line on err. changes.txt has changes of the smallest image, each with the words of its
//! command line, and with its status, line and output. All of this is worked out by hand.
#![tactic(auto)]

mod assembly;
mod bytes;
mod cases;
mod changes;
mod images;
mod operations;
mod rows;
mod runs;
mod smallest;

use cases::try_cases;
use changes::try_changes;
use std::rt::Files;
use std::{fs, io};

fn try_images(rt: &(impl Print + Files + AllocGlobal)) -> io::Result<()> {
    let content = fs::read_to_string(rt, "images.txt")?;
    let tally = try_cases(rt, content.as_str())?;
    tally.sum_up(rt, "images.txt")
}

fn try_smallest(rt: &(impl Print + Files + AllocGlobal)) -> io::Result<()> {
    let content = fs::read_to_string(rt, "changes.txt")?;
    let tally = try_changes(rt, content.as_str())?;
    tally.sum_up(rt, "changes.txt and each front")
}

fn main(rt: HostRuntime) -> io::Result<()> {
    try_images(&rt)?;
    try_smallest(&rt)
}
