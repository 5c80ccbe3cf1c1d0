//! Tries the judge of checked trees on a table of small trees. A line has `good` or `bad`, a
//! title, a colon, and behind it a tree in words, as `statements` and `programs` read them. Lines
//! that come out otherwise are shown.
#![tactic(auto)]

mod chains;
mod programs;
mod statements;
mod types;
mod words;

use bumpalo::Bump;
use m3_core_valid::is_well_formed;
use m3_test_tables::Tally;
use programs::program_of;
use std::alloc::Global;
use std::rt::Files;
use std::{fs, io};

/// What the judge says of the program of a form.
fn judged(alloc: Global, form: &str) -> &'static str {
    let owner = Bump::new(alloc);
    let arena = &owner;
    match program_of(alloc, arena, form) {
        Ok(core) => match is_well_formed(alloc, &core) {
            Ok(true) => "good",
            Ok(false) => "bad",
            Err(_) => "out of memory",
        },
        Err(_) => "out of memory",
    }
}

/// Tries a line.
fn try_line(
    rt: &(impl Print + AllocGlobal),
    tally: &mut Tally,
    wanted: &str,
    case: &str,
) -> io::Result<()> {
    let (title, form) = case.split_once(": ").unwrap_or((case, ""));
    let got = judged(rt.alloc(), form);
    tally.tell(rt, title, got, wanted)
}

/// Tries each line of a table but its remarks.
fn try_lines(rt: &(impl Print + Files + AllocGlobal), name: &str) -> io::Result<()> {
    let content = fs::read_to_string(rt, name)?;
    let mut tally = Tally::new();
    for line in content.as_str().lines() {
        if let Some((wanted, case)) = line.split_once(" ") {
            if wanted != "#" {
                try_line(rt, &mut tally, wanted, case)?;
            }
        }
    }
    tally.sum_up(rt, name)
}

fn main(rt: HostRuntime) -> io::Result<()> {
    try_lines(&rt, "trees.txt")
}
