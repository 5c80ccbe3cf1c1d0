use crate::commands::answers::no_memory;
use crate::commands::steps::try_step;
use m3_ports::{MemShelf, Shelf};
use m3_test_tables::Tally;
use std::alloc::Global;
use std::rt::Files;
use std::{fs, io};

/// Tries each case of a table: a title behind `== `, files behind `--- NAME`, whose last line ends
/// with their last byte, and steps behind `>>> `, each the words of a command and what it has to
/// answer. The commands of a case share one shelf.
pub fn try_steps(rt: &(impl Print + Files + AllocGlobal), name: &str) -> io::Result<()> {
    let content = fs::read_to_string(rt, name)?;
    let mut tally = Tally::new();
    for case in content.as_str().split("\n== ").skip(1) {
        let title = case.lines().next().unwrap_or("");
        let is_right = try_case(rt, case)?;
        tally.count(rt, title, is_right)?;
    }
    tally.sum_up(rt, name)
}

/// Whether each step of a case answers as it has to.
fn try_case(rt: &(impl Print + AllocGlobal), case: &str) -> io::Result<bool> {
    let mut parts = case.split("\n>>> ");
    let mut shelf = shelf_of(rt.alloc(), parts.next().unwrap_or(""))?;
    let mut is_right = true;
    for step in parts {
        if !try_step(rt, step, &mut shelf)? {
            is_right = false;
        }
    }
    Ok(is_right)
}

/// A shelf with the files of a case.
fn shelf_of(alloc: Global, files: &str) -> io::Result<MemShelf> {
    let Ok(mut shelf) = MemShelf::new(alloc) else {
        return Err(no_memory());
    };
    for file in files.split("\n--- ").skip(1) {
        let (name, text) = file.split_once("\n").unwrap_or((file, ""));
        if shelf.store(alloc, name, text.as_bytes()).is_err() {
            return Err(no_memory());
        }
    }
    Ok(shelf)
}
