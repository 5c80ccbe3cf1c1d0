use crate::commands::answers::{NO_FAILURE, answer_of, no_memory};
use crate::commands::steps::{Wanted, is_as_wanted, show};
use m3_ports::{MemShelf, Shelf};
use std::alloc::{AllocError, Global};
use std::io;

/// The least heap that a command takes, in words.
const LEAST_OPTION: u64 = 64;
/// The points that have a line in the file with a collection at each point.
const POINTS: u32 = 3000;

/// Whether a command answers alike with this heap and a collection at each point, and finds a heap
/// of one word less full.
pub fn suffices(
    rt: &(impl Print + AllocGlobal),
    words: &str,
    wanted: Wanted,
    shelf: &mut MemShelf,
    least: &str,
) -> io::Result<bool> {
    let alloc = rt.alloc();
    let Ok(heap) = least.parse::<u64>() else {
        return Ok(false);
    };
    let switches = if words.contains("--switches") {
        ""
    } else {
        store_collections(alloc, shelf)?;
        " --switches every-point"
    };
    let front = wanted.before_instructions();
    if !answers(
        rt,
        format!(in alloc; "{words} --heap {heap}{switches}")?.as_str(),
        front,
        shelf,
    )? {
        return Ok(false);
    }
    if heap <= LEAST_OPTION {
        return Ok(heap == LEAST_OPTION);
    }
    let less = heap.saturating_sub(1);
    let full = Wanted {
        status: "15",
        out: None,
        err: "heap full points",
        ..front
    };
    answers(
        rt,
        format!(in alloc; "{words} --heap {less}{switches}")?.as_str(),
        full,
        shelf,
    )
}

/// Whether a command answers as it has to; what differs is shown.
fn answers(
    rt: &(impl Print + AllocGlobal),
    words: &str,
    wanted: Wanted,
    shelf: &mut MemShelf,
) -> io::Result<bool> {
    let answer = answer_of(rt.alloc(), words, shelf, NO_FAILURE)?;
    let is_right = is_as_wanted(rt.alloc(), &answer, wanted)?;
    if !is_right {
        show(rt, words, &answer)?;
    }
    Ok(is_right)
}

/// Stores a switch file with a collection at each point.
pub fn store_collections(alloc: Global, shelf: &mut MemShelf) -> io::Result<()> {
    let Ok(lines) = collections(alloc) else {
        return Err(no_memory());
    };
    match shelf.store(alloc, "every-point", lines.as_bytes()) {
        Ok(()) => Ok(()),
        Err(_) => Err(no_memory()),
    }
}

fn collections(alloc: Global) -> Result<String, AllocError> {
    let mut lines = String::new(alloc);
    for _ in 0..POINTS {
        lines.push_str("g\n")?;
    }
    Ok(lines)
}
