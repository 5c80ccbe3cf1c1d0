ghost use Rattle.std.specs.Prelude.{◌≡◌, ℕ, [], IfOk, OnOk};
ghost use Rattle.m3_ports.specs.Files.{TakesFile};
ghost use Rattle.m3c_image_commands.specs.Statuses.{Causes, Fetches, IsGiven, Only};
ghost use Rattle.m3c_image_commands.specs.Statuses.{OfNamed, OfOptions};
ghost use Rattle.m3c_image_commands.specs.Statuses.{Shelving, Unfetched, shelving};
ghost use Rattle.m3c_words.specs.Orders.{name_of};

use crate::answers::Refusal;
use m3_ports::{Shelf, ShelfFault};
use m3c_words::RunOptions;
use std::alloc::Global;

// The most bytes of a file of switches or of input.
const FILE_CAP: u64 = 16_777_216;

/// The bytes of the files that a run was given: switches and input, empty where none was named.
#[derive(Drop)]
pub struct RunFiles {
    pub switches: Vec<u8>,
    pub input: Vec<u8>,
}

// The refusal of a file that can't be fetched.
fn refusal_of<'a>(fault: ShelfFault, name: &'a str) -> Refusal<'a>
    ensures { (shelf : Shelving) (cap : ℕ) → Causes shelf fault name.now cap
        → Unfetched shelf (Only name.now cap) result.status result.front.now result.name.now }
{
    let name = name.as_bytes();
    match fault {
        ShelfFault::Absent => Refusal {
            status: 6,
            front: b"absent ",
            name,
        },
        ShelfFault::TooLong => Refusal {
            status: 7,
            front: b"too long ",
            name,
        },
        ShelfFault::Failed => Refusal {
            status: 3,
            front: b"read fault ",
            name,
        },
        ShelfFault::NoMemory => Refusal::NO_MEMORY,
    }
}

/// Adds the bytes of a file to some, at most `cap`, or says why not.
pub fn fetch<'a, F: Shelf>(
    alloc: Global,
    shelf: &mut F,
    name: &'a str,
    cap: u64,
    into: &mut Vec<u8>,
) -> Result<(), Refusal<'a>>
    ensures fetches { Fetches (shelving F.Shelf shelf.old shelf.new) (Only name.now cap)
        result }
    ensures ok { OnOk result (TakesFile (F.held shelf.old) name.now cap into.old.items
        into.new.items) }
{
    match shelf.fetch(alloc, name, cap, into) {
        Ok(()) => Ok(()),
        Err(fault) => Err(refusal_of(fault, name)),
    }
}

/// The same for a file that may not be named.
fn fetch_named<'a, F: Shelf>(
    alloc: Global,
    shelf: &mut F,
    name: Option<&'a str>,
    into: &mut Vec<u8>,
) -> Result<(), Refusal<'a>>
    requires { into.old.items ≡ [] }
    ensures fetches { Fetches (shelving F.Shelf shelf.old shelf.new)
        (OfNamed (name_of name.entry)) result }
    ensures ok { OnOk result (IsGiven (F.held shelf.old) (name_of name.entry) into.new.items) }
{
    match name {
        Some(name) => fetch(alloc, shelf, name, FILE_CAP, into),
        None => Ok(()),
    }
}

/// Fetches the switches and then the input, where the options name them.
pub fn fetch_run_files<'a, F: Shelf>(
    alloc: Global,
    shelf: &mut F,
    options: RunOptions<'a>,
) -> Result<RunFiles, Refusal<'a>>
    ensures fetches { Fetches (shelving F.Shelf shelf.old shelf.new)
        (OfOptions (F.held shelf.old) (name_of options.entry.switches)
        (name_of options.entry.input)) result }
    ensures switches { IfOk result (λ files. IsGiven (F.held shelf.old)
        (name_of options.entry.switches) files.switches.items) }
    ensures input { IfOk result (λ files. IsGiven (F.held shelf.old)
        (name_of options.entry.input) files.input.items) }
{
    let mut files = RunFiles {
        switches: Vec::new(alloc),
        input: Vec::new(alloc),
    };
    match fetch_named(alloc, shelf, options.switches, &mut files.switches) {
        Ok(()) => match fetch_named(alloc, shelf, options.input, &mut files.input) {
            Ok(()) => Ok(files),
            Err(refusal) => Err(refusal),
        },
        Err(refusal) => Err(refusal),
    }
}
