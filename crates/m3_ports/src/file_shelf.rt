ghost use Rattle.std.specs.Prelude.{◌≡◌, ◌≤◌, ℕ, ◌⊎◌, None, OnOk, IfSome, IsErrOf, is_some};
ghost use Rattle.m3_ports.specs.Files.{Fetches, GrowsWithin, GrowsBy};

use crate::replace::store_file;
use crate::shelves::{Shelf, ShelfFault};
use std::alloc::Global;
use std::fs;
use std::io::{ErrorKind, Read};
use std::marker::Model;
use std::rt::Files;

/// The system's files, by their paths. It tells nothing of what they hold, and counts what goes
/// wrong. A store that failed leaves an ordinary file as it was, and nothing where there was none,
/// unless the folder lets nothing new in.
#[derive(Drop)]
pub struct FileShelf<'a, R> {
    rt: &'a R,
    faults: u64,
    store_faults: u64,
    absences: u64,
    excesses: u64,
}

impl<'a, R> Model for FileShelf<'a, R> {
    ghost use Rattle.m3_ports.specs.Counts.{ShelfCounts};

    ghost Value = { ShelfCounts };

    ghost view = { λ s. record {
      faults = s.faults;
      store_faults = s.store_faults;
      absences = s.absences;
      excesses = s.excesses;
    } };
}

impl<'a, R> FileShelf<'a, R> {
    /// A shelf over the files that this runtime reaches, with every count at 0.
    pub fn new(rt: &'a R) -> FileShelf<'a, R>
        ensures { result ≡ record { faults = 0; store_faults = 0; absences = 0; excesses = 0 } }
    {
        FileShelf {
            rt,
            faults: 0,
            store_faults: 0,
            absences: 0,
            excesses: 0,
        }
    }
}

/// Adds what is left of a file to `into`, at most `cap` bytes.
fn read_to_cap<F: Read>(file: &mut F, cap: u64, into: &mut Vec<u8>) -> Result<(), ShelfFault>
    ensures within { GrowsWithin cap into.old.items into.new.items }
    ensures full { IsErrOf result ShelfFault.TooLong → GrowsBy cap into.old.items into.new.items }
    ensures there { IsErrOf result ShelfFault.Absent → ⊥ }
{
    let mut buffer = [0u8; 4096];
    let mut left = cap;
    for _turn in 0..u64::MAX {
        let count = match file.read(&mut buffer) {
            Ok(0) => return Ok(()),
            Ok(count) => count,
            Err(e) if e.kind() == ErrorKind::Interrupted => continue,
            Err(_) => return Err(ShelfFault::Failed),
        };
        let over = count as u64 > left;
        let taken = if over { left as usize } else { count };
        if into.extend_from_slice(&buffer[..taken]).is_err() {
            return Err(ShelfFault::NoMemory);
        }
        if over {
            return Err(ShelfFault::TooLong);
        }
        left -= taken as u64;
    }
    Err(ShelfFault::Failed)
}

/// Whether an error says that no file has the name, also where it could be no file's.
fn is_absence(kind: ErrorKind) -> bool {
    kind == ErrorKind::NotFound
        || kind == ErrorKind::NotADirectory
        || kind == ErrorKind::InvalidFilename
}

/// Adds the bytes of the file at a path to `into`, at most `cap`.
fn read_file<R: Files>(rt: &R, name: &str, cap: u64, into: &mut Vec<u8>) -> Result<(), ShelfFault>
    ensures { Fetches None name.now cap into.old.items into.new.items result }
{
    match fs::open(rt, name) {
        Ok(mut file) => read_to_cap(&mut file, cap, into),
        Err(e) if is_absence(e.kind()) => Err(ShelfFault::Absent),
        Err(e) if e.kind() == ErrorKind::OutOfMemory => Err(ShelfFault::NoMemory),
        Err(_) => Err(ShelfFault::Failed),
    }
}

impl<R: Files> Shelf for FileShelf<'_, R> {
    ghost held = { λ _. None };

    ghost faults = { λ s. s.faults };

    ghost store_faults = { λ s. s.store_faults };

    ghost absences = { λ s. s.absences };

    ghost excesses = { λ s. s.excesses };

    fn fetch(
        &mut self,
        _alloc: Global,
        name: &str,
        cap: u64,
        into: &mut Vec<u8>,
    ) -> Result<(), ShelfFault> {
        let answer = read_file(self.rt, name, cap, into);
        match answer {
            Err(ShelfFault::Absent) => self.absences = self.absences.saturating_add(1),
            Err(ShelfFault::TooLong) => self.excesses = self.excesses.saturating_add(1),
            Err(ShelfFault::Failed) => self.faults = self.faults.saturating_add(1),
            Err(ShelfFault::NoMemory) | Ok(()) => {}
        }
        answer
    }

    fn store(&mut self, alloc: Global, name: &str, bytes: &[u8]) -> Result<(), ShelfFault> {
        let answer = store_file(self.rt, alloc, name, bytes);
        if answer == Err(ShelfFault::Failed) {
            self.store_faults = self.store_faults.saturating_add(1);
        }
        answer
    }
}
