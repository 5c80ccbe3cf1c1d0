//! A file of the system whose bytes are replaced: it holds the old ones until all new ones stand.
ghost use Rattle.std.specs.Prelude.{◌≡◌, ◌⊎◌, IsErrOf};
ghost use Rattle.m3_ports.specs.Files.{IsStoreAnswer};

use crate::shelves::ShelfFault;
use std::alloc::Global;
use std::fs::{Metadata, OpenFile, OpenOptions};
use std::io::{Error, ErrorKind, Write};
use std::os::unix::fs::{MetadataExt, chown};
use std::rt::Files;
use std::{fs, io};

/// How many names are tried for the file beside.
const NAMES: u32 = 1000;

/// What came of writing a file beside another and giving it the other's name.
#[derive(Clone, Copy, PartialEq, Eq)]
enum Beside {
    /// The name has the new bytes.
    Stored,
    /// The folder doesn't let it happen, and all is as it was.
    NotAllowed,
}

/// What a store answers for an error of the system.
fn fault_of(error: &Error) -> ShelfFault
    ensures { (result ≡ ShelfFault.Failed) ⊎ (result ≡ ShelfFault.NoMemory) }
{
    if error.kind() == ErrorKind::OutOfMemory {
        ShelfFault::NoMemory
    } else {
        ShelfFault::Failed
    }
}

/// Whether an error says that a folder or the system keeps things as they are there: a file may be
/// written in its place all the same.
fn is_not_allowed(error: &Error) -> bool {
    let kind = error.kind();
    kind == ErrorKind::PermissionDenied
        || kind == ErrorKind::InvalidFilename
        || kind == ErrorKind::ResourceBusy
}

/// Writes all of the bytes, or answers that a write failed.
fn write_whole<F: Write>(file: &mut F, bytes: &[u8]) -> Result<(), ShelfFault>
    ensures { IsErrOf result ShelfFault.Failed ⊎ (result ≡ Ok tt) }
{
    let mut rest = bytes;
    for _turn in 0..u64::MAX {
        if rest.is_empty() {
            return Ok(());
        }
        match file.write(rest) {
            Ok(0) => return Err(ShelfFault::Failed),
            Ok(count) => rest = &rest[count..],
            Err(e) if e.kind() == ErrorKind::Interrupted => {}
            Err(_) => return Err(ShelfFault::Failed),
        }
    }
    Err(ShelfFault::Failed)
}

/// Gives a new file the owner and the permissions of the one that it is to replace.
fn resemble<R: Files>(rt: &R, file: &R::File, name: &str, held: &Metadata) -> io::Result<()> {
    let made = file.metadata()?;
    if made.uid() != held.uid() || made.gid() != held.gid() {
        chown(rt, name, Some(held.uid()), Some(held.gid()))?;
    }
    file.set_permissions(held.permissions())
}

/// Fills a new file and gives it the name of the place beside it.
fn take_over<R: Files>(
    rt: &R,
    file: &mut R::File,
    beside: &str,
    place: &str,
    held: Option<&Metadata>,
    bytes: &[u8],
) -> Result<Beside, ShelfFault>
    ensures { IsStoreAnswer result }
{
    if let Some(held) = held {
        if resemble(rt, file, beside, held).is_err() {
            return Ok(Beside::NotAllowed);
        }
    }
    write_whole(file, bytes)?;
    // A system that writes late may find only now that the disk is full.
    if file.sync_all().is_err() {
        return Err(ShelfFault::Failed);
    }
    match fs::rename(rt, beside, place) {
        Ok(()) => Ok(Beside::Stored),
        Err(e) if is_not_allowed(&e) => Ok(Beside::NotAllowed),
        Err(e) => Err(fault_of(&e)),
    }
}

/// Writes the bytes to a new file beside the place, which then gets the place's name. Where that
/// fails the new file goes again.
fn write_beside<R: Files>(
    rt: &R,
    alloc: Global,
    place: &str,
    held: Option<&Metadata>,
    bytes: &[u8],
) -> Result<Beside, ShelfFault>
    ensures { IsStoreAnswer result }
{
    for number in 1..=NAMES {
        let Ok(beside) = format!(in alloc; "{place}.new{number}") else {
            return Err(ShelfFault::NoMemory);
        };
        let beside = beside.as_str();
        match OpenOptions::new()
            .write(true)
            .create_new(true)
            .open(rt, beside)
        {
            Ok(mut file) => {
                let answer = take_over(rt, &mut file, beside, place, held, bytes);
                if answer != Ok(Beside::Stored) {
                    let _removed = fs::remove_file(rt, beside);
                }
                return answer;
            }
            Err(e) if e.kind() == ErrorKind::AlreadyExists => {}
            Err(e) if is_not_allowed(&e) => return Ok(Beside::NotAllowed),
            Err(e) => return Err(fault_of(&e)),
        }
    }
    Ok(Beside::NotAllowed)
}

/// Replaces the file of a name, or makes it. A link stays: what it leads to is replaced.
fn replace<R: Files>(
    rt: &R,
    alloc: Global,
    name: &str,
    held: Option<&Metadata>,
    bytes: &[u8],
) -> Result<Beside, ShelfFault>
    ensures { IsStoreAnswer result }
{
    let is_link = match fs::symlink_metadata(rt, name) {
        Ok(named) => named.is_symlink(),
        Err(_) => false,
    };
    if !is_link {
        return write_beside(rt, alloc, name, held, bytes);
    }
    match rt.canonicalize(alloc, name) {
        Ok(target) => write_beside(rt, alloc, target.as_str(), held, bytes),
        Err(e) if e.kind() == ErrorKind::OutOfMemory => Err(ShelfFault::NoMemory),
        Err(_) => Ok(Beside::NotAllowed),
    }
}

/// Writes the bytes over what the name holds. Where that fails a file that is new goes again, and
/// any other is left with a front of them.
fn write_in_place<R: Files>(
    rt: &R,
    alloc: Global,
    name: &str,
    is_new: bool,
    bytes: &[u8],
) -> Result<(), ShelfFault>
    ensures { IsStoreAnswer result }
{
    let mut file = match fs::create(rt, name) {
        Ok(file) => file,
        Err(e) => return Err(fault_of(&e)),
    };
    let answer = write_whole(&mut file, bytes);
    if answer.is_err() && is_new {
        if let Ok(made) = rt.canonicalize(alloc, name) {
            let _removed = fs::remove_file(rt, made.as_str());
        }
    }
    answer
}

/// Keeps the bytes under a name. An ordinary file is replaced once all of them stand beside it, so
/// that it is as it was where a write fails; a device or a pipe just takes them.
pub fn store_file<R: Files>(
    rt: &R,
    alloc: Global,
    name: &str,
    bytes: &[u8],
) -> Result<(), ShelfFault>
    ensures { IsStoreAnswer result }
{
    // Whoever may not write the file may not replace it either.
    let held = match OpenOptions::new().write(true).open(rt, name) {
        Ok(mut file) => match file.metadata() {
            Ok(held) if held.is_file() => Some(held),
            Ok(_) => return write_whole(&mut file, bytes),
            Err(e) => return Err(fault_of(&e)),
        },
        Err(e) if e.kind() == ErrorKind::NotFound => None,
        Err(e) => return Err(fault_of(&e)),
    };
    match replace(rt, alloc, name, held.as_ref(), bytes)? {
        Beside::Stored => Ok(()),
        Beside::NotAllowed => write_in_place(rt, alloc, name, held.is_none(), bytes),
    }
}
