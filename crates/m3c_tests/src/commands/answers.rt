use m3_ports::{MemShelf, MemSink, Shelf};
use m3c::m3c;
use std::alloc::{AllocError, Global};
use std::io;

/// The most bytes that a command may put.
const ROOM: u64 = 65_536;

/// What a command answered: its status, what it put on out and on err, and the bytes of its image.
#[derive(Drop)]
pub struct Answer {
    pub status: u8,
    pub out: MemSink,
    pub err: MemSink,
    pub image: Vec<u8>,
}

/// The numbers of the puts on out and on err that fail; 0 for none.
#[derive(Clone, Copy)]
pub struct FailingPuts {
    pub out: u64,
    pub err: u64,
}

/// No put fails.
pub const NO_FAILURE: FailingPuts = FailingPuts { out: 0, err: 0 };

/// Memory ran out.
pub fn no_memory() -> io::Error {
    io::Error::from(io::ErrorKind::OutOfMemory)
}

fn sink(alloc: Global, failing: u64) -> io::Result<MemSink> {
    let Ok(mut sink) = MemSink::with_room(alloc, ROOM) else {
        return Err(no_memory());
    };
    if sink.fail_at(failing).is_err() {
        return Err(no_memory());
    }
    Ok(sink)
}

fn words_of(alloc: Global, line: &str) -> Result<Vec<String>, AllocError> {
    let mut words = Vec::new(alloc);
    for word in line.split(' ') {
        if !word.is_empty() {
            words.push(String::from_str(alloc, word)?)?;
        }
    }
    Ok(words)
}

/// What a command answers whose words stand in a line.
pub fn answer_of<F: Shelf>(
    alloc: Global,
    line: &str,
    shelf: &mut F,
    failing: FailingPuts,
) -> io::Result<Answer> {
    let mut out = sink(alloc, failing.out)?;
    let mut err = sink(alloc, failing.err)?;
    let mut image = Vec::new(alloc);
    let words = words_of(alloc, line)?;
    let status = m3c(alloc, words, shelf, &mut out, &mut err, &mut image);
    Ok(Answer {
        status,
        out,
        err,
        image,
    })
}

/// A shelf that holds one file.
pub fn shelf_with(alloc: Global, name: &str, bytes: &[u8]) -> io::Result<MemShelf> {
    let Ok(mut shelf) = MemShelf::new(alloc) else {
        return Err(no_memory());
    };
    if shelf.store(alloc, name, bytes).is_err() {
        return Err(no_memory());
    }
    Ok(shelf)
}

/// Bytes as a text of as many characters.
pub fn text_of(alloc: Global, bytes: &[u8]) -> Result<String, AllocError> {
    let mut text = String::new(alloc);
    for byte in bytes {
        text.push(char::from(*byte))?;
    }
    Ok(text)
}
