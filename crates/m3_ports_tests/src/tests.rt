use crate::small_disk::SmallDisk;
use m3_ports::{FileShelf, MemShelf, MemSink, Shelf, ShelfFault, Sink, SinkFailed};
use std::fmt::Debug;
use std::fs;
use std::os::unix::fs::symlink;
use std::process::Abort;
use std::test::Fail;

/// The answer of a call, by the call's number, is what was wanted.
fn expect<T: PartialEq + Debug + Drop>(rt: &impl Abort, call: u32, found: T, wanted: T) {
    assert_eq!(rt; found, wanted, "call {call}");
}

#[test]
fn keeps_files_in_memory(rt: HostRuntime) -> Result<(), Fail> {
    let alloc = rt.alloc();
    let mut shelf = MemShelf::new(alloc)?;
    let mut into = Vec::new(alloc);
    let absent = shelf.fetch(alloc, "a", 9, &mut into);
    expect(&rt, 1, absent, Err(ShelfFault::Absent));
    expect(&rt, 2, shelf.store(alloc, "a", b"old"), Ok(()));
    expect(&rt, 3, shelf.store(alloc, "a", b"abcde"), Ok(()));
    expect(&rt, 4, shelf.fetch(alloc, "a", 5, &mut into), Ok(()));
    let too_long = shelf.fetch(alloc, "a", 4, &mut into);
    expect(&rt, 5, too_long, Err(ShelfFault::TooLong));
    expect(&rt, 5, into.as_slice(), b"abcdeabcd");
    shelf.fail_at(7)?;
    shelf.fail_at(8)?;
    expect(&rt, 6, shelf.store(alloc, "b", b"x"), Ok(()));
    let failed = shelf.fetch(alloc, "b", 1, &mut into);
    expect(&rt, 7, failed, Err(ShelfFault::Failed));
    expect(
        &rt,
        8,
        shelf.store(alloc, "b", b"y"),
        Err(ShelfFault::Failed),
    );
    expect(&rt, 9, shelf.fetch(alloc, "b", 1, &mut into), Ok(()));
    expect(&rt, 9, into.as_slice(), b"abcdeabcdx");
    Ok(())
}

#[test]
fn takes_output_in_memory(rt: HostRuntime) -> Result<(), Fail> {
    let mut sink = MemSink::with_room(rt.alloc(), 5)?;
    sink.fail_at(2)?;
    expect(&rt, 1, sink.put(b"ab"), Ok(()));
    expect(&rt, 2, sink.put(b"c"), Err(SinkFailed));
    expect(&rt, 3, sink.put(b"cdef"), Err(SinkFailed));
    expect(&rt, 4, sink.put(b"cde"), Ok(()));
    expect(&rt, 4, sink.bytes(), b"abcde");
    Ok(())
}

#[test]
fn keeps_a_file_where_the_disk_is_full(rt: HostRuntime) -> Result<(), Fail> {
    let alloc = rt.alloc();
    let disk = SmallDisk {
        files: &rt,
        room: 4,
    };
    let mut shelf = FileShelf::new(&disk);
    expect(&rt, 1, shelf.store(alloc, "a", b"old"), Ok(()));
    symlink(&rt, "a", "link")?;
    let failed = Err(ShelfFault::Failed);
    expect(&rt, 2, shelf.store(alloc, "a", b"abcde"), failed);
    expect(&rt, 3, shelf.store(alloc, "link", b"abcde"), failed);
    expect(&rt, 4, shelf.store(alloc, "b", b"abcde"), failed);
    let mut into = Vec::new(alloc);
    expect(&rt, 5, shelf.fetch(alloc, "a", 9, &mut into), Ok(()));
    expect(&rt, 6, shelf.store(alloc, "link", b"abcd"), Ok(()));
    expect(&rt, 7, shelf.fetch(alloc, "a", 9, &mut into), Ok(()));
    expect(&rt, 7, into.as_slice(), b"oldabcd");
    for name in ["b", "a.new1", "b.new1", "link.new1"] {
        expect(&rt, 8, fs::exists(&rt, name)?, false);
    }
    expect(
        &rt,
        9,
        fs::symlink_metadata(&rt, "link")?.is_symlink(),
        true,
    );
    Ok(())
}
