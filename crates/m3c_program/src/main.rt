//! The program `m3c`: the real files, standard output and standard error around the command.
#![tactic(auto)]

use m3_base::NoMemory;
use m3_ports::{FileShelf, Sink, StdSink};
use m3c::m3c;
use m3c_streams::{Gathered, Kept};
use std::alloc::Global;
use std::io::{ErrorKind, Stderr, Stdout};
use std::process::ExitCode;
use std::rt::Env;
use std::{env, io};

/// What the command is called with.
#[derive(Drop)]
struct Call {
    words: Vec<String>,
    out: Gathered<StdSink<Stdout>>,
    err: Kept<StdSink<Stderr>>,
}

fn main(rt: HostRuntime) -> io::Result<ExitCode> {
    let Ok(call) = call_of(&rt, rt.stdout(), rt.stderr()) else {
        let told = StdSink::err(rt.stderr()).put(b"out of memory\n");
        return Ok(ExitCode::from(if told.is_ok() { 5 } else { 4 }));
    };
    let mut shelf = FileShelf::new(&rt);
    let Call {
        words,
        mut out,
        mut err,
    } = call;
    let mut image = Vec::new(rt.alloc());
    let status = m3c(
        rt.alloc(),
        words,
        &mut shelf,
        &mut out,
        &mut err,
        &mut image,
    );
    // The output goes first, so that the line stands behind it.
    let status = if out.flush().is_ok() {
        status
    } else {
        err.forget();
        let _kept = err.put(b"write fault\n");
        4
    };
    let told = err.give();
    Ok(ExitCode::from(if told.is_ok() { status } else { 4 }))
}

/// The words and the streams, or want of memory.
fn call_of<R: Env + Alloc<A = Global>>(rt: &R, out: Stdout, err: Stderr) -> Result<Call, NoMemory> {
    let alloc = rt.alloc();
    let words = match words(rt) {
        Ok(words) => words,
        // Words that aren't UTF-8 are no command line, as no words are none.
        Err(error) if error.kind() == ErrorKind::InvalidData => Vec::new(alloc),
        Err(_) => return Err(NoMemory),
    };
    Ok(Call {
        words,
        out: Gathered::new(alloc, StdSink::out(out))?,
        err: Kept::new(alloc, StdSink::err(err))?,
    })
}

// The words of the command line, without the program's name.
fn words<R: Env + Alloc<A = Global>>(rt: &R) -> io::Result<Vec<String>> {
    let mut words = Vec::new(rt.alloc());
    for word in env::args(rt)?.skip(1) {
        words.push(word)?;
    }
    Ok(words)
}
