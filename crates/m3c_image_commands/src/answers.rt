ghost use Rattle.std.specs.Prelude.{◌≡◌, ◌≤◌, ◌++◌, [], OnOk, OnErr, codes};
ghost use Rattle.m3_ports.specs.Counts.{Rose};
ghost use Rattle.m3c_image_commands.specs.Statuses.{Took, Tells, putting};

use m3_ports::{Sink, SinkFailed};
use std::alloc::Global;

const WRITE_FAULT: u8 = 4;

/// The status of a command that went to its end, and the line that goes to err: with its line feed,
/// or empty where there is none.
#[derive(Drop)]
pub struct Answer {
    pub status: u8,
    pub line: Vec<u8>,
}

/// Why a command ends before that, said without memory: its status, and the front of the line and
/// the name that it speaks of.
#[derive(Clone, Copy)]
pub struct Refusal<'a> {
    pub status: u8,
    pub front: &'a [u8],
    pub name: &'a [u8],
}

impl Refusal<'static> {
    pub const NO_MEMORY: Refusal<'static> = Refusal {
        status: 5,
        front: b"out of memory",
        name: b"",
    };

    pub const USAGE: Refusal<'static> = Refusal {
        status: 2,
        front: b"usage: m3c build, run, exec, dump or bench",
        name: b"",
    };

    pub const WRITE_FAULT: Refusal<'static> = Refusal {
        status: WRITE_FAULT,
        front: b"write fault",
        name: b"",
    };
}

impl Answer {
    /// Success, without a line.
    pub fn silent(alloc: Global) -> Answer
        ensures status { result.status ≡ 0 }
        ensures line { result.line.items ≡ [] }
    {
        Answer {
            status: 0,
            line: Vec::new(alloc),
        }
    }
}

// The name that a refusal speaks of, if it speaks of one.
fn put_name<E: Sink>(err: &mut E, name: &[u8]) -> Result<(), SinkFailed>
    ensures faults { E.faults err.old ≤ E.faults err.new }
    ensures ok { OnOk result (Took (E.taken err.old, E.taken err.new) name.now) }
    ensures failed { OnErr result (Rose (E.faults err.old) (E.faults err.new)) }
{
    if name.is_empty() {
        return Ok(());
    }
    err.put(name)
}

#[tactic(auto, using(crate::proofs::TellLemmas::rose_later))]
fn put_refusal<E: Sink>(err: &mut E, refusal: Refusal<'_>) -> Result<(), SinkFailed>
    ensures ok { OnOk result (Took (E.taken err.old, E.taken err.new)
        (refusal.entry.front.now ++ refusal.entry.name.now ++ codes "\n")) }
    ensures failed { OnErr result (Rose (E.faults err.old) (E.faults err.new)) }
{
    err.put(refusal.front)?;
    put_name(err, refusal.name)?;
    err.put(b"\n")
}

// The line of an answer, if it has one.
fn put_line<E: Sink>(err: &mut E, line: &[u8]) -> Result<(), SinkFailed>
    ensures ok { OnOk result (Took (E.taken err.old, E.taken err.new) line.now) }
    ensures failed { OnErr result (Rose (E.faults err.old) (E.faults err.new)) }
{
    if line.is_empty() {
        return Ok(());
    }
    err.put(line)
}

// The status, or that of a write fault where a line was not put.
fn status_of(status: u8, told: Result<(), SinkFailed>) -> u8
    ensures ok { OnOk told (result ≡ status) }
    ensures failed { OnErr told (result ≡ 4) }
{
    match told {
        Ok(()) => status,
        Err(_) => WRITE_FAULT,
    }
}

/// Puts the line of an answer or of a refusal, and gives the status, or that of a write fault.
pub fn tell<E: Sink>(err: &mut E, answer: Result<Answer, Refusal<'_>>) -> u8
    ensures { Tells (putting E.Sink err.old err.new) answer.entry result }
{
    match answer {
        Ok(answer) => status_of(answer.status, put_line(err, &answer.line)),
        Err(refusal) => status_of(refusal.status, put_refusal(err, refusal)),
    }
}
