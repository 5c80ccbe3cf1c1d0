//! The line for err, in memory that is taken before it is known.
ghost use Rattle.std.specs.Prelude.{◌≡◌, ◌+◌, ◌≤◌, ◌<◌, ◌^◌, ◌++◌, [], length, codes, decimal};
ghost use Rattle.std.specs.Prelude.{slice_get, vec_len, vec_capacity};
ghost use Rattle.std.specs.Option.{option_map};
ghost use Rattle.m3_base.specs.Faults.{name_of_fault};
ghost use Rattle.m3_base.specs.declared.outcomes.Outcome.TheVariants.{Fault, Uncaught, Trap};
ghost use Rattle.m3_image.specs.Views.{image_view};
ghost use Rattle.m3_image_sections.specs.PartViews.{names_of};
ghost use Rattle.m3c_image_commands.specs.Reports.{end_status, name_bytes, ending, with_counts};
ghost use Rattle.m3c_image_commands.specs.Reports.{with_collections, counted, longest, longest_name};
ghost use Rattle.m3_run_state.specs.Seen.{state_of};

use crate::answers::Answer;
use crate::heaps::FirstHeap;
use itoa::Buffer;
use m3_base::{FaultKind, Outcome, fault_name};
use m3_heap::Store;
use m3_image::ImageView;
use m3_image_sections::Names;
use m3_machine::Machine;
use std::sync::ledger::Ledger;

/// The most bytes that a line has beside the name in it.
pub const LINE_ROOM: usize = 320;

/// Adds bytes to a line that has the room.
pub(crate) fn add(line: &mut Vec<u8>, piece: &[u8])
    requires { vec_len line.old + length piece.now ≤ vec_capacity line.old }
    ensures items { line.new.items ≡ line.old.items ++ piece.now }
    ensures len { vec_len line.new ≡ vec_len line.old + length piece.now }
    ensures capacity { vec_capacity line.old ≤ vec_capacity line.new }
{
    match line.extend_from_slice(piece) {
        Ok(()) => {}
        Err(_) => unreachable!(),
    }
}

/// Adds a number in decimal.
pub(crate) fn add_number(line: &mut Vec<u8>, number: u64)
    requires { vec_len line.old + 20 ≤ vec_capacity line.old }
    ensures items { line.new.items ≡ line.old.items ++ decimal number }
    ensures len { vec_len line.new ≤ vec_len line.old + 20 }
    ensures capacity { vec_capacity line.old ≤ vec_capacity line.new }
{
    let mut buffer = Buffer::new();
    add(line, buffer.format(number).as_bytes());
}

/// Adds a number of 128 bits in decimal.
fn add_long_number(line: &mut Vec<u8>, number: u128)
    requires { vec_len line.old + 40 ≤ vec_capacity line.old }
    ensures items { line.new.items ≡ line.old.items ++ decimal number }
    ensures len { vec_len line.new ≤ vec_len line.old + 40 }
    ensures capacity { vec_capacity line.old ≤ vec_capacity line.new }
{
    let mut buffer = Buffer::new();
    add(line, buffer.format(number).as_bytes());
}

/// The bytes of the longest of some names, or as many as are given.
fn longest_of(least: usize, names: Names<'_>) -> usize
    requires { least < 2 ^ 63 }
    ensures value { result ≡ longest least (names_of names.entry) }
    ensures fits { result < 2 ^ 63 }
{
    let mut longest = least;
    'names: for name in names {
        longest = longest.max(name.len());
    }
    longest
}

/// The bytes of the longest name of a file or an exception.
pub fn longest_name(image: &ImageView<'_>) -> usize
    ensures value { result ≡ longest_name (image_view image.now) }
    ensures fits { result < 2 ^ 63 }
{
    longest_of(longest_of(0, image.files()), image.exceptions())
}

/// A name, or nothing where there is none.
fn name_bytes<'a>(name: Option<&'a [u8]>) -> &'a [u8]
    ensures { result.now ≡ name_bytes (option_map (λ n. n.now) name.entry) }
{
    match name {
        Some(name) => name,
        None => b"",
    }
}

/// The name of a file, or nothing where there is none of that number.
fn file_name<'a>(image: &ImageView<'a>, file: u32) -> &'a [u8]
    ensures value { result.now ≡ name_bytes (slice_get (image_view image.now).program.files file) }
    ensures short { length result.now ≤ longest_name (image_view image.now) }
{
    name_bytes(image.file(file))
}

/// The name of an exception, or nothing where there is none of that number.
fn exception_name<'a>(image: &ImageView<'a>, exception: u32) -> &'a [u8]
    ensures value { result.now ≡ name_bytes (slice_get (image_view image.now).program.exceptions
        exception) }
    ensures short { length result.now ≤ longest_name (image_view image.now) }
{
    name_bytes(image.exception(exception))
}

/// Adds an ending that is the same text for every image.
fn add_plain(line: &mut Vec<u8>, text: &[u8], status: u8) -> u8
    requires empty { line.old.items ≡ [] }
    requires short { length text.now ≤ 64 }
    requires room { 256 ≤ vec_capacity line.old }
    ensures items { line.new.items ≡ text.now }
    ensures len { vec_len line.new ≤ 64 }
    ensures capacity { vec_capacity line.old ≤ vec_capacity line.new }
    ensures status { result ≡ status }
{
    add(line, text);
    status
}

#[tactic(auto, using(crate::proofs::LineLemmas::fault_short))]
fn add_fault(line: &mut Vec<u8>, image: &ImageView<'_>, kind: FaultKind, file: u32, at: u32) -> u8
    requires empty { line.old.items ≡ [] }
    requires room { longest_name (image_view image.now) + 256 ≤ vec_capacity line.old }
    ensures items { line.new.items ≡ ending (image_view image.now) (Fault kind file at) }
    ensures len { vec_len line.new ≤ longest_name (image_view image.now) + 64 }
    ensures capacity { vec_capacity line.old ≤ vec_capacity line.new }
    ensures status { result ≡ 10 }
{
    add(line, b"fault ");
    add(line, fault_name(kind).as_bytes());
    add(line, b" ");
    add(line, file_name(image, file));
    add(line, b":");
    add_number(line, u64::from(at));
    10
}

fn add_uncaught(line: &mut Vec<u8>, image: &ImageView<'_>, exception: u32) -> u8
    requires empty { line.old.items ≡ [] }
    requires room { longest_name (image_view image.now) + 256 ≤ vec_capacity line.old }
    ensures items { line.new.items ≡ ending (image_view image.now) (Uncaught exception) }
    ensures len { vec_len line.new ≤ longest_name (image_view image.now) + 64 }
    ensures capacity { vec_capacity line.old ≤ vec_capacity line.new }
    ensures status { result ≡ 11 }
{
    add(line, b"uncaught ");
    add(line, exception_name(image, exception));
    11
}

fn add_trap(line: &mut Vec<u8>, number: u32) -> u8
    requires empty { line.old.items ≡ [] }
    requires room { 256 ≤ vec_capacity line.old }
    ensures items { line.new.items ≡ codes "trap " ++ decimal number }
    ensures len { vec_len line.new ≤ 64 }
    ensures capacity { vec_capacity line.old ≤ vec_capacity line.new }
    ensures status { result ≡ 17 }
{
    add(line, b"trap ");
    add_number(line, u64::from(number));
    17
}

/// Adds how a run ended to an empty line, and gives the status.
fn add_ending(line: &mut Vec<u8>, image: &ImageView<'_>, outcome: Outcome) -> u8
    requires empty { line.old.items ≡ [] }
    requires room { longest_name (image_view image.now) + 256 ≤ vec_capacity line.old }
    ensures items { line.new.items ≡ ending (image_view image.now) outcome }
    ensures len { vec_len line.new ≤ longest_name (image_view image.now) + 64 }
    ensures capacity { vec_capacity line.old ≤ vec_capacity line.new }
    ensures status { result ≡ end_status outcome }
{
    match outcome {
        Outcome::Done => add_plain(line, b"done", 0),
        Outcome::Fault(kind, file, at) => add_fault(line, image, kind, file, at),
        Outcome::Uncaught(exception) => add_uncaught(line, image, exception),
        Outcome::Deadlock => add_plain(line, b"deadlock", 12),
        Outcome::ThreadsFull => add_plain(line, b"threads full", 13),
        Outcome::Spent => add_plain(line, b"spent", 14),
        Outcome::HeapFull => add_plain(line, b"heap full", 15),
        Outcome::StackFull => add_plain(line, b"stack full", 16),
        Outcome::Trap(number) => add_trap(line, number),
    }
}

/// Adds the points and the instructions of a machine.
fn add_counts<S: Store, L: Ledger>(line: &mut Vec<u8>, machine: &Machine<'_, S, L>)
    requires { vec_len line.old + 100 ≤ vec_capacity line.old }
    ensures items { line.new.items ≡ with_counts line.old.items machine.now.parts.points
        machine.now.parts.instructions }
    ensures len { vec_len line.new ≤ vec_len line.old + 100 }
    ensures capacity { vec_capacity line.old ≤ vec_capacity line.new }
{
    add(line, b" points ");
    add_number(line, machine.points());
    add(line, b" instructions ");
    add_long_number(line, machine.instructions());
}

/// Adds the collections of a machine, if they are to be told.
fn add_collections<S: Store, L: Ledger>(
    line: &mut Vec<u8>,
    machine: &Machine<'_, S, L>,
    tells: bool,
)
    requires { vec_len line.old + 40 ≤ vec_capacity line.old }
    ensures items { line.new.items ≡ with_collections tells line.old.items
        machine.now.parts.collections }
    ensures len { vec_len line.new ≤ vec_len line.old + 40 }
    ensures capacity { vec_capacity line.old ≤ vec_capacity line.new }
{
    if tells {
        add(line, b" collections ");
        add_number(line, machine.collections());
    }
}

/// The answer of a machine whose run ended so, in a line that has the room.
pub fn answer_of<S: FirstHeap, L: Ledger>(
    mut line: Vec<u8>,
    image: &ImageView<'_>,
    machine: &Machine<'_, S, L>,
    outcome: Outcome,
    tells: bool,
) -> Answer
    requires empty { line.items ≡ [] }
    requires room { longest_name (image_view image.now) + 320 ≤ vec_capacity line }
    ensures status { result.status ≡ end_status outcome }
    ensures line { result.line.items ≡ counted S.young tells (ending (image_view image.now) outcome)
        (state_of machine.now.parts) }
{
    let status = add_ending(&mut line, image, outcome);
    counted_answer(line, status, machine, tells)
}

/// The answer of a status and of a line, which has the room, with the counts of a machine behind it.
pub fn counted_answer<S: FirstHeap, L: Ledger>(
    mut line: Vec<u8>,
    status: u8,
    machine: &Machine<'_, S, L>,
    tells: bool,
) -> Answer
    requires { vec_len line + 220 ≤ vec_capacity line }
    ensures status { result.status ≡ status }
    ensures line { result.line.items
        ≡ counted S.young tells line.items (state_of machine.now.parts) }
{
    add_counts(&mut line, machine);
    add_collections(&mut line, machine, tells);
    machine.store().tell(&mut line);
    add(&mut line, b"\n");
    Answer { status, line }
}
