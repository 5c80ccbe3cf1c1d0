//! The text of a schedule: one entry a line.
ghost use Rattle.std.specs.Prelude.{◌≡◌, ◌<◌, length, ◌∷◌, IfOk, IfErr};
ghost use Rattle.m3_base.specs.Schedules.{lines_of, number_after, number_in, entry_in, IsSchedule};
ghost use Rattle.m3_base.specs.ScheduleRefusals.{IsScheduleRefusal};
ghost use Rattle.m3_base.specs.declared.schedules.ScheduleRefusal.TheVariants.{NoMemory};

use crate::memory;
use crate::outcomes::Entry;
use std::alloc::{AllocError, AllocFailed, Global};
use thiserror::Error;

/// The most entries that a schedule may have.
const MOST_ENTRIES: usize = 1_000_000;

/// Why a text is no schedule: its first line that is no entry, by its number from 1, or a line behind the
/// 1,000,000th.
#[derive(Clone, Copy, Debug, PartialEq, Eq, Error)]
pub enum ScheduleRefusal {
    #[error("line {0}")]
    BadLine(u32),
    #[error("too many")]
    TooMany,
    #[error("out of memory")]
    NoMemory,
}

impl From<memory::NoMemory> for ScheduleRefusal {
    ghost from_gives = { λ _ e. e ≡ NoMemory };

    fn from(_e: memory::NoMemory) -> ScheduleRefusal {
        ScheduleRefusal::NoMemory
    }
}

impl<T: Drop> From<AllocFailed<T>> for ScheduleRefusal {
    ghost from_gives = { λ _ e. e ≡ NoMemory };

    fn from(_e: AllocFailed<T>) -> ScheduleRefusal {
        ScheduleRefusal::NoMemory
    }
}

/// The number that digits say. None exactly where there is another byte, or the number is past 64 bits.
#[tactic(auto, using(crate::proofs::ScheduleLemmas::number_after_large), unfolding(crate::specs::Schedules::number_after))]
fn value_of(digits: &[u8]) -> Option<u64>
    ensures { result ≡ number_after 0 digits.now }
{
    let mut value: u64 = 0;
    let mut rest = digits;
    while let [digit, after @ ..] = rest {
        if !digit.is_ascii_digit() {
            return None;
        }
        value = value.checked_mul(10)?.checked_add((*digit - b'0') as u64)?;
        rest = after;
    }
    Some(value)
}

/// The number that decimal digits say. None exactly where they are no number of 64 bits, where there are
/// none, and where 0 stands before another.
fn number_in(digits: &[u8]) -> Option<u64>
    ensures { result ≡ number_in digits.now }
{
    if digits.is_empty() || (digits.len() > 1 && digits[0] == b'0') {
        return None;
    }
    value_of(digits)
}

/// The entry that a line is.
fn entry_in(line: &[u8]) -> Option<Entry>
    ensures { result ≡ entry_in line.now }
{
    if line == b"-".as_slice() {
        return Some(Entry {
            to: None,
            collect: false,
        });
    }
    if line == b"g".as_slice() {
        return Some(Entry {
            to: None,
            collect: true,
        });
    }
    match line.strip_suffix(b" g") {
        Some(digits) => Some(Entry {
            to: Some(number_in(digits)?),
            collect: true,
        }),
        None => Some(Entry {
            to: Some(number_in(line)?),
            collect: false,
        }),
    }
}

/// The first line of a text that isn't empty, without its line feed, and what follows it.
#[tactic(auto, using(crate::proofs::ScheduleLemmas::lines_at, crate::proofs::ScheduleLemmas::lines_whole))]
fn first_line(text: &[u8]) -> (&[u8], &[u8])
    requires { 0 < length text.now }
    ensures lines { lines_of text.now ≡ result.0.now ∷ lines_of result.1.now }
    ensures shorter { length result.1.now < length text.now }
{
    for (end, byte) in text.iter().enumerate() {
        if *byte == b'\n' {
            return (&text[..end], &text[end + 1..]);
        }
    }
    (text, &[])
}

/// The entries of a schedule, one from each line: `-` for none, `g` for a collection, a thread's number, or a
/// thread's number with ` g` behind it. The first bad line from the top is the one that is refused; a
/// line behind the 1,000,000th is one too many, whatever it holds.
pub fn read_schedule(alloc: Global, bytes: &[u8]) -> Result<Vec<Entry>, ScheduleRefusal>
    ensures ok { IfOk result (λ entries. IsSchedule bytes.now entries.items) }
    ensures err { IfErr result (λ e. IsScheduleRefusal bytes.now e) }
{
    let mut entries = Vec::new(alloc);
    let mut rest = bytes;
    while !rest.is_empty() {
        let (line, after) = first_line(rest);
        if entries.len() == MOST_ENTRIES {
            return Err(ScheduleRefusal::TooMany);
        }
        let Some(entry) = entry_in(line) else {
            return Err(ScheduleRefusal::BadLine(entries.len() as u32 + 1));
        };
        entries.push(entry)?;
        rest = after;
    }
    Ok(entries)
}
