ghost use Rattle.std.specs.Prelude.{◌≡◌, IfOk};
ghost use Rattle.m3_workload.specs.Schedules.{next, entry_at, schedule_of};

use m3_base::{Entry, NoMemory};
use std::alloc::Global;

const ENTRIES: u32 = 20_000;

/// The next state of the linear congruential generator of Knuth's MMIX.
fn next_state(state: u64) -> u64
    ensures { result ≡ next state }
{
    state
        .wrapping_mul(6_364_136_223_846_793_005)
        .wrapping_add(1_442_695_040_888_963_407)
}

/// The entry of a state: a thread of 0 to 4, and in one of eight cases a collection.
fn entry_of(state: u64) -> Entry
    ensures { result ≡ entry_at state }
{
    Entry {
        to: Some((state >> 33) % 5),
        collect: (state >> 40) % 8 == 0,
    }
}

/// The schedule of a number, 20,000 entries.
pub fn schedule(alloc: Global, number: u64) -> Result<Vec<Entry>, NoMemory>
    ensures { IfOk result (λ entries. entries.items ≡ schedule_of number) }
{
    let mut entries = Vec::new(alloc);
    let mut state = number;
    let mut left = ENTRIES;
    while left > 0 {
        state = next_state(state);
        entries.push(entry_of(state))?;
        left -= 1;
    }
    Ok(entries)
}
