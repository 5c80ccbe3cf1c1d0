ghost use Rattle.std.specs.Prelude.{◌≡◌, ◌+◌, ◌<◌, length, map, vec_capacity, MatchOption, None};
ghost use Rattle.m3_threads.specs.All.{HoldsOfEach, NamesRegisters, base_of_slot};
ghost use Rattle.m3_threads.specs.PlacesInside.{IsPlaceOf, IsNobody, IsLongestAt, IsLongestBelow};
ghost use Rattle.std.specs.List.{list_any};
ghost use Rattle.m3_threads.specs.Actions.{SleepsLongest, woken_on, IsLowestFree, uses};

use crate::status::Thread;

/// The place of the thread of a number, if it is there.
pub fn place_of(threads: &[Thread], number: u64) -> Option<usize>
    ensures { MatchOption result (IsNobody number threads.now)
        (IsPlaceOf number threads.now) }
{
    for (k, t) in threads.iter().enumerate() {
        if t.number == number {
            return Some(k);
        }
    }
    None
}

/// The first address of a slot's stack.
pub fn base_of_slot(slot: u32) -> u64
    requires { slot < 64 }
    ensures { result ≡ base_of_slot slot }
{
    (1 << 40) * (u64::from(slot) + 1)
}

/// The place of the thread that sleeps longest on a condition, if anyone sleeps there.
pub fn longest_asleep(threads: &[Thread], condition: u64) -> Option<usize>
    requires { HoldsOfEach (λ t. NamesRegisters t.status) threads.now }
    ensures { MatchOption result (SleepsLongest condition threads.now None)
        (λ k. IsLongestAt condition threads.now k) }
{
    let mut best = None;
    for k in 0..threads.len() {
        best = longer(threads, condition, best, k);
    }
    best
}

// Whoever sleeps longest on a condition, of the one so far and the thread at a place.
fn longer(threads: &[Thread], condition: u64, best: Option<usize>, k: usize) -> Option<usize>
    requires registers { HoldsOfEach (λ t. NamesRegisters t.status) threads.now }
    requires within { k < length threads.now }
    requires so_far { IsLongestBelow condition threads.now k best }
    ensures { IsLongestBelow condition threads.now (k + 1) result }
{
    let t = &threads[k];
    if !t.sleeps_on(condition) {
        return best;
    }
    match best {
        Some(b) if threads[b].queue_place() <= t.queue_place() => best,
        _ => Some(k),
    }
}

/// Wakes all that sleep on a condition.
pub fn wake_sleepers(threads: &mut Vec<Thread>, condition: u64)
    requires { HoldsOfEach (λ t. NamesRegisters t.status) threads.old.items }
    ensures threads { threads.new.items ≡ map (woken_on condition) threads.old.items }
    ensures capacity { vec_capacity threads.new ≡ vec_capacity threads.old }
{
    for k in 0..threads.len() {
        let t = threads[k];
        threads[k] = woken_on(condition, t);
    }
}

// The thread, woken if it sleeps on a condition.
fn woken_on(condition: u64, t: Thread) -> Thread
    requires { NamesRegisters t.status }
    ensures { result ≡ woken_on condition t }
{
    if t.sleeps_on(condition) { t.woken() } else { t }
}

/// The lowest slot that no thread uses.
pub fn lowest_slot(threads: &[Thread], allowed: u32) -> u32
    requires { length threads.now < allowed }
    ensures lowest { IsLowestFree threads.now result }
    ensures below { result < allowed }
{
    for slot in 0..allowed {
        if !is_used(threads, slot) {
            return slot;
        }
    }
    unreachable!()
}

// Whether a thread uses a slot.
fn is_used(threads: &[Thread], slot: u32) -> bool
    ensures { result ≡ list_any (uses slot) threads.now }
{
    threads.iter().any(|t| t.slot == slot)
}
