//! Derived words of one frame, taken apart and put together again.
ghost use Rattle.std.specs.Prelude.{◌≡◌, ◌≤◌, ◌+◌, ◌++◌, length, take, drop};
ghost use Rattle.std.specs.Option.{option_map};
ghost use Rattle.m3_tables.specs.Views.{numbers_of, bases_of, entry_of, entries_of};
ghost use Rattle.m3_tables.specs.Tables.{derived_in};
ghost use Rattle.m3_roots.specs.ThreadWords.{places_from, derived_at, derived_from, way_at, sum_at};
ghost use Rattle.m3_roots.specs.ThreadWords.{bases_by_way, base_places};
ghost use Rattle.m3_roots.specs.Steps.{derived_listed};
ghost use Rattle.m3_roots.specs.TakingApart.{apart_at, apart, together_at, together, Leaves};

use crate::places::{set_word, word_at};
use m3_heap::Steps;
use m3_tables::{Derivation, Entries, Numbers, Row, WayView};
use std::sync::ledger::Ledger;

/// The sum of the words at some places, modulo 2^64.
fn sum_of<L: Ledger>(
    r: &[u64; 16],
    stack: &[u64],
    first: usize,
    places: Numbers<'_>,
    steps: &mut Steps<L>,
) -> u64
    ensures sum { result ≡ sum_at (r.now ++ stack.now)
        (places_from first (numbers_of places.entry)) }
    ensures cost { steps.new ≡ steps.old + length (numbers_of places.entry) }
{
    let mut sum: u64 = 0;
    for place in places {
        sum = sum.wrapping_add(word_at(r, stack, first, place));
        steps.tick();
    }
    sum
}

/// The way of an entry that the word of its path picks. None comes exactly where that is past the
/// ways.
fn way_of<'a>(
    r: &[u64; 16],
    stack: &[u64],
    first: usize,
    entry: &Derivation<'a>,
) -> Option<WayView<'a>>
    ensures { option_map bases_of result ≡ way_at (r.now ++ stack.now)
        (derived_at first (entry_of entry.now)) }
{
    let number = match entry.path_number() {
        Some(path) => word_at(r, stack, first, path),
        None => 0,
    };
    if number >= u64::from(entry.ways()) {
        return None;
    }
    let mut ways = entry.every_way();
    for _ in 0..number {
        ways.next()?;
    }
    ways.next()
}

/// The signed sum of the bases of an entry, modulo 2^64. None comes exactly where its path is past
/// its ways.
fn bases_of<L: Ledger>(
    r: &[u64; 16],
    stack: &[u64],
    first: usize,
    entry: &Derivation<'_>,
    steps: &mut Steps<L>,
) -> Option<u64>
    ensures sum { result ≡ option_map (bases_by_way (r.now ++ stack.now) first)
        (way_at (r.now ++ stack.now) (derived_at first (entry_of entry.now))) }
    ensures cost { steps.new ≤ steps.old
        + length (base_places (derived_at first (entry_of entry.now))) }
{
    let way = way_of(r, stack, first, entry)?;
    let added = sum_of(r, stack, first, way.added, steps);
    let subtracted = sum_of(r, stack, first, way.subtracted, steps);
    Some(added.wrapping_sub(subtracted))
}

/// Subtracts the bases of a derived word from it. False comes exactly where its path is past its
/// ways.
fn subtract<L: Ledger>(
    first: usize,
    entry: &Derivation<'_>,
    r: &mut [u64; 16],
    stack: &mut [u64],
    steps: &mut Steps<L>,
) -> bool
    ensures leaves { Leaves result
        (apart_at (derived_at first (entry_of entry.now)) (r.old ++ stack.old))
        (r.new ++ stack.new) }
    ensures cost { steps.new ≤ steps.old
        + length (base_places (derived_at first (entry_of entry.now))) }
{
    let Some(bases) = bases_of(r, stack, first, entry, steps) else {
        return false;
    };
    let place = entry.place_number();
    let word = word_at(r, stack, first, place);
    set_word(r, stack, first, place, word.wrapping_sub(bases));
    true
}

/// Adds the bases of a derived word to it. False comes exactly where its path is past its ways.
fn add<L: Ledger>(
    first: usize,
    entry: &Derivation<'_>,
    r: &mut [u64; 16],
    stack: &mut [u64],
    steps: &mut Steps<L>,
) -> bool
    ensures leaves { Leaves result
        (together_at (derived_at first (entry_of entry.now)) (r.old ++ stack.old))
        (r.new ++ stack.new) }
    ensures cost { steps.new ≤ steps.old
        + length (base_places (derived_at first (entry_of entry.now))) }
{
    let Some(bases) = bases_of(r, stack, first, entry, steps) else {
        return false;
    };
    let place = entry.place_number();
    let word = word_at(r, stack, first, place);
    set_word(r, stack, first, place, word.wrapping_add(bases));
    true
}

/// Subtracts the bases of a row's derived words from them, from the first to the last.
pub fn take_row_apart<L: Ledger>(
    row: &Row<'_>,
    first: usize,
    r: &mut [u64; 16],
    stack: &mut [u64],
    steps: &mut Steps<L>,
) -> bool
    ensures leaves { Leaves result
        (apart (derived_from first (derived_in row.now)) (r.old ++ stack.old))
        (r.new ++ stack.new) }
    ensures cost { steps.new ≤ steps.old + derived_listed (derived_from first (derived_in row.now)) }
{
    for entry in row.derivations() {
        if !subtract(first, &entry, r, stack, steps) {
            return false;
        }
    }
    true
}

fn count_of(row: &Row<'_>) -> u32
    ensures { result ≡ length (derived_in row.now) }
{
    let mut count: u32 = 0;
    for _entry in row.derivations() {
        count += 1;
    }
    count
}

/// The derived words behind the first so many.
fn behind<'a>(entries: Entries<'a>, count: u32) -> Entries<'a>
    ensures { entries_of result ≡ drop count (entries_of entries.entry) }
{
    let mut later = entries;
    for _ in 0..count {
        later.next();
    }
    later
}

/// Adds the bases of the first one of some derived words to it, where there is one.
fn put_one_together<L: Ledger>(
    entries: Entries<'_>,
    first: usize,
    r: &mut [u64; 16],
    stack: &mut [u64],
    steps: &mut Steps<L>,
) -> bool
    ensures leaves { Leaves result
        (together (derived_from first (take 1 (entries_of entries.entry))) (r.old ++ stack.old))
        (r.new ++ stack.new) }
    ensures cost { steps.new ≤ steps.old + derived_listed (derived_from first (take 1 (entries_of entries.entry))) }
{
    let mut entries = entries;
    match entries.next() {
        Some(entry) => add(first, &entry, r, stack, steps),
        None => true,
    }
}

/// Adds the bases of the first so many of some derived words to them, from the last to the first.
/// They can be read forward only, so the second half of them comes first, and so on in each half.
fn put_many_together<L: Ledger>(
    entries: Entries<'_>,
    count: u32,
    first: usize,
    r: &mut [u64; 16],
    stack: &mut [u64],
    steps: &mut Steps<L>,
) -> bool
    ensures leaves { Leaves result
        (together (derived_from first (take count (entries_of entries.entry))) (r.old ++ stack.old))
        (r.new ++ stack.new) }
    ensures cost { steps.new ≤ steps.old + derived_listed (derived_from first (take count (entries_of entries.entry))) }
{
    if count == 0 {
        return true;
    }
    if count == 1 {
        return put_one_together(entries, first, r, stack, steps);
    }
    let half = count / 2;
    let later = behind(entries, half);
    if !put_many_together(later, count - half, first, r, stack, steps) {
        return false;
    }
    put_many_together(entries, half, first, r, stack, steps)
}

/// Adds the bases of a row's derived words to them, from the last to the first.
pub fn put_row_together<L: Ledger>(
    row: &Row<'_>,
    first: usize,
    r: &mut [u64; 16],
    stack: &mut [u64],
    steps: &mut Steps<L>,
) -> bool
    ensures leaves { Leaves result
        (together (derived_from first (derived_in row.now)) (r.old ++ stack.old))
        (r.new ++ stack.new) }
    ensures cost { steps.new ≤ steps.old + derived_listed (derived_from first (derived_in row.now)) }
{
    put_many_together(row.derivations(), count_of(row), first, r, stack, steps)
}
