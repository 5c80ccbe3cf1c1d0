ghost use Rattle.std.specs.Prelude.{◌≡◌, ◌<◌, ◌≤◌, true, false};
ghost use Rattle.m3_heap.specs.CollectorTracing.{IsTracing};
ghost use Rattle.m3_generational.specs.Collecting.{left_of, kept_of, IsKeeping, Forwards};

use crate::spaces::Spaces;
use m3_heap::{Copying, Steps};
use std::sync::ledger::Ledger;

/// The first address of heaps: a word from here on is a reference or nothing.
const HEAP_BASE: u64 = 1 << 60;

/// Where the nursery begins.
const NURSERY_BASE: u64 = 1 << 62;

// An old cell in a minor collection stays where it is.
fn keep_tenured<L: Ledger>(spaces: &mut Spaces, word: u64, steps: &mut Steps<L>) -> Option<u64>
    requires tracing { IsTracing (left_of spaces.old) (kept_of spaces.old) }
    requires keeping { IsKeeping spaces.old }
    requires minor { spaces.old.is_minor ≡ true }
    requires high { 1152921504606846976 ≤ word }
    requires low { word < 4611686018427387904 }
    ensures { Forwards spaces.old spaces.new word result steps.old steps.new }
{
    let base = spaces.here.base();
    if word < base {
        return None;
    }
    if word - base >= spaces.tenured {
        return None;
    }
    match spaces.here.header(word) {
        Some(_) => Some(word),
        None => None,
    }
}

/// The new value of a word in the collection that is open: in a minor one an old cell stays and a
/// young one is copied behind the old ones, in a full one every cell is copied to the other half,
/// unless it was. None comes exactly where the word lies where heaps lie and is no cell's start.
pub fn forward_word<L: Ledger>(spaces: &mut Spaces, word: u64, steps: &mut Steps<L>) -> Option<u64>
    requires tracing { IsTracing (left_of spaces.old) (kept_of spaces.old) }
    requires keeping { IsKeeping spaces.old }
    ensures { Forwards spaces.old spaces.new word result steps.old steps.new }
{
    if word < HEAP_BASE {
        return Some(word);
    }
    match (spaces.is_minor, word < NURSERY_BASE) {
        (true, true) => keep_tenured(spaces, word, steps),
        (true, false) => spaces.nursery.move_cell(&mut spaces.here, word, steps),
        (false, true) => spaces.here.move_cell(&mut spaces.there, word, steps),
        (false, false) => spaces.nursery.move_cell(&mut spaces.there, word, steps),
    }
}
