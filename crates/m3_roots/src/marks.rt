//! Marks of what is known of the words of a thread: which of them the rows list, and which they may
//! not.
ghost use Rattle.std.specs.Prelude.{◌≡◌, ◌<◌, ◌≤◌, ◌∷◌, [], ℕ, length, Some};
ghost use Rattle.std.specs.List.{slice_get};
ghost use Rattle.m3_roots.specs.ThreadWords.{place_from};
ghost use Rattle.m3_roots.specs.Marking.{Lists, Derives, Bars, Uses, MarksAll, mark_of};
ghost use Rattle.m3_roots.specs.Marking.{nothing_marked};

use crate::places::place_before;

/// What is known of a word: a row lists it, a row lists it as derived, or no row may list it.
#[derive(Clone, Copy)]
pub(crate) struct Mark {
    pub(crate) listed: bool,
    pub(crate) derived: bool,
    pub(crate) barred: bool,
}

/// Nothing is known.
pub(crate) const BLANK: Mark = Mark {
    listed: false,
    derived: false,
    barred: false,
};

/// Clears the marks before an end.
pub(crate) fn clear(marks: &mut [Mark], end: usize)
    requires { end ≤ length marks.old }
    ensures cleared { (q : ℕ) → q < end → slice_get marks.new q ≡ Some (mark_of nothing_marked q) }
    ensures length { length marks.new ≡ length marks.old }
{
    for place in 0..end {
        marks[place] = BLANK;
    }
}

/// Marks a word as listed. False comes exactly where it is listed already, or may not be.
pub(crate) fn list(marks: &mut [Mark], first: usize, number: u32) -> bool
    ensures { MarksAll marks.old marks.new (Lists (place_from first number) ∷ []) result }
{
    let Some(place) = place_before(marks.len(), first, number) else {
        return true;
    };
    let old = marks[place];
    marks[place] = Mark {
        listed: true,
        ..old
    };
    !old.listed && !old.barred
}

/// Marks a word as derived. False comes exactly where it is listed already, or may not be.
pub(crate) fn derive(marks: &mut [Mark], first: usize, number: u32) -> bool
    ensures { MarksAll marks.old marks.new (Derives (place_from first number) ∷ []) result }
{
    let Some(place) = place_before(marks.len(), first, number) else {
        return true;
    };
    let old = marks[place];
    marks[place] = Mark {
        listed: true,
        derived: true,
        ..old
    };
    !old.listed && !old.barred
}

/// Marks a word as one that no row may list. False comes exactly where it is listed already.
pub(crate) fn bar(marks: &mut [Mark], first: usize, number: u32) -> bool
    ensures { MarksAll marks.old marks.new (Bars (place_from first number) ∷ []) result }
{
    let Some(place) = place_before(marks.len(), first, number) else {
        return true;
    };
    let old = marks[place];
    marks[place] = Mark {
        barred: true,
        ..old
    };
    !old.listed
}

/// Whether a word is no derived one.
pub(crate) fn is_plain(marks: &[Mark], first: usize, number: u32) -> bool
    ensures { MarksAll marks.now marks.now (Uses (place_from first number) ∷ []) result }
{
    match place_before(marks.len(), first, number) {
        Some(place) => !marks[place].derived,
        None => true,
    }
}
