ghost use Rattle.std.specs.Prelude.{◌≡◌, ◌↔◌, ◌<◌, ◌+◌, ◌^◌, IsTrue, All, sum_by, slice_get, Some};
ghost use Rattle.std.specs.Prelude.{IsSomeAnd};
ghost use Rattle.m3_mid_valid.specs.Calls.{words_of, IsActual, IsObject, FitsCallee, FitsResult};
ghost use Rattle.m3_mid_valid.specs.Calls.{FitsRaised, IsHeld, AreShown};

use crate::memory::{are_slots, has_slot_kind};
use crate::operands::{has_kind, is_plain, is_temp, is_tidy, is_word};
use m3_mid::{Actual, Callee, Held, Kind, Proc, Raised, Shown};

/// The words of the callee's frame that an actual becomes.
fn actual_words(actual: Actual) -> u32
    ensures { result ≡ words_of actual }
{
    match actual {
        Actual::Word(_) => 1,
        Actual::Slots { first: _, count } => count,
        Actual::Reference {
            address: _,
            base: _,
        } => 2,
    }
}

/// Whether actuals become so many words.
fn have_words(passed: &[Actual], words: u32) -> bool
    ensures { IsTrue result ↔ (sum_by words_of passed.now ≡ words) }
{
    let mut left = words;
    for actual in passed {
        match left.checked_sub(actual_words(*actual)) {
            Some(rest) => left = rest,
            None => return false,
        }
    }
    left == 0
}

/// Whether a procedure is there, and its formals have the words that actuals become.
fn fits_formals(formals: &[u32], procedure: u32, passed: &[Actual]) -> bool
    ensures { IsTrue result ↔ (slice_get formals.now procedure
        ≡ Some (sum_by words_of passed.now)) }
{
    match formals.get(procedure as usize) {
        Some(words) => have_words(passed, *words),
        None => false,
    }
}

/// Whether an actual is an object.
fn is_object(p: &Proc, actual: Actual) -> bool
    ensures { IsTrue result ↔ IsObject p.now actual }
{
    match actual {
        Actual::Word(object) => is_tidy(p.temps, object),
        Actual::Slots { first: _, count: _ }
        | Actual::Reference {
            address: _,
            base: _,
        } => false,
    }
}

fn is_object_first(p: &Proc, passed: &[Actual]) -> bool
    ensures { IsTrue result ↔ IsSomeAnd (slice_get passed.now 0) (IsObject p.now) }
{
    match passed.get(0) {
        Some(actual) => is_object(p, *actual),
        None => false,
    }
}

/// Whether what is called is there and gets what it takes.
pub(crate) fn fits_callee(p: &Proc, formals: &[u32], callee: Callee, passed: &[Actual]) -> bool
    ensures { IsTrue result ↔ FitsCallee p.now formals.now callee passed.now }
{
    match callee {
        Callee::Outermost(procedure) => fits_formals(formals, procedure, passed),
        Callee::Inner {
            procedure,
            environment,
        } => {
            has_kind(p.temps, environment, Kind::Number) && fits_formals(formals, procedure, passed)
        }
        Callee::Value { code, environment } => {
            has_kind(p.temps, code, Kind::Number) && has_kind(p.temps, environment, Kind::Number)
        }
        Callee::Method(_) => is_object_first(p, passed),
    }
}

fn is_actual(p: &Proc, actual: Actual) -> bool
    ensures { IsTrue result ↔ IsActual p.now actual }
{
    match actual {
        Actual::Word(operand) => is_word(p.temps, operand),
        Actual::Slots { first, count } => are_slots(p.slots, first, count),
        Actual::Reference { address, base } => is_temp(p.temps, address) && is_tidy(p.temps, base),
    }
}

/// Whether each actual of a row is one.
pub(crate) fn are_actuals(p: &Proc, passed: &[Actual]) -> bool
    ensures { IsTrue result ↔ All (IsActual p.now) passed.now }
{
    passed.iter().all(|actual| is_actual(p, *actual))
}

/// Whether a temporary may get the result of a call.
pub(crate) fn fits_result(p: &Proc, to: Option<u32>) -> bool
    ensures { IsTrue result ↔ FitsResult p.now to }
{
    match to {
        Some(to) => is_plain(p.temps, to),
        None => true,
    }
}

/// Whether an exception may travel in some temporaries.
pub(crate) fn fits_raised(p: &Proc, raised: Option<Raised>) -> bool
    ensures { IsTrue result ↔ FitsRaised p.now raised }
{
    match raised {
        Some(raised) => {
            has_kind(p.temps, raised.exception, Kind::Number)
                && (has_kind(p.temps, raised.number, Kind::Number)
                    && has_kind(p.temps, raised.tidy, Kind::Tidy))
        }
        None => true,
    }
}

fn is_held(p: &Proc, held: Held) -> bool
    ensures { IsTrue result ↔ IsHeld p.now held }
{
    match held {
        Held::Temp(temp) => is_plain(p.temps, temp),
        Held::Slot(slot) => {
            has_slot_kind(p.slots, slot as usize, Kind::Number)
                || has_slot_kind(p.slots, slot as usize, Kind::Tidy)
        }
    }
}

/// Whether each variable of a row can be shown.
pub(crate) fn are_shown(p: &Proc, shown: &[Shown]) -> bool
    ensures { IsTrue result ↔ AreShown p.now shown.now }
{
    shown.iter().all(|one| is_held(p, one.at))
}
