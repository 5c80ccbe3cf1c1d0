use bumpalo::Bump;
use bumpalo::collections::into_bump_slice;
use m3_base::{NoMemory, Pos, rules};
use m3_check_assigning::{converted, finished, is_writable, value_given};
use m3_check_state::{Checker, Draft, Given, Thing};
use m3_check_types::{are_same, fits, formals_of, is_array, is_subtype};
use m3_core::Actual;
use m3_types::{Formal, Mode, TypeId};

/// The checked actuals of a call in the order in which they are written, and behind them the
/// defaults, by the formal of each; none where something was refused.
pub fn checked_actuals<'a>(
    checker: &mut Checker<'_, 'a>,
    parenthesis: Pos,
    signature: TypeId,
    actuals: &[Given<'a>],
    order: &[u32],
) -> Result<Option<&'a [Actual<'a>]>, NoMemory> {
    let mut row = Vec::new(checker.arena);
    let mut is_good = true;
    for (place, formal) in order.iter().enumerate() {
        let added = add_actual(
            checker,
            &mut row,
            parenthesis,
            signature,
            *formal,
            actuals.get(place),
        )?;
        is_good = is_good && added;
    }
    if is_good {
        Ok(Some(into_bump_slice(row)))
    } else {
        Ok(None)
    }
}

/// Adds the actual of a formal, or its default where there is none; false where it was refused.
fn add_actual<'a>(
    checker: &mut Checker<'_, 'a>,
    row: &mut Vec<Actual<'a>, &'a Bump>,
    parenthesis: Pos,
    signature: TypeId,
    place: u32,
    given: Option<&Given<'a>>,
) -> Result<bool, NoMemory> {
    let Some(formal) = formals_of(checker, signature).get(place as usize) else {
        return Ok(false);
    };
    let checked = match given {
        Some(given) => actual(checker, given, place, formal)?,
        None => default_actual(checker, parenthesis, place, formal)?,
    };
    match checked {
        Some(checked) => {
            row.push(checked)?;
            Ok(true)
        }
        None => Ok(false),
    }
}

fn default_actual<'a>(
    checker: &Checker<'_, 'a>,
    parenthesis: Pos,
    place: u32,
    formal: &Formal<'a>,
) -> Result<Option<Actual<'a>>, NoMemory> {
    match formal.default {
        Some(default) => Ok(Some(Actual::Value {
            formal: place,
            kind: formal.kind,
            value: checker.default_of(parenthesis, formal.kind, default.source)?,
        })),
        None => Ok(None),
    }
}

/// An actual for a formal: a place for VAR, and for READONLY where it is a designator that fits;
/// else a value.
fn actual<'a>(
    checker: &mut Checker<'_, 'a>,
    given: &Given<'a>,
    place: u32,
    formal: &Formal<'a>,
) -> Result<Option<Actual<'a>>, NoMemory> {
    match (formal.mode, given.thing) {
        (Mode::Var, _) => by_var(checker, given, place, formal),
        (Mode::Readonly, Thing::Chain(draft)) if draft.state.is_designator() => {
            if fits_place(checker, draft.kind, formal.kind)? {
                by_place(checker, &draft, place, formal)
            } else {
                by_value(checker, given, place, formal)
            }
        }
        _ => by_value(checker, given, place, formal),
    }
}

/// Whether a place of one type may be passed for a formal of another: it is the same, or an array
/// that is assignable to it.
fn fits_place(checker: &Checker<'_, '_>, kind: TypeId, formal: TypeId) -> Result<bool, NoMemory> {
    if checker.is_refused(formal) || are_same(checker, kind, formal)? {
        return Ok(true);
    }
    Ok(is_array(checker, formal) && fits(checker, kind, formal)?)
}

fn by_place<'a>(
    checker: &mut Checker<'_, 'a>,
    draft: &Draft<'a>,
    place: u32,
    formal: &Formal<'a>,
) -> Result<Option<Actual<'a>>, NoMemory> {
    let checks_shape = is_array(checker, formal.kind)
        && !is_subtype(checker, draft.kind, formal.kind)?;
    Ok(Some(Actual::Place {
        formal: place,
        kind: formal.kind,
        place: finished(checker, draft, Some(draft.kind))?,
        checks_shape,
    }))
}

/// An actual by VAR: a writable designator (rules 52 and 53) of the formal's type (rule 54).
fn by_var<'a>(
    checker: &mut Checker<'_, 'a>,
    given: &Given<'a>,
    place: u32,
    formal: &Formal<'a>,
) -> Result<Option<Actual<'a>>, NoMemory> {
    if !is_writable(checker, given.pos, &given.thing) {
        return Ok(None);
    }
    let Thing::Chain(draft) = given.thing else {
        return Ok(None);
    };
    if fits_place(checker, draft.kind, formal.kind)? {
        return by_place(checker, &draft, place, formal);
    }
    checker.note(given.pos, rules::WRONG_TYPE_FOR_VAR);
    Ok(None)
}

fn by_value<'a>(
    checker: &mut Checker<'_, 'a>,
    given: &Given<'a>,
    place: u32,
    formal: &Formal<'a>,
) -> Result<Option<Actual<'a>>, NoMemory> {
    let Some(value) = value_given(checker, given)? else {
        return Ok(None);
    };
    if !fits(checker, value.kind, formal.kind)? {
        checker.note(given.pos, rules::NOT_ASSIGNABLE);
        return Ok(None);
    }
    Ok(Some(Actual::Value {
        formal: place,
        kind: formal.kind,
        value: converted(checker, &value, formal.kind)?.core(),
    }))
}
