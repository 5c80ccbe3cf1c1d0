use crate::arrays::{limit, subarray};
use crate::news::new_call;
use crate::references::{istype, narrow};
use m3_base::{NoMemory, Pos, rules};
use m3_check_arithmetic_calls::{abs, change, extreme, ord, val};
use m3_check_assigning::judge_all;
use m3_check_state::{Checker, Given, Thing};
use m3_core::Routine;
use m3_link_scopes::Predeclared;

/// A call of a predeclared routine. Its actuals have no names, and their number is right (rule
/// 55).
pub fn predeclared_call<'a>(
    checker: &mut Checker<'_, 'a>,
    pos: Pos,
    parenthesis: Pos,
    routine: Predeclared,
    actuals: &[Given<'a>],
) -> Result<Thing<'a>, NoMemory> {
    if routine == Predeclared::New {
        return new_call(checker, pos, parenthesis, actuals);
    }
    match (actuals, has_name(actuals)) {
        ([only], false) if takes_one(routine) => one(checker, pos, routine, only),
        ([first, second], false) if takes_two(routine) => {
            two(checker, pos, routine, first, second)
        }
        ([array, start, count], false) if routine == Predeclared::Subarray => {
            subarray(checker, pos, array, start, count)
        }
        _ => {
            judge_all(checker, actuals)?;
            Ok(checker.bad(parenthesis, rules::BAD_ACTUAL_LIST))
        }
    }
}

fn has_name(actuals: &[Given<'_>]) -> bool {
    for actual in actuals {
        if actual.name.is_some() {
            return true;
        }
    }
    false
}

fn takes_one(routine: Predeclared) -> bool {
    matches!(
        routine,
        Predeclared::Abs
            | Predeclared::First
            | Predeclared::Last
            | Predeclared::Number
            | Predeclared::Ord
            | Predeclared::Inc
            | Predeclared::Dec
    )
}

fn takes_two(routine: Predeclared) -> bool {
    matches!(
        routine,
        Predeclared::Inc
            | Predeclared::Dec
            | Predeclared::Istype
            | Predeclared::Max
            | Predeclared::Min
            | Predeclared::Narrow
            | Predeclared::Val
    )
}

fn one<'a>(
    checker: &mut Checker<'_, 'a>,
    pos: Pos,
    routine: Predeclared,
    only: &Given<'a>,
) -> Result<Thing<'a>, NoMemory> {
    match routine {
        Predeclared::Abs => abs(checker, pos, only),
        Predeclared::Ord => ord(checker, pos, only),
        Predeclared::Inc => change(checker, pos, false, only, None),
        Predeclared::Dec => change(checker, pos, true, only, None),
        _ => limit(checker, pos, routine, only),
    }
}

fn two<'a>(
    checker: &mut Checker<'_, 'a>,
    pos: Pos,
    routine: Predeclared,
    first: &Given<'a>,
    second: &Given<'a>,
) -> Result<Thing<'a>, NoMemory> {
    match routine {
        Predeclared::Max => extreme(checker, pos, Routine::Max, first, second),
        Predeclared::Min => extreme(checker, pos, Routine::Min, first, second),
        Predeclared::Val => val(checker, pos, first, second),
        Predeclared::Inc => change(checker, pos, false, first, Some(second)),
        Predeclared::Dec => change(checker, pos, true, first, Some(second)),
        Predeclared::Istype => istype(checker, pos, first, second),
        _ => narrow(checker, pos, first, second),
    }
}
