use crate::chains::value_of;
use m3_base::{NoMemory, Pos, rules};
use m3_check_state::{Checker, Given, Thing, Valued};
use m3_check_types::{assignability, fits, is_array, is_ordinal, is_procedure};
use m3_core::{Conversion, CoreExpr};
use m3_types::TypeId;
use m3_types_subtype::Assign;

/// A value as one of a type that it is assignable to, with the check that this needs.
pub fn converted<'a>(
    checker: &Checker<'_, 'a>,
    value: &Valued<'a>,
    to: TypeId,
) -> Result<Valued<'a>, NoMemory> {
    if matches!(assignability(checker, value.kind, to)?, Assign::Yes) {
        return nil_as(checker, value, to);
    }
    let check = if is_ordinal(checker, to) {
        Conversion::Range
    } else if is_array(checker, to) {
        Conversion::Shape
    } else {
        Conversion::Narrow
    };
    with_check(checker, value.core().pos(), value, to, check)
}

/// A value, which is NIL of a type where it is NIL.
pub fn nil_as<'a>(
    checker: &Checker<'_, 'a>,
    value: &Valued<'a>,
    to: TypeId,
) -> Result<Valued<'a>, NoMemory> {
    match value.core() {
        CoreExpr::Nil { pos, .. } => {
            let nil = CoreExpr::Nil {
                pos: *pos,
                kind: to,
            };
            Ok(Valued {
                kept: checker.box_up(nil)?,
                kind: to,
                may_be_inner: false,
            })
        }
        _ => Ok(*value),
    }
}

/// A value with a check that faults at a place.
pub fn with_check<'a>(
    checker: &Checker<'_, 'a>,
    pos: Pos,
    value: &Valued<'a>,
    to: TypeId,
    check: Conversion,
) -> Result<Valued<'a>, NoMemory> {
    let expr = CoreExpr::Convert {
        pos,
        kind: to,
        check,
        operand: value.core(),
    };
    Ok(Valued {
        kept: checker.box_up(expr)?,
        kind: to,
        may_be_inner: false,
    })
}

/// What is assigned, returned, or given to an element, a field or a declared variable, as a value
/// of the type: assignable to it (rule 51), and no procedure inside another (rule 67).
pub fn assigned<'a>(
    checker: &mut Checker<'_, 'a>,
    given: &Given<'a>,
    to: TypeId,
) -> Result<Option<Valued<'a>>, NoMemory> {
    if let Some(pos) = given.inner {
        checker.note(pos, rules::NESTED_PROCEDURE_ASSIGNED);
    }
    let Some(value) = value_of(checker, given.pos, &given.thing)? else {
        return Ok(None);
    };
    if !fits(checker, value.kind, to)? {
        checker.note(given.pos, rules::NOT_ASSIGNABLE);
        return Ok(None);
    }
    if value.may_be_inner && is_procedure(checker, value.kind) {
        let kind = value.kind;
        return Ok(Some(with_check(
            checker,
            value.core().pos(),
            &value,
            kind,
            Conversion::Nested,
        )?));
    }
    Ok(Some(converted(checker, &value, to)?))
}

/// What is given, as a value of any type.
pub fn value_given<'a>(
    checker: &mut Checker<'_, 'a>,
    given: &Given<'a>,
) -> Result<Option<Valued<'a>>, NoMemory> {
    value_of(checker, given.pos, &given.thing)
}

/// Judges what is given to nothing: a type is allowed.
pub fn judge_given<'a>(checker: &mut Checker<'_, 'a>, given: &Given<'a>) -> Result<(), NoMemory> {
    match given.thing {
        Thing::Type(_) => {}
        _ => {
            value_given(checker, given)?;
        }
    }
    Ok(())
}

/// Judges each of what is given to nothing.
pub fn judge_all<'a>(checker: &mut Checker<'_, 'a>, row: &[Given<'a>]) -> Result<(), NoMemory> {
    for given in row {
        judge_given(checker, given)?;
    }
    Ok(())
}
