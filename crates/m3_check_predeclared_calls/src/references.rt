use m3_base::{NoMemory, Pos, rules};
use m3_check_arithmetic_calls::type_given;
use m3_check_assigning::{value_given, with_check};
use m3_check_state::{Checker, Given, Thing, Valued};
use m3_check_types::{fits, is_reference};
use m3_core::{Conversion, CoreExpr};
use m3_types::TypeId;

/// The value and the type of ISTYPE and NARROW: references that are related (rule 64).
fn related<'a>(
    checker: &mut Checker<'_, 'a>,
    first: &Given<'a>,
    second: &Given<'a>,
) -> Result<Option<(Valued<'a>, TypeId)>, NoMemory> {
    let value = value_given(checker, first)?;
    let kind = type_given(checker, second);
    let (Some(value), Some(kind)) = (value, kind) else {
        return Ok(None);
    };
    let are_references = is_reference(checker, value.kind) && is_reference(checker, kind);
    if !are_references || !fits(checker, value.kind, kind)? {
        checker.note(second.pos, rules::TYPES_NOT_RELATED);
        return Ok(None);
    }
    Ok(Some((value, kind)))
}

/// ISTYPE of a reference and a related type (rule 64).
pub fn istype<'a>(
    checker: &mut Checker<'_, 'a>,
    pos: Pos,
    first: &Given<'a>,
    second: &Given<'a>,
) -> Result<Thing<'a>, NoMemory> {
    let Some((value, tested)) = related(checker, first, second)? else {
        return Ok(Thing::Bad);
    };
    let kind = checker.declared.basic.boolean;
    let expr = CoreExpr::TypeTest {
        pos,
        kind,
        operand: value.core(),
        tested,
    };
    checker.value(expr, kind)
}

/// NARROW of a reference to a related type (rule 64).
pub fn narrow<'a>(
    checker: &mut Checker<'_, 'a>,
    pos: Pos,
    first: &Given<'a>,
    second: &Given<'a>,
) -> Result<Thing<'a>, NoMemory> {
    let Some((value, kind)) = related(checker, first, second)? else {
        return Ok(Thing::Bad);
    };
    Ok(Thing::Value(with_check(checker, pos, &value, kind, Conversion::Narrow)?))
}
