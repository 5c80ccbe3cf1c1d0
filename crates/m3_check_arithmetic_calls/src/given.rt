use m3_base::{NoMemory, rules};
use m3_check_state::{Checker, Given, Thing, Valued};
use m3_check_types::{is_integer, is_ordinal};
use m3_core::{BuiltinCall, CoreExpr};
use m3_types::TypeId;

/// A call of a routine as an operand.
pub fn built<'a>(checker: &Checker<'_, 'a>, call: BuiltinCall<'a>) -> Result<Thing<'a>, NoMemory> {
    let kept = checker.box_up(call)?;
    match call.kind {
        Some(kind) => checker.value(CoreExpr::Builtin(&**kept), kind),
        None => Ok(Thing::Builtin(kept)),
    }
}

/// The type that an actual names (rule 60).
pub fn type_given<'a>(checker: &mut Checker<'_, 'a>, given: &Given<'a>) -> Option<TypeId> {
    match given.thing {
        Thing::Type(kind) => Some(kind),
        Thing::Bad => None,
        _ => {
            checker.note(given.pos, rules::TYPE_EXPECTED);
            None
        }
    }
}

/// A value that is an integer (rule 68).
pub fn integer_given<'a>(
    checker: &mut Checker<'_, 'a>,
    given: &Given<'a>,
    value: Option<Valued<'a>>,
) -> Option<Valued<'a>> {
    let value = value?;
    if is_integer(checker, value.kind) {
        Some(value)
    } else {
        checker.note(given.pos, rules::BAD_BUILT_IN_ARGUMENT);
        None
    }
}

/// A value of an ordinal type (rule 68).
pub fn ordinal_given<'a>(
    checker: &mut Checker<'_, 'a>,
    given: &Given<'a>,
    value: Option<Valued<'a>>,
) -> Option<Valued<'a>> {
    let value = value?;
    if is_ordinal(checker, value.kind) {
        Some(value)
    } else {
        checker.note(given.pos, rules::BAD_BUILT_IN_ARGUMENT);
        None
    }
}
