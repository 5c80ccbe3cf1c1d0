use crate::actuals::checked_actuals;
use crate::matching::matched;
use bumpalo::collections::into_bump_slice;
use m3_base::{NoMemory, Pos, rules};
use m3_check_arithmetic_calls::built;
use m3_check_assigning::judge_all;
use m3_check_state::{Checker, Given, Thing};
use m3_check_types::result_type;
use m3_core::{Actual, BuiltinCall, CoreExpr, Routine};
use m3_link_scopes::EntityId;
use m3_types::TypeId;

const ROUTINES: [(&[u8], &[u8], Routine); 39] = [
    (b"IO", b"Put", Routine::Put),
    (b"IO", b"PutInt", Routine::PutInt),
    (b"IO", b"PutChar", Routine::PutChar),
    (b"IO", b"GetChar", Routine::GetChar),
    (b"IO", b"EOF", Routine::EndOfInput),
    (b"Text", b"Cat", Routine::TextCat),
    (b"Text", b"Equal", Routine::TextEqual),
    (b"Text", b"GetChar", Routine::TextGetChar),
    (b"Text", b"Length", Routine::TextLength),
    (b"Text", b"Empty", Routine::TextEmpty),
    (b"Text", b"Sub", Routine::TextSub),
    (b"Text", b"FromChar", Routine::TextFromChar),
    (b"Word", b"Plus", Routine::WordPlus),
    (b"Word", b"Times", Routine::WordTimes),
    (b"Word", b"Minus", Routine::WordMinus),
    (b"Word", b"Divide", Routine::WordDivide),
    (b"Word", b"Mod", Routine::WordMod),
    (b"Word", b"LT", Routine::WordLess),
    (b"Word", b"LE", Routine::WordLessEqual),
    (b"Word", b"GT", Routine::WordGreater),
    (b"Word", b"GE", Routine::WordGreaterEqual),
    (b"Word", b"And", Routine::WordAnd),
    (b"Word", b"Or", Routine::WordOr),
    (b"Word", b"Xor", Routine::WordXor),
    (b"Word", b"Not", Routine::WordNot),
    (b"Word", b"Shift", Routine::WordShift),
    (b"Word", b"Rotate", Routine::WordRotate),
    (b"Thread", b"Fork", Routine::Fork),
    (b"Thread", b"Join", Routine::Join),
    (b"Thread", b"Wait", Routine::Wait),
    (b"Thread", b"Acquire", Routine::Acquire),
    (b"Thread", b"Release", Routine::Release),
    (b"Thread", b"Signal", Routine::Signal),
    (b"Thread", b"Broadcast", Routine::Broadcast),
    (b"Thread", b"Self", Routine::MySelf),
    (b"Thread", b"Alert", Routine::Alert),
    (b"Thread", b"TestAlert", Routine::TestAlert),
    (b"Thread", b"AlertWait", Routine::AlertWait),
    (b"Thread", b"AlertJoin", Routine::AlertJoin),
];

/// The routine of this name in a built-in interface.
fn routine_named(unit: &[u8], name: &[u8]) -> Option<Routine> {
    for (interface, routine, found) in ROUTINES {
        if interface == unit && routine == name {
            return Some(found);
        }
    }
    None
}

/// A call of a routine of a built-in interface (rule 55).
pub fn built_in_call<'a>(
    checker: &mut Checker<'_, 'a>,
    pos: Pos,
    parenthesis: Pos,
    id: EntityId,
    actuals: &[Given<'a>],
) -> Result<Thing<'a>, NoMemory> {
    let (Some(signature), Some(routine)) = (checker.declared.kind_of(id), routine_of(checker, id))
    else {
        judge_all(checker, actuals)?;
        return Ok(Thing::Bad);
    };
    let Some(order) = matched(checker, signature, actuals)? else {
        judge_all(checker, actuals)?;
        return Ok(checker.bad(parenthesis, rules::BAD_ACTUAL_LIST));
    };
    match checked_actuals(checker, parenthesis, signature, actuals, order)? {
        Some(row) => {
            let kind = result_type(checker, signature);
            in_order(checker, pos, routine, row, kind)
        }
        None => Ok(Thing::Bad),
    }
}

fn routine_of(checker: &Checker<'_, '_>, id: EntityId) -> Option<Routine> {
    let entity = checker.program.binds.entity(id)?;
    let info = checker.program.infos.get(entity.unit as usize)?;
    routine_named(info.name.text, entity.name)
}

/// The call with its actuals in the order of the formals.
fn in_order<'a>(
    checker: &mut Checker<'_, 'a>,
    pos: Pos,
    routine: Routine,
    row: &'a [Actual<'a>],
    kind: Option<TypeId>,
) -> Result<Thing<'a>, NoMemory> {
    let nil = CoreExpr::Nil {
        pos,
        kind: checker.declared.basic.null,
    };
    let mut actuals = vec![in checker.arena; nil; row.len()]?;
    let mut order = Vec::new(checker.arena);
    for actual in row {
        if let Actual::Value { formal, value, .. } = actual {
            order.push(*formal)?;
            if let Some(place) = actuals.get_mut(*formal as usize) {
                *place = **value;
            }
        }
    }
    let call = BuiltinCall {
        pos,
        routine,
        actuals: into_bump_slice(actuals),
        order: into_bump_slice(order),
        kind,
    };
    built(checker, call)
}
