use crate::chains::judge_place;
use crate::expressions::judge_expression;
use crate::judge::{Judge, mark};
use crate::tables::Form;
use m3_base::NoMemory;
use m3_core::{Actual, BuiltinCall, Routine};
use m3_types::TypeId;
use std::alloc::Global;

/// Judges the actuals of a call of a procedure or method.
#[cycle(expressions)]
pub fn judge_actuals<'a>(judge: &mut Judge<'_>, actuals: &[Actual<'a>]) {
    for actual in actuals {
        match actual {
            Actual::Value { value, .. } => judge_expression(judge, value),
            Actual::Place { place, .. } => judge_place(judge, place),
        }
    }
}

/// What is called is a procedure type, each formal has one actual, and a result is given where it
/// has one.
pub fn expect_called(
    judge: &mut Judge<'_>,
    signature: Option<TypeId>,
    actuals: &[Actual<'_>],
    given: Option<TypeId>,
) {
    judge.expect_optional(given);
    for actual in actuals {
        let (Actual::Value { kind, .. } | Actual::Place { kind, .. }) = actual;
        judge.expect_type(*kind);
    }
    match form_of_called(judge, signature) {
        Form::Procedure {
            formals,
            has_result,
        } => {
            judge.expect(given.is_some() == has_result);
            judge.expect(actuals.len() == formals);
            judge.expect_told(are_each_once(judge.alloc, actuals, formals));
        }
        _ => judge.expect(false),
    }
}

/// The form of what is called.
fn form_of_called(judge: &Judge<'_>, signature: Option<TypeId>) -> Form {
    match signature {
        Some(signature) => judge.form(signature),
        None => Form::NoType,
    }
}

/// Whether the formals are among so many, each at most once.
fn are_each_once(alloc: Global, actuals: &[Actual<'_>], count: usize) -> Result<bool, NoMemory> {
    let mut marks = vec![in alloc; false; count]?;
    for actual in actuals {
        let (Actual::Value { formal, .. } | Actual::Place { formal, .. }) = actual;
        if !mark(&mut marks, *formal) {
            return Ok(false);
        }
    }
    Ok(true)
}

/// The call of a routine has an actual for each formal, and a result where the routine has one.
pub fn expect_builtin(judge: &mut Judge<'_>, call: &BuiltinCall<'_>) {
    let count = call.actuals.len();
    judge.expect(count == formal_count(call.routine));
    judge.expect(call.kind.is_some() == gives_result(call.routine));
    judge.expect_optional(call.kind);
    judge.expect(call.order.len() == count);
    judge.expect_told(is_order(judge.alloc, call.order, count));
}

/// Whether the places are among so many, each at most once.
fn is_order(alloc: Global, places: &[u32], count: usize) -> Result<bool, NoMemory> {
    let mut marks = vec![in alloc; false; count]?;
    for place in places {
        if !mark(&mut marks, *place) {
            return Ok(false);
        }
    }
    Ok(true)
}

/// How many formals a routine has.
fn formal_count(routine: Routine) -> usize {
    match routine {
        Routine::GetChar | Routine::EndOfInput | Routine::MySelf | Routine::TestAlert => 0,
        Routine::Put
        | Routine::PutInt
        | Routine::PutChar
        | Routine::TextLength
        | Routine::TextEmpty
        | Routine::TextFromChar
        | Routine::WordNot
        | Routine::Fork
        | Routine::Join
        | Routine::Acquire
        | Routine::Release
        | Routine::Signal
        | Routine::Broadcast
        | Routine::Alert
        | Routine::AlertJoin
        | Routine::Ord => 1,
        Routine::TextCat
        | Routine::TextEqual
        | Routine::TextGetChar
        | Routine::WordPlus
        | Routine::WordTimes
        | Routine::WordMinus
        | Routine::WordDivide
        | Routine::WordMod
        | Routine::WordLess
        | Routine::WordLessEqual
        | Routine::WordGreater
        | Routine::WordGreaterEqual
        | Routine::WordAnd
        | Routine::WordOr
        | Routine::WordXor
        | Routine::WordShift
        | Routine::WordRotate
        | Routine::Wait
        | Routine::AlertWait
        | Routine::Min
        | Routine::Max => 2,
        Routine::TextSub => 3,
        Routine::Val => 1,
    }
}

/// Whether a routine gives a result.
fn gives_result(routine: Routine) -> bool {
    !matches!(
        routine,
        Routine::Put
            | Routine::PutInt
            | Routine::PutChar
            | Routine::Wait
            | Routine::Acquire
            | Routine::Release
            | Routine::Signal
            | Routine::Broadcast
            | Routine::Alert
            | Routine::AlertWait
    )
}
