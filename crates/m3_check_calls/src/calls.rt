use crate::actuals::checked_actuals;
use crate::built_in::built_in_call;
use crate::matching::matched;
use m3_base::{NoMemory, Pos, rules};
use m3_check_assigning::{chain_from, chain_thing, judge_all, read_chain, with_step};
use m3_check_predeclared_calls::predeclared_call;
use m3_check_state::{Checker, Draft, Given, Method, State, Thing};
use m3_check_types::{is_procedure, result_type};
use m3_core::{Actual, Step};
use m3_types::TypeId;

/// A call of what a chain gives so far: `pos` is the chain's first token, where what can't be
/// called is refused (rule 56), and `parenthesis` where the actuals begin.
pub fn call<'a>(
    checker: &mut Checker<'_, 'a>,
    pos: Pos,
    parenthesis: Pos,
    thing: &Thing<'a>,
    actuals: &[Given<'a>],
) -> Result<Thing<'a>, NoMemory> {
    match thing {
        Thing::Predeclared(routine) => {
            predeclared_call(checker, pos, parenthesis, *routine, actuals)
        }
        Thing::Routine(routine) => built_in_call(checker, pos, parenthesis, *routine, actuals),
        Thing::Method(method) => method_call(checker, parenthesis, method, actuals),
        Thing::Value(value) if is_procedure(checker, value.kind) => {
            let callee = chain_from(checker, pos, value)?;
            procedure_call(checker, parenthesis, &callee, actuals)
        }
        Thing::Chain(draft) if is_procedure(checker, draft.kind) => {
            procedure_call(checker, parenthesis, draft, actuals)
        }
        other => no_call(checker, pos, other, actuals),
    }
}

/// What can't be called; its actuals are judged all the same.
fn no_call<'a>(
    checker: &mut Checker<'_, 'a>,
    pos: Pos,
    thing: &Thing<'a>,
    actuals: &[Given<'a>],
) -> Result<Thing<'a>, NoMemory> {
    judge_all(checker, actuals)?;
    match thing {
        Thing::Bad => Ok(Thing::Bad),
        _ => Ok(checker.bad(pos, rules::NOT_CALLABLE)),
    }
}

fn procedure_call<'a>(
    checker: &mut Checker<'_, 'a>,
    parenthesis: Pos,
    callee: &Draft<'a>,
    actuals: &[Given<'a>],
) -> Result<Thing<'a>, NoMemory> {
    let signature = callee.kind;
    let Some(actuals) = actuals_of(checker, parenthesis, signature, actuals)? else {
        return Ok(Thing::Bad);
    };
    let kind = result_type(checker, signature);
    let callee = read_chain(checker, callee)?;
    called(checker, &callee, Step::Call { actuals, kind }, kind)
}

fn method_call<'a>(
    checker: &mut Checker<'_, 'a>,
    parenthesis: Pos,
    method: &Method<'a>,
    actuals: &[Given<'a>],
) -> Result<Thing<'a>, NoMemory> {
    let Some(actuals) = actuals_of(checker, parenthesis, method.signature, actuals)? else {
        return Ok(Thing::Bad);
    };
    let kind = result_type(checker, method.signature);
    let step = Step::MethodCall {
        owner: method.owner,
        method: method.place,
        actuals,
        kind,
    };
    called(checker, &method.object, step, kind)
}

/// A chain with a call behind it: a value, or nothing where the call has no result.
fn called<'a>(
    checker: &mut Checker<'_, 'a>,
    draft: &Draft<'a>,
    step: Step<'a>,
    kind: Option<TypeId>,
) -> Result<Thing<'a>, NoMemory> {
    let shown = kind.unwrap_or(draft.kind);
    let draft = with_step(checker, draft, step, shown, State::Value)?;
    match kind {
        Some(_) => Ok(chain_thing(checker, draft)),
        None => Ok(Thing::Call(draft)),
    }
}

/// The checked actuals of a call; none where something was refused. Which formal each is for is
/// judged first (rule 55).
fn actuals_of<'a>(
    checker: &mut Checker<'_, 'a>,
    parenthesis: Pos,
    signature: TypeId,
    actuals: &[Given<'a>],
) -> Result<Option<&'a [Actual<'a>]>, NoMemory> {
    match matched(checker, signature, actuals)? {
        Some(order) => checked_actuals(checker, parenthesis, signature, actuals, order),
        None => {
            checker.note(parenthesis, rules::BAD_ACTUAL_LIST);
            judge_all(checker, actuals)?;
            Ok(None)
        }
    }
}
