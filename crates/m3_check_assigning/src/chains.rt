use bumpalo::collections::into_bump_slice;
use m3_base::{NoMemory, Pos, rules};
use m3_check_state::{Checker, Draft, State, Thing, Valued};
use m3_core::{Base, Chain, CoreExpr, Step};
use m3_types::TypeId;

/// A chain that begins here.
pub fn new_chain<'a>(
    checker: &Checker<'_, 'a>,
    pos: Pos,
    base: Base<'a>,
    kind: TypeId,
    state: State,
) -> Result<Draft<'a>, NoMemory> {
    let here = checker.steps.len();
    Ok(Draft {
        pos,
        base: checker.box_up(base)?,
        start: here,
        end: here,
        state,
        kind,
        may_be_inner: false,
    })
}

/// One more step of a chain. What was made behind it is done with.
pub fn with_step<'a>(
    checker: &mut Checker<'_, 'a>,
    draft: &Draft<'a>,
    step: Step<'a>,
    kind: TypeId,
    state: State,
) -> Result<Draft<'a>, NoMemory> {
    checker.steps.truncate(draft.end);
    checker.steps.push(step)?;
    Ok(Draft {
        end: checker.steps.len(),
        kind,
        state,
        may_be_inner: false,
        ..*draft
    })
}

/// The finished chain. Its steps stay in the checker's list, since a chain that was begun
/// meanwhile has its own behind them.
pub fn finished<'a>(
    checker: &mut Checker<'_, 'a>,
    draft: &Draft<'a>,
    kind: Option<TypeId>,
) -> Result<&'a Chain<'a>, NoMemory> {
    finished_with(checker, draft, None, kind)
}

/// The finished chain, with one more step where one is given.
fn finished_with<'a>(
    checker: &mut Checker<'_, 'a>,
    draft: &Draft<'a>,
    last: Option<Step<'a>>,
    kind: Option<TypeId>,
) -> Result<&'a Chain<'a>, NoMemory> {
    let steps = steps_of(checker, draft, last)?;
    let chain = checker.arena.try_alloc(Chain {
        pos: draft.pos,
        base: **draft.base,
        steps,
        kind,
    })?;
    Ok(&*chain)
}

fn steps_of<'a>(
    checker: &Checker<'_, 'a>,
    draft: &Draft<'a>,
    last: Option<Step<'a>>,
) -> Result<&'a [Step<'a>], NoMemory> {
    let mut steps = Vec::new(checker.arena);
    for place in draft.start..draft.end {
        if let Some(step) = checker.steps.get(place) {
            steps.push(*step)?;
        }
    }
    if let Some(step) = last {
        steps.push(step)?;
    }
    Ok(into_bump_slice(steps))
}

/// A chain that gives a value: a place is read.
pub fn read_chain<'a>(
    checker: &mut Checker<'_, 'a>,
    draft: &Draft<'a>,
) -> Result<Draft<'a>, NoMemory> {
    match draft.state {
        State::Value => Ok(*draft),
        State::Place { .. } => {
            let kind = draft.kind;
            let read = with_step(checker, draft, Step::Read { kind }, kind, State::Value)?;
            Ok(Draft {
                may_be_inner: draft.may_be_inner,
                ..read
            })
        }
    }
}

/// The value that a chain gives.
fn value_of_chain<'a>(
    checker: &mut Checker<'_, 'a>,
    draft: &Draft<'a>,
) -> Result<Valued<'a>, NoMemory> {
    let kind = draft.kind;
    let last = match draft.state {
        State::Value => None,
        State::Place { .. } => Some(Step::Read { kind }),
    };
    let chain = finished_with(checker, draft, last, Some(kind))?;
    Ok(Valued {
        kept: checker.box_up(CoreExpr::Chain(chain))?,
        kind,
        may_be_inner: draft.may_be_inner,
    })
}

/// A chain that gives a place: a value stands in a new variable.
pub fn placed_chain<'a>(
    checker: &mut Checker<'_, 'a>,
    draft: &Draft<'a>,
) -> Result<Draft<'a>, NoMemory> {
    match draft.state {
        State::Place { .. } => Ok(*draft),
        State::Value => {
            let kind = draft.kind;
            let state = State::Place {
                is_writable: false,
                is_designator: false,
            };
            with_step(checker, draft, Step::Keep { kind }, kind, state)
        }
    }
}

/// The finished chain of a place: a value stands in a new variable.
pub fn finished_place<'a>(
    checker: &mut Checker<'_, 'a>,
    draft: &Draft<'a>,
) -> Result<&'a Chain<'a>, NoMemory> {
    let kind = draft.kind;
    let last = match draft.state {
        State::Value => Some(Step::Keep { kind }),
        State::Place { .. } => None,
    };
    finished_with(checker, draft, last, Some(kind))
}

/// A value as the beginning of a chain.
pub fn chain_from<'a>(
    checker: &Checker<'_, 'a>,
    pos: Pos,
    value: &Valued<'a>,
) -> Result<Draft<'a>, NoMemory> {
    let draft = new_chain(
        checker,
        pos,
        Base::Value(value.core()),
        value.kind,
        State::Value,
    )?;
    Ok(Draft {
        may_be_inner: value.may_be_inner,
        ..draft
    })
}

/// What a chain gives; nothing where its type was refused.
pub fn chain_thing<'a>(checker: &Checker<'_, 'a>, draft: Draft<'a>) -> Thing<'a> {
    if checker.is_refused(draft.kind) {
        Thing::Bad
    } else {
        Thing::Chain(draft)
    }
}

/// What an operand is as a value; what is no value is refused at the place of the operand, or of
/// the call where it is one without result (rule 61).
pub fn value_of<'a>(
    checker: &mut Checker<'_, 'a>,
    pos: Pos,
    thing: &Thing<'a>,
) -> Result<Option<Valued<'a>>, NoMemory> {
    match thing {
        Thing::Bad => Ok(None),
        Thing::Value(value) => Ok(Some(*value)),
        Thing::Chain(draft) => Ok(Some(value_of_chain(checker, draft)?)),
        Thing::Call(draft) => {
            checker.note(draft.pos, rules::VALUE_EXPECTED);
            Ok(None)
        }
        Thing::Builtin(call) => {
            checker.note(call.pos, rules::VALUE_EXPECTED);
            Ok(None)
        }
        Thing::Change(change) => {
            checker.note(change.pos, rules::VALUE_EXPECTED);
            Ok(None)
        }
        _ => {
            checker.note(pos, rules::VALUE_EXPECTED);
            Ok(None)
        }
    }
}

/// What an operand is as the beginning of a chain.
pub fn chain_of<'a>(
    checker: &mut Checker<'_, 'a>,
    pos: Pos,
    thing: &Thing<'a>,
) -> Result<Option<Draft<'a>>, NoMemory> {
    match thing {
        Thing::Chain(draft) => Ok(Some(*draft)),
        other => match value_of(checker, pos, other)? {
            Some(value) => Ok(Some(chain_from(checker, pos, &value)?)),
            None => Ok(None),
        },
    }
}

/// What stands in parentheses: a chain keeps its own place inside.
pub fn parenthesized<'a>(
    checker: &mut Checker<'_, 'a>,
    pos: Pos,
    thing: &Thing<'a>,
) -> Result<Thing<'a>, NoMemory> {
    let Thing::Chain(draft) = thing else {
        return Ok(*thing);
    };
    let chain = finished(checker, draft, Some(draft.kind))?;
    let inner = new_chain(checker, pos, Base::Inner(chain), draft.kind, draft.state)?;
    Ok(Thing::Chain(Draft {
        may_be_inner: draft.may_be_inner,
        ..inner
    }))
}

/// Whether an operand is a designator that may be written; refused otherwise (rules 52 and 53).
pub fn is_writable<'a>(checker: &mut Checker<'_, 'a>, pos: Pos, thing: &Thing<'a>) -> bool {
    let (is_designator, is_writable) = match thing {
        Thing::Bad => return false,
        Thing::Chain(draft) => match draft.state {
            State::Place {
                is_writable,
                is_designator,
            } => (is_designator, is_writable),
            State::Value => (false, false),
        },
        _ => (false, false),
    };
    if !is_designator {
        checker.note(pos, rules::NOT_A_DESIGNATOR);
    } else if !is_writable {
        checker.note(pos, rules::NOT_WRITABLE);
    }
    is_designator && is_writable
}
