use crate::actuals::{Given, has_name, limits, take};
use crate::news::made;
use crate::routines::routine_result;
use crate::words::{
    Arguments, actual_pos, formal_named, give, result_of_call, word_result, word_routine_of,
};
use m3_base::{NoMemory, Pos, rules};
use m3_const_arithmetic::WordRoutine;
use m3_const_values::{Evaluator, Thing, is_integer};
use m3_link_scopes::Predeclared;
use m3_syntax::Actual;

/// A call whose actuals are taken one by one.
#[derive(Clone, Copy)]
pub enum Called<'a> {
    /// A predeclared routine that can't be called with these actuals.
    Wrong,
    /// A procedure or a method: what its call gives, and whether it can be called.
    Procedure(Thing<'a>, bool),
    Word(WordCall<'a>),
    Routine(Predeclared, Given<'a>),
    /// NEW, with the type that is its first actual.
    New(Thing<'a>),
}

/// A call of a routine of Word.
#[derive(Clone, Copy)]
pub struct WordCall<'a> {
    routine: WordRoutine,
    given: Arguments<'a>,
    /// Whether an actual with a name came.
    is_named: bool,
}

/// The call of a thing, before its actuals.
pub fn begun<'a>(
    eval: &mut Evaluator<'_, 'a>,
    pos: Pos,
    thing: Thing<'a>,
    actuals: &[Actual<'a>],
) -> Result<Called<'a>, NoMemory> {
    match thing {
        Thing::Predeclared(routine) => Ok(begun_routine(pos, routine, actuals)),
        Thing::Routine(id) => match word_routine_of(eval, id) {
            Some(routine) => Ok(begun_word(routine)),
            None => begun_procedure(eval, pos, thing),
        },
        _ => begun_procedure(eval, pos, thing),
    }
}

fn begun_procedure<'a>(
    eval: &mut Evaluator<'_, 'a>,
    pos: Pos,
    thing: Thing<'a>,
) -> Result<Called<'a>, NoMemory> {
    let result = result_of_call(eval, pos, thing)?;
    let is_callable = !matches!(result, Thing::Bad);
    Ok(Called::Procedure(result, is_callable))
}

fn begun_word<'a>(routine: WordRoutine) -> Called<'a> {
    Called::Word(WordCall {
        routine,
        given: Arguments {
            first: None,
            second: None,
            is_wrong: false,
        },
        is_named: false,
    })
}

fn begun_routine<'a>(pos: Pos, routine: Predeclared, actuals: &[Actual<'a>]) -> Called<'a> {
    if routine == Predeclared::New {
        return Called::New(Thing::Bad);
    }
    let (least, most) = limits(routine);
    if actuals.len() < least || actuals.len() > most || has_name(actuals) {
        return Called::Wrong;
    }
    Called::Routine(
        routine,
        Given {
            first: Thing::Bad,
            second: Thing::Bad,
            third: Thing::Bad,
            first_pos: pos,
            second_pos: pos,
            third_pos: pos,
        },
    )
}

/// The call with one more actual, which stands at a place of the row.
pub fn with_actual<'a>(
    eval: &mut Evaluator<'_, 'a>,
    called: Called<'a>,
    place: usize,
    actual: &Actual<'a>,
    thing: Thing<'a>,
) -> Result<Called<'a>, NoMemory> {
    match called {
        Called::Wrong => Ok(Called::Wrong),
        Called::Procedure(result, is_callable) => {
            let result = checked(eval, result, is_callable, actual_pos(actual), thing);
            Ok(Called::Procedure(result, is_callable))
        }
        Called::Word(word) => Ok(Called::Word(with_argument(eval, word, place, actual, thing)?)),
        Called::Routine(routine, given) => {
            let mut given = given;
            take(&mut given, place, thing, actual_pos(actual));
            Ok(Called::Routine(routine, given))
        }
        Called::New(_) if place == 0 => Ok(Called::New(thing)),
        Called::New(kind) => {
            eval.value_of(actual_pos(actual), thing);
            Ok(Called::New(kind))
        }
    }
}

/// What a call gives once an actual is seen: nothing where that has no value. A type as an actual
/// is judged with the expressions of bodies where nothing can be called.
fn checked<'a>(
    eval: &mut Evaluator<'_, 'a>,
    outcome: Thing<'a>,
    is_callable: bool,
    at: Pos,
    thing: Thing<'a>,
) -> Thing<'a> {
    match thing {
        Thing::Type(_) if !is_callable => outcome,
        _ => match eval.value_of(at, thing) {
            Some(_) => outcome,
            None => Thing::Bad,
        },
    }
}

/// A call of a routine of Word with one more actual.
fn with_argument<'a>(
    eval: &mut Evaluator<'_, 'a>,
    word: WordCall<'a>,
    place: usize,
    actual: &Actual<'a>,
    thing: Thing<'a>,
) -> Result<WordCall<'a>, NoMemory> {
    let mut word = word;
    let Some(worth) = eval.value_of(actual_pos(actual), thing) else {
        word.given.is_wrong = true;
        return Ok(word);
    };
    let to = match actual {
        Actual::Named(name, _) => {
            word.is_named = true;
            formal_named(word.routine, name.text)
        }
        _ if word.is_named => None,
        _ => Some(place),
    };
    if !is_integer(eval, worth.kind)? {
        word.given.is_wrong = true;
    }
    give(&mut word.given, to, worth);
    Ok(word)
}

/// What a call gives that has all its actuals. The bindings of NEW are judged with the expressions
/// of bodies.
pub fn given_by<'a>(
    eval: &mut Evaluator<'_, 'a>,
    pos: Pos,
    called: Called<'a>,
    actuals: &[Actual<'a>],
) -> Result<Thing<'a>, NoMemory> {
    match called {
        Called::Wrong => Ok(Thing::Bad),
        Called::Procedure(result, _) => Ok(result),
        Called::Word(word) => Ok(word_result(eval, pos, word.routine, &word.given)),
        Called::Routine(routine, given) => routine_result(eval, pos, routine, &given),
        Called::New(Thing::Type(kind)) if eval.was_refused(kind) => Ok(Thing::Bad),
        Called::New(Thing::Type(kind)) => {
            let kind = made(eval, kind, actuals)?;
            Ok(eval.varies(kind, pos, rules::NOT_CONSTANT))
        }
        Called::New(_) => Ok(Thing::Bad),
    }
}
