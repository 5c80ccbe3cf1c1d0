use m3_base::{NoMemory, Pos, rules};
use m3_const_arithmetic::{WordRoutine, routine_named, word_routine};
use m3_const_values::{Evaluator, Thing, Worth, both};
use m3_core::Value;
use m3_link_scopes::EntityId;
use m3_syntax::Actual;
use m3_types::TypeNode;

/// The two arguments of a routine of Word.
#[derive(Clone, Copy)]
pub struct Arguments<'a> {
    pub first: Option<Worth<'a>>,
    pub second: Option<Worth<'a>>,
    pub is_wrong: bool,
}

/// What the call of a procedure, a method or a routine gives.
pub fn result_of_call<'a>(
    eval: &mut Evaluator<'_, 'a>,
    pos: Pos,
    thing: Thing<'a>,
) -> Result<Thing<'a>, NoMemory> {
    let kind = match thing {
        Thing::Routine(id) => eval.declared.kind_of(id),
        Thing::Method(signature) => Some(signature),
        Thing::Value(worth) => Some(worth.kind),
        _ => None,
    };
    let Some(kind) = kind else {
        return Ok(Thing::Bad);
    };
    let result = match eval.node(kind)? {
        TypeNode::Procedure(_, result, _) => result,
        _ => return Ok(Thing::Bad),
    };
    match result {
        Some(result) if result == eval.declared.basic.refused => Ok(Thing::Bad),
        Some(result) => Ok(eval.varies(result, pos, rules::NOT_CONSTANT)),
        None => Ok(Thing::Nothing(pos)),
    }
}

/// The routine of Word that an entity is.
pub fn word_routine_of<'a>(eval: &Evaluator<'_, 'a>, id: EntityId) -> Option<WordRoutine> {
    let entity = eval.program.binds.entity(id)?;
    let info = eval.program.infos.get(entity.unit as usize)?;
    if info.name.text == b"Word".as_slice() {
        routine_named(entity.name)
    } else {
        None
    }
}

/// What a routine of Word gives.
pub fn word_result<'a>(
    eval: &Evaluator<'_, 'a>,
    pos: Pos,
    routine: WordRoutine,
    given: &Arguments<'a>,
) -> Thing<'a> {
    let second = match (routine, given.second) {
        (WordRoutine::Not, None) => given.first,
        (WordRoutine::Not, Some(_)) => None,
        (_, second) => second,
    };
    let (Some(first), Some(second)) = (given.first, second) else {
        return Thing::Bad;
    };
    if given.is_wrong {
        return Thing::Bad;
    }
    let kind = match routine {
        WordRoutine::Less
        | WordRoutine::LessEqual
        | WordRoutine::Greater
        | WordRoutine::GreaterEqual => eval.declared.basic.boolean,
        _ => eval.declared.basic.integer,
    };
    match both(first.value, second.value) {
        Ok((Value::Number(x), Value::Number(y))) => match word_routine(routine, x, y) {
            Some(number) => eval.number(kind, number),
            None => eval.varies(kind, pos, rules::CONSTANT_ZERO_DIVISOR),
        },
        Ok(_) => Thing::Bad,
        Err(reason) => eval.varies(kind, reason.pos, reason.rule),
    }
}

/// The place of an actual's expression or type.
pub fn actual_pos(actual: &Actual<'_>) -> Pos {
    match actual {
        Actual::Value(value) | Actual::Named(_, value) => value.pos(),
        Actual::Type(kind) => kind.pos(),
    }
}

/// The place of a formal of a routine of Word.
pub fn formal_named(routine: WordRoutine, name: &[u8]) -> Option<usize> {
    let second: &[u8] = match routine {
        WordRoutine::Shift | WordRoutine::Rotate => b"n",
        _ => b"y",
    };
    if name == b"x".as_slice() {
        Some(0)
    } else if name == second {
        Some(1)
    } else {
        None
    }
}

/// Gives an argument to a formal that has none yet.
pub fn give<'a>(given: &mut Arguments<'a>, to: Option<usize>, worth: Worth<'a>) {
    match to {
        Some(0) if given.first.is_none() => given.first = Some(worth),
        Some(1) if given.second.is_none() => given.second = Some(worth),
        _ => given.is_wrong = true,
    }
}
