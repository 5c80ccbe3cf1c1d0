use crate::actuals::{Given, type_argument};
use m3_base::{NoMemory, Pos, rules};
use m3_const_arithmetic::absolute;
use m3_const_values::{
    Evaluator, Known, Reason, Thing, Worth, are_same, base_of, both, bounds_of, fits, is_integer,
    is_ordinal, is_reference, share_base,
};
use m3_core::Value;
use m3_link_scopes::Predeclared;
use m3_types::{TypeId, TypeNode};

/// What a predeclared routine gives of its actuals.
pub fn routine_result<'a>(
    eval: &mut Evaluator<'_, 'a>,
    pos: Pos,
    routine: Predeclared,
    given: &Given<'a>,
) -> Result<Thing<'a>, NoMemory> {
    match routine {
        Predeclared::Abs => abs(eval, pos, given),
        Predeclared::First | Predeclared::Last | Predeclared::Number => {
            limit(eval, pos, routine, given)
        }
        Predeclared::Max | Predeclared::Min => extreme(eval, routine, given),
        Predeclared::Ord => ord(eval, given),
        Predeclared::Val => val(eval, pos, given),
        Predeclared::Istype => istype(eval, pos, given),
        Predeclared::Narrow => narrow(eval, pos, given),
        Predeclared::Subarray => subarray(eval, pos, given),
        _ => Ok(Thing::Nothing(pos)),
    }
}

fn abs<'a>(
    eval: &mut Evaluator<'_, 'a>,
    pos: Pos,
    given: &Given<'a>,
) -> Result<Thing<'a>, NoMemory> {
    let Some(worth) = eval.value_of(given.first_pos, given.first) else {
        return Ok(Thing::Bad);
    };
    if !is_integer(eval, worth.kind)? {
        return Ok(Thing::Bad);
    }
    let kind = eval.declared.basic.integer;
    match worth.value {
        Known::Value(Value::Number(number)) => match absolute(number) {
            Some(number) => Ok(eval.number(kind, number)),
            None => Ok(eval.varies(kind, pos, rules::CONSTANT_OVERFLOW)),
        },
        Known::Value(_) => Ok(Thing::Bad),
        Known::Varies(reason) => Ok(eval.varies(kind, reason.pos, reason.rule)),
    }
}

/// FIRST, LAST and NUMBER of an ordinal type, a fixed array type or an array.
fn limit<'a>(
    eval: &mut Evaluator<'_, 'a>,
    pos: Pos,
    routine: Predeclared,
    given: &Given<'a>,
) -> Result<Thing<'a>, NoMemory> {
    if let Thing::Type(kind) = given.first {
        return match eval.node(kind)? {
            TypeNode::FixedArray(index, _) => type_limit(eval, routine, index),
            _ => type_limit(eval, routine, kind),
        };
    }
    let Some(worth) = eval.value_of(given.first_pos, given.first) else {
        return Ok(Thing::Bad);
    };
    match eval.node(worth.kind)? {
        TypeNode::FixedArray(index, _) => {
            let limit = type_limit(eval, routine, index)?;
            Ok(limit_of_array(eval, pos, &worth, limit))
        }
        TypeNode::OpenArray(_) => Ok(open_limit(eval, pos, routine, &worth)),
        _ => Ok(Thing::Bad),
    }
}

/// A limit that the type of an array fixes: it is constant of a variable and of a constant.
fn limit_of_array<'a>(
    eval: &Evaluator<'_, 'a>,
    pos: Pos,
    array: &Worth<'a>,
    limit: Thing<'a>,
) -> Thing<'a> {
    let is_known = array.is_fixed || matches!(array.value, Known::Value(_));
    match limit {
        Thing::Value(worth) if !is_known => eval.varies(worth.kind, pos, rules::NOT_CONSTANT),
        other => other,
    }
}

fn open_limit<'a>(
    eval: &Evaluator<'_, 'a>,
    pos: Pos,
    routine: Predeclared,
    array: &Worth<'a>,
) -> Thing<'a> {
    let kind = match routine {
        Predeclared::Number => eval.declared.basic.cardinal,
        _ => eval.declared.basic.integer,
    };
    let Known::Value(Value::Array(_, count)) = array.value else {
        return eval.varies(kind, pos, rules::NOT_CONSTANT);
    };
    let Ok(count) = i64::try_from(count) else {
        return eval.varies(kind, pos, rules::NOT_CONSTANT);
    };
    match routine {
        Predeclared::First => eval.number(kind, 0),
        Predeclared::Last => eval.number(kind, count.wrapping_sub(1)),
        _ => eval.number(kind, count),
    }
}

/// FIRST, LAST and NUMBER of an ordinal type.
fn type_limit<'a>(
    eval: &mut Evaluator<'_, 'a>,
    routine: Predeclared,
    kind: TypeId,
) -> Result<Thing<'a>, NoMemory> {
    if !is_ordinal(eval, kind)? {
        return Ok(Thing::Bad);
    }
    if routine == Predeclared::Number {
        let members = eval.declared.types.member_count(kind);
        return match i64::try_from(members) {
            Ok(members) => Ok(eval.number(eval.declared.basic.cardinal, members)),
            Err(_) => Ok(Thing::Bad),
        };
    }
    if let TypeNode::Enumeration([]) = eval.node(kind)? {
        return Ok(Thing::Bad);
    }
    let (first, last) = bounds_of(eval, kind);
    let limit = if routine == Predeclared::First {
        first
    } else {
        last
    };
    Ok(eval.number(base_of(eval, kind), limit))
}

fn extreme<'a>(
    eval: &mut Evaluator<'_, 'a>,
    routine: Predeclared,
    given: &Given<'a>,
) -> Result<Thing<'a>, NoMemory> {
    let first = eval.value_of(given.first_pos, given.first);
    let second = eval.value_of(given.second_pos, given.second);
    let (Some(first), Some(second)) = (first, second) else {
        return Ok(Thing::Bad);
    };
    if !share_base(eval, first.kind, second.kind)? {
        return Ok(Thing::Bad);
    }
    let kind = if are_same(eval, first.kind, second.kind)? {
        first.kind
    } else {
        base_of(eval, first.kind)
    };
    match both(first.value, second.value) {
        Ok((Value::Number(x), Value::Number(y))) => {
            let is_first = (x < y) == (routine == Predeclared::Min);
            Ok(eval.number(kind, if is_first { x } else { y }))
        }
        Ok(_) => Ok(Thing::Bad),
        Err(reason) => Ok(eval.varies(kind, reason.pos, reason.rule)),
    }
}

fn ord<'a>(eval: &mut Evaluator<'_, 'a>, given: &Given<'a>) -> Result<Thing<'a>, NoMemory> {
    let Some(worth) = eval.value_of(given.first_pos, given.first) else {
        return Ok(Thing::Bad);
    };
    if !is_ordinal(eval, worth.kind)? {
        return Ok(Thing::Bad);
    }
    Ok(Thing::Value(Worth {
        kind: eval.declared.basic.integer,
        value: worth.value,
        is_fixed: false,
    }))
}

fn val<'a>(
    eval: &mut Evaluator<'_, 'a>,
    pos: Pos,
    given: &Given<'a>,
) -> Result<Thing<'a>, NoMemory> {
    let worth = eval.value_of(given.first_pos, given.first);
    let kind = type_argument(eval, given.second_pos, given.second);
    let (Some(worth), Some(kind)) = (worth, kind) else {
        return Ok(Thing::Bad);
    };
    if !is_integer(eval, worth.kind)? || !is_ordinal(eval, kind)? {
        return Ok(Thing::Bad);
    }
    let (first, last) = bounds_of(eval, kind);
    match worth.value {
        Known::Value(Value::Number(number)) if first <= number && number <= last => {
            Ok(eval.number(kind, number))
        }
        Known::Value(_) => Ok(eval.varies(kind, pos, rules::CONSTANT_OUT_OF_RANGE)),
        Known::Varies(reason) => Ok(eval.varies(kind, reason.pos, reason.rule)),
    }
}

/// The value and the type of ISTYPE and NARROW: references that are related.
fn related<'a>(
    eval: &mut Evaluator<'_, 'a>,
    given: &Given<'a>,
) -> Result<Option<(Worth<'a>, TypeId)>, NoMemory> {
    let worth = eval.value_of(given.first_pos, given.first);
    let kind = type_argument(eval, given.second_pos, given.second);
    let (Some(worth), Some(kind)) = (worth, kind) else {
        return Ok(None);
    };
    let are_references = is_reference(eval, worth.kind)?;
    if !is_reference(eval, kind)? || !are_references {
        return Ok(None);
    }
    if !fits(eval, given.second_pos, worth.kind, kind, false)? {
        return Ok(None);
    }
    Ok(Some((worth, kind)))
}

fn istype<'a>(
    eval: &mut Evaluator<'_, 'a>,
    pos: Pos,
    given: &Given<'a>,
) -> Result<Thing<'a>, NoMemory> {
    match related(eval, given)? {
        Some(_) => Ok(eval.varies(eval.declared.basic.boolean, pos, rules::NOT_CONSTANT)),
        None => Ok(Thing::Bad),
    }
}

fn narrow<'a>(
    eval: &mut Evaluator<'_, 'a>,
    pos: Pos,
    given: &Given<'a>,
) -> Result<Thing<'a>, NoMemory> {
    match related(eval, given)? {
        Some((worth, kind)) => match worth.value {
            Known::Value(Value::Nil) => Ok(eval.known(kind, Value::Nil)),
            other => {
                let Reason { pos, rule } = other.reason_or(pos, rules::NOT_CONSTANT);
                Ok(eval.varies(kind, pos, rule))
            }
        },
        None => Ok(Thing::Bad),
    }
}

fn subarray<'a>(
    eval: &mut Evaluator<'_, 'a>,
    pos: Pos,
    given: &Given<'a>,
) -> Result<Thing<'a>, NoMemory> {
    let array = eval.value_of(given.first_pos, given.first);
    let start = eval.value_of(given.second_pos, given.second);
    let count = eval.value_of(given.third_pos, given.third);
    let (Some(array), Some(start), Some(count)) = (array, start, count) else {
        return Ok(Thing::Bad);
    };
    let element = match eval.node(array.kind)? {
        TypeNode::FixedArray(_, element) | TypeNode::OpenArray(element) => element,
        _ => return Ok(Thing::Bad),
    };
    if !is_integer(eval, start.kind)? || !is_integer(eval, count.kind)? {
        return Ok(Thing::Bad);
    }
    let kind = eval.declared.types.push(TypeNode::OpenArray(element))?;
    Ok(eval.varies(kind, pos, rules::NOT_CONSTANT))
}
