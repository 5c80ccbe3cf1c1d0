use crate::operators::{Operands, negated, operate, truth};
use m3_base::{NoMemory, Pos};
use m3_const_values::{Evaluator, Known, Thing, Worth, is_boolean, is_integer};
use m3_core::Value;
use m3_syntax::{Operator, PrefixSign};

/// A worth as a thing.
pub fn thing_of<'a>(worth: Option<Worth<'a>>) -> Thing<'a> {
    match worth {
        Some(worth) => Thing::Value(worth),
        None => Thing::Bad,
    }
}

/// What an operation that begins at a place gives.
pub fn operated<'a>(
    eval: &mut Evaluator<'_, 'a>,
    pos: Pos,
    left: Option<Worth<'a>>,
    operator: Operator,
    right: Option<Worth<'a>>,
    right_pos: Pos,
) -> Result<Option<Worth<'a>>, NoMemory> {
    let (Some(left), Some(right)) = (left, right) else {
        return Ok(None);
    };
    let operands = Operands {
        pos,
        left,
        right,
        right_pos,
    };
    operate(eval, operator, &operands)
}

/// NOT, as often as it is written.
pub fn denied<'a>(
    eval: &mut Evaluator<'_, 'a>,
    times: usize,
    worth: Option<Worth<'a>>,
) -> Result<Thing<'a>, NoMemory> {
    let Some(worth) = worth else {
        return Ok(Thing::Bad);
    };
    if !is_boolean(eval, worth.kind)? {
        return Ok(Thing::Bad);
    }
    let is_odd = times % 2 == 1;
    let value = match worth.value {
        Known::Value(Value::Number(number)) => Known::Value(truth((number != 0) != is_odd)),
        Known::Value(_) => return Ok(Thing::Bad),
        Known::Varies(reason) => Known::Varies(reason),
    };
    Ok(Thing::Value(Worth {
        kind: eval.declared.basic.boolean,
        value,
        is_fixed: false,
    }))
}

/// Signs, of which the last stands next to the operand.
pub fn signs_applied<'a>(
    eval: &mut Evaluator<'_, 'a>,
    signs: &[PrefixSign],
    worth: Option<Worth<'a>>,
) -> Result<Thing<'a>, NoMemory> {
    let Some(worth) = worth else {
        return Ok(Thing::Bad);
    };
    if !is_integer(eval, worth.kind)? {
        return Ok(Thing::Bad);
    }
    let mut value = worth.value;
    for sign in signs.iter().rev() {
        if sign.is_minus {
            value = negated(value, sign.pos);
        }
    }
    Ok(Thing::Value(Worth {
        kind: eval.declared.basic.integer,
        value,
        is_fixed: false,
    }))
}
