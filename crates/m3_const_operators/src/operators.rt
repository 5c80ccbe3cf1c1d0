use crate::equal::are_equal;
use m3_base::{NoMemory, Pos, place_number, rules};
use m3_const_arithmetic::{
    common, difference, has, is_within, joined, negative, product, quotient, rest, sum, unshared,
    without,
};
use m3_const_values::{
    Evaluator, Known, Reason, Worth, are_comparable, are_sets, both, is_boolean, is_integer,
    is_subtype, plain_node, share_base,
};
use m3_core::{Value, joined_text};
use m3_syntax::Operator;
use m3_types::{TypeId, TypeNode};

/// A truth value as the place of its member of BOOLEAN.
pub fn truth<'a>(test: bool) -> Value<'a> {
    Value::Number(if test { 1 } else { 0 })
}

/// A sum, difference, product, quotient or rest, or the rule that it breaks.
fn arithmetic(operator: Operator, x: i64, y: i64) -> Result<i64, u16> {
    let result = match operator {
        Operator::Plus => sum(x, y),
        Operator::Minus => difference(x, y),
        Operator::Times => product(x, y),
        Operator::Div | Operator::Mod if y == 0 => return Err(rules::CONSTANT_ZERO_DIVISOR),
        Operator::Div => quotient(x, y),
        _ => rest(x, y),
    };
    match result {
        Some(number) => Ok(number),
        None => Err(rules::CONSTANT_OVERFLOW),
    }
}

/// Whether two numbers are in the order that an operator asks for.
fn in_order(operator: Operator, x: i64, y: i64) -> bool {
    match operator {
        Operator::Less => x < y,
        Operator::LessEqual => x <= y,
        Operator::Greater => x > y,
        _ => x >= y,
    }
}

/// Whether a set includes another as an operator asks for; properly where it is strict.
fn includes(operator: Operator, x: &[i64], y: &[i64]) -> bool {
    match operator {
        Operator::Less => is_within(x, y) && x.len() < y.len(),
        Operator::LessEqual => is_within(x, y),
        Operator::Greater => is_within(y, x) && y.len() < x.len(),
        _ => is_within(y, x),
    }
}

/// The left and the right operand with the place where the operation begins.
#[derive(Clone, Copy)]
pub struct Operands<'a> {
    pub pos: Pos,
    pub left: Worth<'a>,
    pub right: Worth<'a>,
    pub right_pos: Pos,
}

/// What an operator makes of two operands; none where they break a rule of expressions.
pub fn operate<'a>(
    eval: &mut Evaluator<'_, 'a>,
    operator: Operator,
    operands: &Operands<'a>,
) -> Result<Option<Worth<'a>>, NoMemory> {
    match operator {
        Operator::Or | Operator::And => logic(eval, operator, operands),
        Operator::Equal | Operator::NotEqual => equality(eval, operator, operands),
        Operator::Less | Operator::LessEqual | Operator::Greater | Operator::GreaterEqual => order(
            eval, operator, operands,
        ),
        Operator::In => membership(eval, operands),
        Operator::Concatenate => concatenation(eval, operands),
        _ => computation(eval, operator, operands),
    }
}

fn result_of<'a>(eval: &Evaluator<'_, 'a>, kind: TypeId, value: Known<'a>) -> Option<Worth<'a>> {
    Some(Worth {
        kind,
        value,
        is_fixed: false,
    })
}

fn logic<'a>(
    eval: &mut Evaluator<'_, 'a>,
    operator: Operator,
    operands: &Operands<'a>,
) -> Result<Option<Worth<'a>>, NoMemory> {
    let is_left = is_boolean(eval, operands.left.kind)?;
    if !is_boolean(eval, operands.right.kind)? || !is_left {
        return Ok(None);
    }
    let value = match both(operands.left.value, operands.right.value) {
        Ok((Value::Number(x), Value::Number(y))) => Known::Value(truth(match operator {
            Operator::And => x != 0 && y != 0,
            _ => x != 0 || y != 0,
        })),
        Ok(_) => return Ok(None),
        Err(reason) => Known::Varies(reason),
    };
    Ok(result_of(eval, eval.declared.basic.boolean, value))
}

fn equality<'a>(
    eval: &mut Evaluator<'_, 'a>,
    operator: Operator,
    operands: &Operands<'a>,
) -> Result<Option<Worth<'a>>, NoMemory> {
    if !are_comparable(eval, operands.pos, operands.left.kind, operands.right.kind)? {
        return Ok(None);
    }
    let value = match both(operands.left.value, operands.right.value) {
        Ok((x, y)) => {
            let are_equal = are_equal(eval, x, y)?;
            Known::Value(truth(are_equal == (operator == Operator::Equal)))
        }
        Err(reason) => Known::Varies(reason),
    };
    Ok(result_of(eval, eval.declared.basic.boolean, value))
}

fn order<'a>(
    eval: &mut Evaluator<'_, 'a>,
    operator: Operator,
    operands: &Operands<'a>,
) -> Result<Option<Worth<'a>>, NoMemory> {
    let left = operands.left.kind;
    let right = operands.right.kind;
    if !share_base(eval, left, right)? && !are_sets(eval, left, right)? {
        return Ok(None);
    }
    let value = match both(operands.left.value, operands.right.value) {
        Ok((Value::Number(x), Value::Number(y))) => Known::Value(truth(in_order(operator, x, y))),
        Ok((Value::Set(x), Value::Set(y))) => Known::Value(truth(includes(operator, x, y))),
        Ok(_) => return Ok(None),
        Err(reason) => Known::Varies(reason),
    };
    Ok(result_of(eval, eval.declared.basic.boolean, value))
}

fn membership<'a>(
    eval: &mut Evaluator<'_, 'a>,
    operands: &Operands<'a>,
) -> Result<Option<Worth<'a>>, NoMemory> {
    let TypeNode::SetOf(base) = plain_node(eval, operands.right.kind)? else {
        return Ok(None);
    };
    if !share_base(eval, operands.left.kind, base)? {
        return Ok(None);
    }
    let value = match both(operands.left.value, operands.right.value) {
        Ok((Value::Number(x), Value::Set(set))) => Known::Value(truth(has(set, x))),
        Ok(_) => return Ok(None),
        Err(reason) => Known::Varies(reason),
    };
    Ok(result_of(eval, eval.declared.basic.boolean, value))
}

/// Whether values of a type are texts.
fn is_text<'a>(eval: &Evaluator<'_, 'a>, kind: TypeId) -> Result<bool, NoMemory> {
    is_subtype(eval, kind, eval.declared.basic.text)
}

fn concatenation<'a>(
    eval: &mut Evaluator<'_, 'a>,
    operands: &Operands<'a>,
) -> Result<Option<Worth<'a>>, NoMemory> {
    if !is_text(eval, operands.left.kind)? || !is_text(eval, operands.right.kind)? {
        return Ok(None);
    }
    let value = match both(operands.left.value, operands.right.value) {
        Ok((Value::Text(x), Value::Text(y))) => new_text(eval, x, y)?,
        Ok((Value::Nil, _)) => Known::Varies(Reason {
            pos: operands.pos,
            rule: rules::CONSTANT_OUT_OF_RANGE,
        }),
        Ok(_) => Known::Varies(Reason {
            pos: operands.right_pos,
            rule: rules::CONSTANT_OUT_OF_RANGE,
        }),
        Err(reason) => Known::Varies(reason),
    };
    Ok(result_of(eval, eval.declared.basic.text, value))
}

/// A new cell with the bytes of two texts.
fn new_text<'a>(eval: &mut Evaluator<'_, 'a>, x: u32, y: u32) -> Result<Known<'a>, NoMemory> {
    let cell = place_number(eval.declared.texts.len())?;
    let text = joined_text(eval.declared.texts.as_slice(), x, y);
    eval.declared.texts.push(text)?;
    Ok(Known::Value(Value::Text(cell)))
}

fn computation<'a>(
    eval: &mut Evaluator<'_, 'a>,
    operator: Operator,
    operands: &Operands<'a>,
) -> Result<Option<Worth<'a>>, NoMemory> {
    let left = operands.left.kind;
    let is_left = is_integer(eval, left)?;
    if is_integer(eval, operands.right.kind)? && is_left {
        return Ok(integers(eval, operator, operands));
    }
    if !are_sets(eval, left, operands.right.kind)? {
        return Ok(None);
    }
    let value = match both(operands.left.value, operands.right.value) {
        Ok((Value::Set(x), Value::Set(y))) => match sets(eval, operator, x, y)? {
            Some(set) => Known::Value(Value::Set(set)),
            None => return Ok(None),
        },
        Ok(_) => return Ok(None),
        Err(reason) => Known::Varies(reason),
    };
    Ok(result_of(eval, left, value))
}

fn integers<'a>(
    eval: &Evaluator<'_, 'a>,
    operator: Operator,
    operands: &Operands<'a>,
) -> Option<Worth<'a>> {
    if operator == Operator::Slash {
        return None;
    }
    let value = match both(operands.left.value, operands.right.value) {
        Ok((Value::Number(x), Value::Number(y))) => match arithmetic(operator, x, y) {
            Ok(number) => Known::Value(Value::Number(number)),
            Err(rule) => Known::Varies(Reason {
                pos: operands.pos,
                rule,
            }),
        },
        Ok(_) => return None,
        Err(reason) => Known::Varies(reason),
    };
    result_of(eval, eval.declared.basic.integer, value)
}

fn sets<'a>(
    eval: &Evaluator<'_, 'a>,
    operator: Operator,
    x: &[i64],
    y: &[i64],
) -> Result<Option<&'a [i64]>, NoMemory> {
    let set = match operator {
        Operator::Plus => joined(eval.arena, x, y)?,
        Operator::Minus => without(eval.arena, x, y)?,
        Operator::Times => common(eval.arena, x, y)?,
        Operator::Slash => unshared(eval.arena, x, y)?,
        _ => return Ok(None),
    };
    Ok(Some(set))
}

/// The opposite of a value, by the place of the sign.
pub fn negated<'a>(value: Known<'a>, pos: Pos) -> Known<'a> {
    match value {
        Known::Value(Value::Number(number)) => match negative(number) {
            Some(number) => Known::Value(Value::Number(number)),
            None => Known::Varies(Reason {
                pos,
                rule: rules::CONSTANT_OVERFLOW,
            }),
        },
        other => other,
    }
}
