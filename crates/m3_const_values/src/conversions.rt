use crate::evaluator::Evaluator;
use crate::kinds::bounds_of;
use crate::worth::{Known, Reason, Worth};
use m3_base::{NoMemory, Pos, rules};
use m3_core::{Value, ValueId};
use m3_types::{TypeId, TypeNode};

/// A value as one of a type that it can be assigned to, with the check that this needs (rules
/// 43 and 40).
pub fn converted<'a>(
    eval: &mut Evaluator<'_, 'a>,
    pos: Pos,
    worth: Worth<'a>,
    to: TypeId,
) -> Result<Worth<'a>, NoMemory> {
    let value = match worth.value {
        Known::Varies(reason) => Known::Varies(reason),
        Known::Value(value) if worth.kind == to => Known::Value(value),
        Known::Value(value) => {
            if is_in(eval, value, worth.kind, to)? {
                Known::Value(value)
            } else {
                Known::Varies(Reason {
                    pos,
                    rule: rules::CONSTANT_OUT_OF_RANGE,
                })
            }
        }
    };
    Ok(Worth {
        kind: to,
        value,
        is_fixed: false,
    })
}

/// Whether a value of one type that can be assigned to another is in its range, or has its shape.
fn is_in<'a>(
    eval: &mut Evaluator<'_, 'a>,
    value: Value<'a>,
    from: TypeId,
    to: TypeId,
) -> Result<bool, NoMemory> {
    match value {
        Value::Number(number) => {
            eval.node(to)?;
            let (first, last) = bounds_of(eval, to);
            Ok(first <= number && number <= last)
        }
        Value::Array(_, _) => has_shape(eval, value, from, to),
        _ => Ok(true),
    }
}

/// Whether an array has as many elements as a type says, in each dimension that is open in its own
/// type. Where it is fixed there, the types alone say whether it can be assigned.
fn has_shape<'a>(
    eval: &mut Evaluator<'_, 'a>,
    value: Value<'a>,
    from: TypeId,
    to: TypeId,
) -> Result<bool, NoMemory> {
    let mut stack = Vec::new(eval.alloc);
    stack.push((value, from, to))?;
    for _step in 0..u64::MAX {
        let Some((value, from, to)) = stack.pop() else {
            return Ok(true);
        };
        let Value::Array(parts, count) = value else {
            continue;
        };
        let (TypeNode::OpenArray(own), wanted) = (eval.node(from)?, eval.node(to)?) else {
            continue;
        };
        let element = match wanted {
            TypeNode::FixedArray(index, element) => {
                eval.node(index)?;
                if eval.declared.types.member_count(index) != u128::from(count) {
                    return Ok(false);
                }
                element
            }
            TypeNode::OpenArray(element) => element,
            _ => continue,
        };
        push_arrays(eval, &mut stack, parts, own, element)?;
    }
    Ok(true)
}

/// Puts the arrays among the elements of an array onto the stack.
fn push_arrays<'a>(
    eval: &Evaluator<'_, 'a>,
    stack: &mut Vec<(Value<'a>, TypeId, TypeId)>,
    parts: &[ValueId],
    own: TypeId,
    element: TypeId,
) -> Result<(), NoMemory> {
    for part in parts {
        if let Some(value) = eval.stored(*part) {
            if let Value::Array(_, _) = value {
                stack.push((value, own, element))?;
            }
        }
    }
    Ok(())
}
