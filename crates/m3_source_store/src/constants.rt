use crate::objects::object_fields;
use crate::program::Program;
use crate::types::{depth, element, elements, node_of, type_shape};
use bumpalo::Bump;
use bumpalo::collections::into_bump_slice;
use m3_base::NoMemory;
use m3_core::{Value as Constant, ValueId};
use m3_source_values::{Value, array_filled, array_of, up_to};
use m3_types::{Field, TypeId, TypeNode};

fn named<'m>(known: &[Value<'m>], constant: ValueId) -> Value<'m> {
    match known.get(constant.0 as usize) {
        Some(value) => *value,
        None => Value::Nil,
    }
}

fn all_named<'m>(
    arena: &'m Bump,
    known: &[Value<'m>],
    constants: &[ValueId],
) -> Result<&'m [Value<'m>], NoMemory> {
    let mut row = Vec::new(arena);
    for constant in constants {
        row.push(named(known, *constant))?;
    }
    Ok(into_bump_slice(row))
}

/// A constant by those before it.
pub(crate) fn constant_value<'m>(
    arena: &'m Bump,
    known: &[Value<'m>],
    constant: Constant<'m>,
) -> Result<Value<'m>, NoMemory> {
    match constant {
        Constant::Number(number) => Ok(Value::Ordinal(number)),
        Constant::Nil => Ok(Value::Nil),
        Constant::Text(text) => Ok(Value::Text(text)),
        Constant::Procedure(procedure) => Ok(Value::Procedure(procedure, None)),
        Constant::Set(members) => Ok(Value::Members(members)),
        Constant::Record(fields) => Ok(Value::Record(all_named(arena, known, fields)?)),
        Constant::Array(listed, count) => {
            let row = all_named(arena, known, listed)?;
            array_of(arena, &[], up_to(arena, count, row)?)
        }
    }
}

/// A constant of the program as a value of a type. It doesn't say which shape the elements have of
/// an array without any: its type does.
pub fn constant_at<'m>(
    p: &Program<'m>,
    kind: TypeId,
    place: u32,
) -> Result<Option<Value<'m>>, NoMemory> {
    match p.constants.get(place as usize) {
        Some(value) => Ok(Some(fitted_to(p, depth(p), kind, *value)?)),
        None => Ok(None),
    }
}

fn fitted_to<'m>(
    p: &Program<'m>,
    limit: usize,
    kind: TypeId,
    value: Value<'m>,
) -> Result<Value<'m>, NoMemory> {
    let Some(below) = limit.checked_sub(1) else {
        return Ok(value);
    };
    match (node_of(p, kind), value) {
        (
            TypeNode::FixedArray(_, element) | TypeNode::OpenArray(element),
            Value::Array(_, elements),
        ) => {
            let mut row = Vec::new(p.arena);
            for value in elements {
                row.push(fitted_to(p, below, element, *value)?)?;
            }
            array_of(p.arena, type_shape(p, element)?, into_bump_slice(row))
        }
        (TypeNode::Fields(fields), Value::Record(values)) => {
            let mut row = Vec::new(p.arena);
            for (field, value) in fields.iter().zip(values) {
                row.push(fitted_to(p, below, field.kind, *value)?)?;
            }
            Ok(Value::Record(into_bump_slice(row)))
        }
        _ => Ok(value),
    }
}

/// What a variable, field or element of a type without initial value holds.
pub fn default_of<'m>(p: &Program<'m>, kind: TypeId) -> Result<Value<'m>, NoMemory> {
    first_value_to(p, depth(p), kind, true)
}

/// What a variable of a module or interface holds before the first turn: 0, NIL, the empty set, or
/// such parts.
pub fn zero_of<'m>(p: &Program<'m>, kind: TypeId) -> Result<Value<'m>, NoMemory> {
    first_value_to(p, depth(p), kind, false)
}

/// The default of a type, or the value that is made of zeros.
fn first_value_to<'m>(
    p: &Program<'m>,
    limit: usize,
    kind: TypeId,
    is_default: bool,
) -> Result<Value<'m>, NoMemory> {
    let Some(below) = limit.checked_sub(1) else {
        return Ok(Value::Nil);
    };
    match node_of(p, kind) {
        TypeNode::FixedArray(_, element) => {
            let value = first_value_to(p, below, element, is_default)?;
            array_filled(p.arena, elements(p, kind), value)
        }
        TypeNode::OpenArray(element) if is_default => {
            let value = first_value_to(p, below, element, is_default)?;
            array_filled(p.arena, 0, value)
        }
        TypeNode::Fields(fields) => {
            let mut row = Vec::new(p.arena);
            for field in fields {
                let value = match written_default(p, field)? {
                    Some(value) if is_default => value,
                    _ => first_value_to(p, below, field.kind, is_default)?,
                };
                row.push(value)?;
            }
            Ok(Value::Record(into_bump_slice(row)))
        }
        node => Ok(simple_first_value(node, is_default)),
    }
}

/// The first value of a type that has no parts.
fn simple_first_value<'m>(node: TypeNode<'m>, is_default: bool) -> Value<'m> {
    match node {
        TypeNode::Integer | TypeNode::Boolean | TypeNode::Character | TypeNode::Enumeration(_) =>
            Value::Ordinal(0),
        TypeNode::Subrange(_, first, last) => {
            let has_zero = first <= 0 && 0 <= last;
            Value::Ordinal(if has_zero || !is_default { 0 } else { first })
        }
        TypeNode::SetOf(_) => Value::Members(&[]),
        _ => Value::Nil,
    }
}

/// The default that is written for a field, if one is.
fn written_default<'m>(p: &Program<'m>, field: &Field<'m>) -> Result<Option<Value<'m>>, NoMemory> {
    match field.default {
        Some(default) => match constant_at(p, field.kind, default.source)? {
            Some(value) => Ok(Some(value)),
            None => Ok(Some(Value::Nil)),
        },
        None => Ok(None),
    }
}

/// The default of a field.
pub fn field_default<'m>(p: &Program<'m>, field: &Field<'m>) -> Result<Value<'m>, NoMemory> {
    match written_default(p, field)? {
        Some(value) => Ok(value),
        None => default_of(p, field.kind),
    }
}

/// What a new cell of a type holds, with the sizes of its open dimensions: the defaults.
pub fn first_content<'m>(
    p: &Program<'m>,
    kind: TypeId,
    sizes: &[u64],
) -> Result<Value<'m>, NoMemory> {
    match node_of(p, kind) {
        TypeNode::RefTo(_, target) => sized_default(p, sizes, target),
        _ => {
            let fields = object_fields(p, kind)?;
            let mut row = Vec::new(p.arena);
            for field in &fields {
                row.push(field_default(p, field)?)?;
            }
            Ok(Value::Record(into_bump_slice(row)))
        }
    }
}

/// An array of these sizes of open dimensions, with the defaults of its elements.
fn sized_default<'m>(p: &Program<'m>, sizes: &[u64], kind: TypeId) -> Result<Value<'m>, NoMemory> {
    let mut inner = Some(kind);
    for _ in sizes {
        inner = match inner {
            Some(array) => element(p, array),
            None => None,
        };
    }
    let mut value = match inner {
        Some(innermost) => default_of(p, innermost)?,
        None => Value::Nil,
    };
    for size in sizes.iter().rev() {
        value = array_filled(p.arena, *size, value)?;
    }
    Ok(value)
}
