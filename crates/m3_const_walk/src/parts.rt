use bumpalo::Bump;
use bumpalo::collections::into_bump_slice;
use m3_base::{NoMemory, Pos, rules};
use m3_const_arithmetic::add_range;
use m3_const_values::{Evaluator, Known, Reason, Thing, Worth, converted, fits, own_member};
use m3_core::{Value, ValueId};
use m3_decl_lookup::Member;
use m3_syntax::Name;
use m3_types::{Field, TypeId, TypeNode};

/// The most members that the base of a set may have.
pub const MOST_MEMBERS: u128 = 256;

/// The parts of a set, record or array in the making.
#[derive(Drop)]
pub struct Parts<'a> {
    /// The type, with its definition.
    kind: TypeId,
    node: TypeNode<'a>,
    /// Whether they don't fit the type, or one of them has no worth.
    is_wrong: bool,
    /// Why it is no constant.
    reason: Option<Reason>,
    members: &'a [i64],
    values: Vec<ValueId, &'a Bump>,
    /// Of each field of a record, its value.
    fields: Vec<Option<ValueId>>,
    /// The next field by its place.
    next: usize,
    is_named: bool,
}

impl Parts<'_> {
    fn varies(&mut self, reason: Reason) {
        self.reason = Some(match self.reason {
            Some(other) => other.first(reason),
            None => reason,
        });
    }
}

/// Whether an element is a name, a constructor, or anything else.
#[derive(Clone, Copy)]
pub enum Origin {
    Named,
    Written,
    Computed,
}

/// What an element of a constructor is worth, with its places.
#[derive(Clone, Copy)]
pub enum Part<'a> {
    One(Pos, Option<Worth<'a>>, Origin),
    Range(Pos, Option<Worth<'a>>, Pos, Option<Worth<'a>>),
    Named(Name<'a>, Pos, Option<Worth<'a>>),
}

/// The parts, none yet, of a value of a type.
pub fn parts_for<'a>(eval: &mut Evaluator<'_, 'a>, kind: TypeId) -> Result<Parts<'a>, NoMemory> {
    let node = eval.node(kind)?;
    let is_wrong = has_many_members(eval, node)?;
    let count = match node {
        TypeNode::Fields(fields) => fields.len(),
        _ => 0,
    };
    Ok(Parts {
        kind,
        node,
        is_wrong,
        reason: None,
        members: &[],
        values: Vec::new(eval.arena),
        fields: vec![in eval.alloc; None; count]?,
        next: 0,
        is_named: false,
    })
}

/// Whether a definition is that of a set whose base has too many members.
fn has_many_members<'a>(
    eval: &mut Evaluator<'_, 'a>,
    node: TypeNode<'a>,
) -> Result<bool, NoMemory> {
    match node {
        TypeNode::SetOf(base) => {
            eval.node(base)?;
            Ok(eval.declared.types.member_count(base) > MOST_MEMBERS)
        }
        _ => Ok(false),
    }
}

/// Adds an element to the parts.
pub fn add_part<'a>(
    eval: &mut Evaluator<'_, 'a>,
    parts: &mut Parts<'a>,
    part: Part<'a>,
) -> Result<(), NoMemory> {
    let kind = parts.kind;
    match parts.node {
        TypeNode::SetOf(base) => add_to_set(eval, parts, base, part),
        TypeNode::FixedArray(_, element) | TypeNode::OpenArray(element) => {
            add_to_array(eval, parts, element, part)
        }
        TypeNode::Fields(fields) => add_to_record(eval, parts, kind, fields, part),
        _ => {
            parts.is_wrong = true;
            Ok(())
        }
    }
}

/// A value that is assigned to a part of a type; none where it can't be, or is no constant.
fn assigned<'a>(
    eval: &mut Evaluator<'_, 'a>,
    parts: &mut Parts<'a>,
    pos: Pos,
    worth: Option<Worth<'a>>,
    to: TypeId,
) -> Result<Option<Value<'a>>, NoMemory> {
    let Some(worth) = worth else {
        parts.is_wrong = true;
        return Ok(None);
    };
    if to == eval.declared.basic.refused || !fits(eval, pos, worth.kind, to, false)? {
        parts.is_wrong = true;
        return Ok(None);
    }
    match converted(eval, pos, worth, to)?.value {
        Known::Value(value) => Ok(Some(value)),
        Known::Varies(reason) => {
            parts.varies(reason);
            Ok(None)
        }
    }
}

fn add_to_set<'a>(
    eval: &mut Evaluator<'_, 'a>,
    parts: &mut Parts<'a>,
    base: TypeId,
    part: Part<'a>,
) -> Result<(), NoMemory> {
    let (first, last) = match part {
        Part::One(pos, worth, _) => {
            let value = assigned(eval, parts, pos, worth, base)?;
            (value, value)
        }
        Part::Range(pos, worth, end, other) => {
            let first = assigned(eval, parts, pos, worth, base)?;
            (first, assigned(eval, parts, end, other, base)?)
        }
        Part::Named(_, _, _) => {
            parts.is_wrong = true;
            (None, None)
        }
    };
    if parts.is_wrong {
        return Ok(());
    }
    if let (Some(Value::Number(first)), Some(Value::Number(last))) = (first, last) {
        parts.members = add_range(eval.arena, parts.members, first, last)?;
    }
    Ok(())
}

fn add_to_array<'a>(
    eval: &mut Evaluator<'_, 'a>,
    parts: &mut Parts<'a>,
    element: TypeId,
    part: Part<'a>,
) -> Result<(), NoMemory> {
    let Part::One(pos, worth, origin) = part else {
        parts.is_wrong = true;
        return Ok(());
    };
    if !has_known_shape(eval, element, worth, origin)? {
        parts.is_wrong = true;
        return Ok(());
    }
    if let Some(value) = assigned(eval, parts, pos, worth, element)? {
        if !has_shape_of_first(eval, parts, value) {
            parts.varies(Reason {
                pos,
                rule: rules::CONSTANT_OUT_OF_RANGE,
            });
        }
        let stored = eval.store(value)?;
        parts.values.push(stored)?;
    }
    Ok(())
}

/// Whether constants fix the shape of an element that is an open array: it is of a fixed array type,
/// a constant by its name, or a constructor.
fn has_known_shape<'a>(
    eval: &mut Evaluator<'_, 'a>,
    element: TypeId,
    worth: Option<Worth<'a>>,
    origin: Origin,
) -> Result<bool, NoMemory> {
    let (Some(worth), TypeNode::OpenArray(_)) = (worth, eval.node(element)?) else {
        return Ok(true);
    };
    match (origin, worth.value) {
        (Origin::Written, _) | (Origin::Named, Known::Value(_)) => Ok(true),
        _ => Ok(matches!(eval.node(worth.kind)?, TypeNode::FixedArray(_, _))),
    }
}

/// Whether a row of an array has the shape of the first row, in each dimension.
fn has_shape_of_first<'a>(eval: &Evaluator<'_, 'a>, parts: &Parts<'a>, value: Value<'a>) -> bool {
    let mut row = Some(value);
    let mut other = first_of(eval, parts.values.as_slice());
    for _ in 0..eval.declared.values.len() {
        match (row, other) {
            (Some(Value::Array(x, count)), Some(Value::Array(y, others))) => {
                if count != others {
                    return false;
                }
                row = first_of(eval, x);
                other = first_of(eval, y);
            }
            _ => return true,
        }
    }
    true
}

fn first_of<'a>(eval: &Evaluator<'_, 'a>, row: &[ValueId]) -> Option<Value<'a>> {
    match row.first() {
        Some(value) => eval.stored(*value),
        None => None,
    }
}

fn add_to_record<'a>(
    eval: &mut Evaluator<'_, 'a>,
    parts: &mut Parts<'a>,
    kind: TypeId,
    fields: &[Field<'a>],
    part: Part<'a>,
) -> Result<(), NoMemory> {
    let (place, pos, worth) = match part {
        Part::One(pos, worth, _) if !parts.is_named => {
            let place = parts.next;
            parts.next = place.saturating_add(1);
            (Some(place), pos, worth)
        }
        Part::Named(name, pos, worth) => {
            parts.is_named = true;
            match own_member(eval, kind, name.text)? {
                Some(Member::Field(place)) => (Some(place as usize), pos, worth),
                _ => (None, pos, worth),
            }
        }
        Part::One(pos, worth, _) | Part::Range(pos, worth, _, _) => (None, pos, worth),
    };
    add_field(eval, parts, fields, place, pos, worth)
}

fn add_field<'a>(
    eval: &mut Evaluator<'_, 'a>,
    parts: &mut Parts<'a>,
    fields: &[Field<'a>],
    place: Option<usize>,
    pos: Pos,
    worth: Option<Worth<'a>>,
) -> Result<(), NoMemory> {
    let place = place.unwrap_or(usize::MAX);
    let Some(field) = fields.get(place) else {
        parts.is_wrong = true;
        return Ok(());
    };
    if !matches!(parts.fields.get(place), Some(None)) {
        parts.is_wrong = true;
        return Ok(());
    }
    let stored = match assigned(eval, parts, pos, worth, field.kind)? {
        Some(value) => eval.store(value)?,
        None => ValueId(u32::MAX),
    };
    if let Some(slot) = parts.fields.get_mut(place) {
        *slot = Some(stored);
    }
    Ok(())
}

/// The value that the parts make, of so many elements, the last of them with `..` behind it where
/// it fills the rest.
pub fn whole<'a>(
    eval: &mut Evaluator<'_, 'a>,
    parts: &mut Parts<'a>,
    written: usize,
    is_filled: bool,
) -> Result<Thing<'a>, NoMemory> {
    let kind = parts.kind;
    let value = match parts.node {
        TypeNode::SetOf(_) => {
            parts.is_wrong = parts.is_wrong || is_filled;
            Value::Set(parts.members)
        }
        TypeNode::FixedArray(index, _) => {
            eval.node(index)?;
            let count = eval.declared.types.member_count(index);
            fixed_array(eval, parts, written, is_filled, count)
        }
        TypeNode::OpenArray(_) => {
            parts.is_wrong = parts.is_wrong || is_filled;
            Value::Array(taken(eval, parts), written as u64)
        }
        TypeNode::Fields(fields) => {
            parts.is_wrong = parts.is_wrong || is_filled;
            record_value(eval, parts, fields)?
        }
        _ => return Ok(Thing::Bad),
    };
    if parts.is_wrong {
        return Ok(Thing::Bad);
    }
    match parts.reason {
        Some(reason) => Ok(eval.varies(kind, reason.pos, reason.rule)),
        None => Ok(eval.known(kind, value)),
    }
}

/// The elements, which are taken out of the parts.
fn taken<'a>(eval: &Evaluator<'_, 'a>, parts: &mut Parts<'a>) -> &'a [ValueId] {
    into_bump_slice(std::mem::replace(&mut parts.values, Vec::new(eval.arena)))
}

/// An array of so many elements as its index type has members.
fn fixed_array<'a>(
    eval: &Evaluator<'_, 'a>,
    parts: &mut Parts<'a>,
    written: usize,
    is_filled: bool,
    count: u128,
) -> Value<'a> {
    let written = written as u128;
    let has_all = written == count || is_filled && written < count;
    parts.is_wrong = parts.is_wrong || !has_all;
    let count = u64::try_from(count).unwrap_or(u64::MAX);
    Value::Array(taken(eval, parts), count)
}

/// A record of its fields, as written, and of the defaults of the others.
fn record_value<'a>(
    eval: &mut Evaluator<'_, 'a>,
    parts: &mut Parts<'a>,
    fields: &[Field<'a>],
) -> Result<Value<'a>, NoMemory> {
    let mut row = Vec::new(eval.arena);
    for (place, field) in fields.iter().enumerate() {
        let given = parts.fields.get(place).copied().flatten();
        match (given, field.default) {
            (Some(value), _) => row.push(value)?,
            (None, Some(default)) => row.push(ValueId(default.source))?,
            (None, None) => parts.is_wrong = true,
        }
    }
    Ok(Value::Record(into_bump_slice(row)))
}
