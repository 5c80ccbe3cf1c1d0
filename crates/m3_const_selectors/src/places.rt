use crate::method_constants::method_constant;
use m3_base::{NoMemory, Pos, rules};
use m3_const_values::{
    Evaluator, Known, Reason, Thing, Worth, both, bounds_of, entity_thing, fits, is_array,
    is_known_reference, is_reference, newest_member, own_member, plain_node, seen_structure,
};
use m3_core::{Value, ValueId};
use m3_decl_lookup::{Member, field_kind, method_kind};
use m3_syntax::Name;
use m3_types::{TypeId, TypeNode};

/// An index, with its place.
#[derive(Clone, Copy)]
pub struct Index<'a> {
    pub pos: Pos,
    pub worth: Option<Worth<'a>>,
}

/// What a reference leads to, of a type: it is no constant.
fn behind<'a>(eval: &Evaluator<'_, 'a>, pos: Pos, worth: &Worth<'a>, kind: TypeId) -> Worth<'a> {
    let reason = match worth.value {
        Known::Varies(reason) => reason,
        Known::Value(_) => Reason {
            pos,
            rule: rules::NOT_CONSTANT,
        },
    };
    Worth {
        kind,
        value: Known::Varies(reason),
        is_fixed: false,
    }
}

/// What `r^` is.
pub fn dereference<'a>(
    eval: &mut Evaluator<'_, 'a>,
    pos: Pos,
    thing: Thing<'a>,
) -> Result<Thing<'a>, NoMemory> {
    let Some(worth) = eval.value_of(pos, thing) else {
        return Ok(Thing::Bad);
    };
    let seen = seen_structure(eval, worth.kind)?;
    match eval.node(seen)? {
        TypeNode::RefTo(_, target) => Ok(Thing::Value(behind(eval, pos, &worth, target))),
        _ => Ok(Thing::Bad),
    }
}

/// What a name behind a dot is: of an interface, a type, or a value.
pub fn dot<'a>(
    eval: &mut Evaluator<'_, 'a>,
    pos: Pos,
    thing: Thing<'a>,
    name: Name<'a>,
) -> Result<Thing<'a>, NoMemory> {
    match thing {
        Thing::Interface(_) => match eval.program.binds.at(eval.unit, name.pos) {
            Some(id) => entity_thing(eval, id, pos),
            None => Ok(Thing::Bad),
        },
        Thing::Type(kind) => type_member(eval, kind, name),
        other => match eval.value_of(pos, other) {
            Some(worth) => value_member(eval, pos, &worth, name),
            None => Ok(Thing::Bad),
        },
    }
}

/// `T.x`: a member of an enumeration, or a method of an object type as a procedure.
fn type_member<'a>(
    eval: &mut Evaluator<'_, 'a>,
    kind: TypeId,
    name: Name<'a>,
) -> Result<Thing<'a>, NoMemory> {
    if let TypeNode::Enumeration(_) = eval.definition(kind) {
        return match own_member(eval, kind, name.text)? {
            Some(Member::Value(place)) => Ok(eval.number(kind, i64::from(place))),
            _ => Ok(Thing::Bad),
        };
    }
    if !eval.nilable.contains(&kind) && !is_known_reference(eval, kind) {
        return Ok(Thing::Bad);
    }
    let Some(found) = newest_member(eval, kind, name.text)? else {
        return Ok(Thing::Bad);
    };
    match found.member {
        Member::Method(method) => match method_kind(eval.definition(found.owner), method) {
            Some(signature) => method_constant(eval, kind, signature, name.text),
            None => Ok(Thing::Bad),
        },
        _ => Ok(Thing::Bad),
    }
}

/// A field of a record, or a field or method of what a reference leads to.
fn value_member<'a>(
    eval: &mut Evaluator<'_, 'a>,
    pos: Pos,
    worth: &Worth<'a>,
    name: Name<'a>,
) -> Result<Thing<'a>, NoMemory> {
    if let TypeNode::Fields(_) = plain_node(eval, worth.kind)? {
        return field(eval, worth, name);
    }
    let seen = seen_structure(eval, worth.kind)?;
    if let TypeNode::RefTo(_, target) = eval.node(seen)? {
        if let TypeNode::Fields(_) = eval.node(target)? {
            let place = behind(eval, pos, worth, target);
            return field(eval, &place, name);
        }
    }
    if !is_reference(eval, worth.kind)? {
        return Ok(Thing::Bad);
    }
    let Some(found) = newest_member(eval, worth.kind, name.text)? else {
        return Ok(Thing::Bad);
    };
    match found.member {
        Member::Field(field) => match field_kind(eval.definition(found.owner), field) {
            Some(kind) => Ok(Thing::Value(behind(eval, pos, worth, kind))),
            None => Ok(Thing::Bad),
        },
        Member::Method(method) => match method_kind(eval.definition(found.owner), method) {
            Some(signature) => Ok(Thing::Method(signature)),
            None => Ok(Thing::Bad),
        },
        Member::Formal(_) | Member::Value(_) => Ok(Thing::Bad),
    }
}

/// A field of a record.
fn field<'a>(
    eval: &mut Evaluator<'_, 'a>,
    record: &Worth<'a>,
    name: Name<'a>,
) -> Result<Thing<'a>, NoMemory> {
    let Some(Member::Field(field)) = own_member(eval, record.kind, name.text)? else {
        return Ok(Thing::Bad);
    };
    let Some(kind) = field_kind(eval.definition(record.kind), field) else {
        return Ok(Thing::Bad);
    };
    if kind == eval.declared.basic.refused {
        return Ok(Thing::Bad);
    }
    let value = match record.value {
        Known::Value(Value::Record(parts)) => match parts.get(field as usize) {
            Some(part) => match eval.stored(*part) {
                Some(value) => Known::Value(value),
                None => return Ok(Thing::Bad),
            },
            None => return Ok(Thing::Bad),
        },
        Known::Value(_) => return Ok(Thing::Bad),
        Known::Varies(reason) => Known::Varies(reason),
    };
    Ok(Thing::Value(Worth {
        kind,
        value,
        is_fixed: record.is_fixed,
    }))
}

/// The array that a value is or a reference to one leads to.
fn array_of<'a>(
    eval: &mut Evaluator<'_, 'a>,
    pos: Pos,
    worth: &Worth<'a>,
) -> Result<Option<Worth<'a>>, NoMemory> {
    if is_array(eval, worth.kind)? {
        return Ok(Some(*worth));
    }
    let seen = seen_structure(eval, worth.kind)?;
    if let TypeNode::RefTo(_, target) = eval.node(seen)? {
        if is_array(eval, target)? {
            return Ok(Some(behind(eval, pos, worth, target)));
        }
    }
    Ok(None)
}

/// An element of an array.
pub fn element<'a>(
    eval: &mut Evaluator<'_, 'a>,
    pos: Pos,
    array: Option<Worth<'a>>,
    index: Index<'a>,
) -> Result<Option<Worth<'a>>, NoMemory> {
    let (Some(array), Some(at)) = (array, index.worth) else {
        return Ok(None);
    };
    let Some(array) = array_of(eval, pos, &array)? else {
        return Ok(None);
    };
    let (wanted, kind, first) = match eval.node(array.kind)? {
        TypeNode::FixedArray(wanted, element) => {
            eval.node(wanted)?;
            (wanted, element, bounds_of(eval, wanted).0)
        }
        TypeNode::OpenArray(element) => (eval.declared.basic.integer, element, 0),
        _ => return Ok(None),
    };
    if kind == eval.declared.basic.refused {
        return Ok(None);
    }
    if !fits(eval, index.pos, at.kind, wanted, false)? {
        return Ok(None);
    }
    let value = match both(array.value, at.value) {
        Ok((Value::Array(parts, count), Value::Number(number))) => {
            match place_of(number, first, count) {
                Some(place) => match part_of(eval, parts, place) {
                    Some(value) => Known::Value(value),
                    None => return Ok(None),
                },
                None => Known::Varies(Reason {
                    pos: index.pos,
                    rule: rules::CONSTANT_OUT_OF_RANGE,
                }),
            }
        }
        Ok(_) => return Ok(None),
        Err(reason) => Known::Varies(reason),
    };
    let is_known = matches!(at.value, Known::Value(_));
    Ok(Some(Worth {
        kind,
        value,
        is_fixed: array.is_fixed && is_known,
    }))
}

/// The element at a place of a constant array, whose last listed element stands for the rest.
fn part_of<'a>(eval: &Evaluator<'_, 'a>, parts: &[ValueId], place: u64) -> Option<Value<'a>> {
    let place = usize::try_from(place).ok()?;
    let part = match parts.get(place) {
        Some(part) => part,
        None => parts.last()?,
    };
    eval.stored(*part)
}

/// The place of an index in an array whose first index is given, if the array has so many
/// elements.
fn place_of(index: i64, first: i64, count: u64) -> Option<u64> {
    if index < first {
        return None;
    }
    let place = index.wrapping_sub(first).cast_unsigned();
    if place < count { Some(place) } else { None }
}
