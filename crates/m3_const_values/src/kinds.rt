use crate::evaluator::{Assumed, Evaluator};
use m3_base::{NoMemory, Pos};
use m3_decl_lookup::{Family, family_of};
use m3_types::{TypeId, TypeNode};
use m3_types_subtype::{Assign, assignable, structure, subtype};

/// The base type of an ordinal type; every other type is its own.
pub fn base_of(eval: &Evaluator<'_, '_>, kind: TypeId) -> TypeId {
    match eval.definition(kind) {
        TypeNode::Subrange(base, _, _) => base,
        _ => kind,
    }
}

/// The definition of a type that NIL doesn't belong to; of another nothing is lacking.
pub fn plain_node<'a>(
    eval: &mut Evaluator<'_, 'a>,
    kind: TypeId,
) -> Result<TypeNode<'a>, NoMemory> {
    if eval.nilable.contains(&kind) {
        return Ok(TypeNode::Reserved);
    }
    eval.node(kind)
}

/// Whether a type is ordinal.
pub fn is_ordinal(eval: &mut Evaluator<'_, '_>, kind: TypeId) -> Result<bool, NoMemory> {
    Ok(matches!(
        plain_node(eval, kind)?,
        TypeNode::Integer
            | TypeNode::Boolean
            | TypeNode::Character
            | TypeNode::Enumeration(_)
            | TypeNode::Subrange(_, _, _)
    ))
}

/// Whether a type is an array type.
pub fn is_array(eval: &mut Evaluator<'_, '_>, kind: TypeId) -> Result<bool, NoMemory> {
    Ok(matches!(
        plain_node(eval, kind)?,
        TypeNode::FixedArray(_, _) | TypeNode::OpenArray(_)
    ))
}

/// The first and the last member of an ordinal type.
pub fn bounds_of(eval: &Evaluator<'_, '_>, kind: TypeId) -> (i64, i64) {
    match eval.definition(kind) {
        TypeNode::Boolean => (0, 1),
        TypeNode::Character => (0, 255),
        TypeNode::Enumeration(names) => (0, last_place(names.len())),
        TypeNode::Subrange(_, first, last) => (first, last),
        _ => (i64::MIN, i64::MAX),
    }
}

/// Whether a type's base is INTEGER.
pub fn is_integer(eval: &mut Evaluator<'_, '_>, kind: TypeId) -> Result<bool, NoMemory> {
    plain_node(eval, kind)?;
    Ok(base_of(eval, kind) == eval.declared.basic.integer)
}

/// Whether a type's base is BOOLEAN.
pub fn is_boolean(eval: &mut Evaluator<'_, '_>, kind: TypeId) -> Result<bool, NoMemory> {
    plain_node(eval, kind)?;
    Ok(base_of(eval, kind) == eval.declared.basic.boolean)
}

/// Whether two types are the same.
pub fn are_same(eval: &Evaluator<'_, '_>, a: TypeId, b: TypeId) -> Result<bool, NoMemory> {
    if a == b {
        return Ok(true);
    }
    m3_types_subtype::same(eval.alloc, &eval.declared.types, a, b)
}

/// Whether both are ordinal types of one base.
pub fn share_base(eval: &mut Evaluator<'_, '_>, a: TypeId, b: TypeId) -> Result<bool, NoMemory> {
    if !is_ordinal(eval, a)? || !is_ordinal(eval, b)? {
        return Ok(false);
    }
    are_same(eval, base_of(eval, a), base_of(eval, b))
}

/// Whether both are set types, and the same.
pub fn are_sets(eval: &mut Evaluator<'_, '_>, a: TypeId, b: TypeId) -> Result<bool, NoMemory> {
    let left = plain_node(eval, a)?;
    let right = plain_node(eval, b)?;
    if let (TypeNode::SetOf(base), TypeNode::SetOf(other)) = (left, right) {
        eval.node(base)?;
        eval.node(other)?;
        return are_same(eval, a, b);
    }
    Ok(false)
}

/// Whether a type is a subtype of another in the view of the unit, or that hangs on what was
/// refused.
pub fn is_subtype(eval: &Evaluator<'_, '_>, a: TypeId, b: TypeId) -> Result<bool, NoMemory> {
    if a == b || eval.declared.is_unsure(a, b) {
        return Ok(true);
    }
    subtype(eval.alloc, &eval.declared.types, eval.unit, a, b)
}

/// Whether values of a type can be assigned to another in the view of the unit, or that hangs on
/// what was refused.
pub fn assignability(eval: &Evaluator<'_, '_>, a: TypeId, b: TypeId) -> Result<Assign, NoMemory> {
    if a == b || eval.declared.is_unsure(a, b) {
        return Ok(Assign::Yes);
    }
    assignable(eval.alloc, &eval.declared.types, eval.unit, a, b)
}

/// The structure that the unit sees of a type.
pub fn seen_structure(eval: &Evaluator<'_, '_>, kind: TypeId) -> Result<TypeId, NoMemory> {
    if eval.is_complete {
        return structure(eval.alloc, &eval.declared.types, eval.unit, kind);
    }
    Ok(seen_early(eval, kind))
}

/// The same before the definitions of all types are there, and without choosing among partial
/// reveals.
fn seen_early(eval: &Evaluator<'_, '_>, kind: TypeId) -> TypeId {
    let mut kind = kind;
    for _ in 0..eval.declared.types.nodes.len() {
        let TypeNode::Opaque(bound, _) = eval.definition(kind) else {
            return kind;
        };
        kind = match eval.early.get(&(eval.unit, kind)).copied() {
            Some(reveal) => reveal.bound,
            None => bound,
        };
    }
    kind
}

/// Whether a value of one type can be assigned to another; none where this takes more than is
/// known of the types as long as they are worked out.
fn fits_surely(
    eval: &mut Evaluator<'_, '_>,
    from: TypeId,
    to: TypeId,
) -> Result<Option<bool>, NoMemory> {
    if from == to {
        return Ok(Some(true));
    }
    if eval.is_complete {
        return Ok(Some(assignability(eval, from, to)? != Assign::No));
    }
    if from == eval.declared.basic.null && eval.nilable.contains(&to) {
        return Ok(Some(true));
    }
    let is_from_ordinal = is_ordinal(eval, from)?;
    if is_from_ordinal != is_ordinal(eval, to)? {
        return Ok(Some(false));
    }
    let is_simple = is_from_ordinal
        || from == eval.declared.basic.null
        || are_sets(eval, from, to)?;
    if is_simple {
        return Ok(Some(assignability(eval, from, to)? != Assign::No));
    }
    match (family_of_type(eval, from)?, family_of_type(eval, to)?) {
        (Some(one), Some(other)) if one != other => Ok(Some(false)),
        _ => Ok(None),
    }
}

/// The family of a type, where its definition is there.
fn family_of_type(eval: &mut Evaluator<'_, '_>, kind: TypeId) -> Result<Option<Family>, NoMemory> {
    Ok(family_of(plain_node(eval, kind)?))
}

/// Whether a value of one type can be assigned to another. Where it takes types that aren't
/// worked out yet, it is assumed. Where it hangs on what was refused, a value inside an expression
/// has no worth.
pub fn fits(
    eval: &mut Evaluator<'_, '_>,
    pos: Pos,
    from: TypeId,
    to: TypeId,
    is_wanted: bool,
) -> Result<bool, NoMemory> {
    if !is_wanted && eval.declared.is_unsure(from, to) {
        return Ok(false);
    }
    if let Some(fits) = fits_surely(eval, from, to)? {
        return Ok(fits);
    }
    let unit = eval.unit;
    eval.assumed.push(Assumed {
        unit,
        pos,
        from,
        to,
        either: false,
        is_wanted,
    })?;
    Ok(true)
}

/// Whether values of two types can be compared: one can be assigned to the other.
pub fn are_comparable(
    eval: &mut Evaluator<'_, '_>,
    pos: Pos,
    a: TypeId,
    b: TypeId,
) -> Result<bool, NoMemory> {
    if eval.declared.is_unsure(a, b) {
        return Ok(false);
    }
    let one = fits_surely(eval, a, b)?;
    if one == Some(true) {
        return Ok(true);
    }
    let other = fits_surely(eval, b, a)?;
    if one.is_some() {
        if let Some(other) = other {
            return Ok(other);
        }
    }
    if other == Some(true) {
        return Ok(true);
    }
    let unit = eval.unit;
    eval.assumed.push(Assumed {
        unit,
        pos,
        from: a,
        to: b,
        either: true,
        is_wanted: false,
    })?;
    Ok(true)
}

/// The last place of a list, -1 where it is empty.
fn last_place(count: usize) -> i64 {
    match i64::try_from(count) {
        Ok(count) => count.wrapping_sub(1),
        Err(_) => i64::MAX,
    }
}

/// Whether a type is one of references, as far as its definition is there.
pub fn is_known_reference<'a>(eval: &Evaluator<'_, 'a>, kind: TypeId) -> bool {
    matches!(
        eval.definition(kind),
        TypeNode::RefTo(_, _)
            | TypeNode::Object(_, _, _, _, _)
            | TypeNode::Opaque(_, _)
            | TypeNode::Null
            | TypeNode::RefAny
            | TypeNode::Text
            | TypeNode::Mutex
            | TypeNode::Root
    )
}

/// Whether a type is one of references; a definition that isn't there yet is lacking.
pub fn is_reference<'a>(eval: &mut Evaluator<'_, 'a>, kind: TypeId) -> Result<bool, NoMemory> {
    eval.node(kind)?;
    Ok(is_known_reference(eval, kind))
}
