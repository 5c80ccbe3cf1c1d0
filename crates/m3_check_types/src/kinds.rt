use m3_base::NoMemory;
use m3_check_state::Checker;
use m3_types::{TypeId, TypeNode};
use m3_types_subtype::{Assign, assignable, subtype};

/// The base type of an ordinal type; every other type is its own.
pub fn base_of(checker: &Checker<'_, '_>, kind: TypeId) -> TypeId {
    match checker.node(kind) {
        TypeNode::Subrange(base, _, _) => base,
        _ => kind,
    }
}

/// Whether a type is ordinal.
pub fn is_ordinal(checker: &Checker<'_, '_>, kind: TypeId) -> bool {
    matches!(
        checker.node(kind),
        TypeNode::Integer
            | TypeNode::Boolean
            | TypeNode::Character
            | TypeNode::Enumeration(_)
            | TypeNode::Subrange(_, _, _)
    )
}

/// Whether a type is an array type.
pub fn is_array(checker: &Checker<'_, '_>, kind: TypeId) -> bool {
    matches!(
        checker.node(kind),
        TypeNode::FixedArray(_, _) | TypeNode::OpenArray(_)
    )
}

/// Whether a type is an open array type.
pub fn is_open(checker: &Checker<'_, '_>, kind: TypeId) -> bool {
    matches!(checker.node(kind), TypeNode::OpenArray(_))
}

/// Whether a type is one of references.
pub fn is_reference(checker: &Checker<'_, '_>, kind: TypeId) -> bool {
    m3_types::is_reference_at(checker.declared.types.nodes.as_slice(), kind.0 as usize)
}

/// Whether a type is a procedure type.
pub fn is_procedure(checker: &Checker<'_, '_>, kind: TypeId) -> bool {
    matches!(checker.node(kind), TypeNode::Procedure(_, _, _))
}

/// Whether a type's base is INTEGER.
pub fn is_integer(checker: &Checker<'_, '_>, kind: TypeId) -> bool {
    matches!(checker.node(base_of(checker, kind)), TypeNode::Integer)
}

/// Whether a type's base is BOOLEAN.
pub fn is_boolean(checker: &Checker<'_, '_>, kind: TypeId) -> bool {
    matches!(checker.node(base_of(checker, kind)), TypeNode::Boolean)
}

/// The element type of an array.
pub fn element_type(checker: &Checker<'_, '_>, kind: TypeId) -> Option<TypeId> {
    match checker.node(kind) {
        TypeNode::FixedArray(_, element) | TypeNode::OpenArray(element) => Some(element),
        _ => None,
    }
}

/// The first and the last member of an ordinal type.
pub fn ordinal_bounds(checker: &Checker<'_, '_>, kind: TypeId) -> (i64, i64) {
    match checker.node(kind) {
        TypeNode::Boolean => (0, 1),
        TypeNode::Character => (0, 255),
        TypeNode::Enumeration(names) => match i64::try_from(names.len()) {
            Ok(members) => (0, members.saturating_sub(1)),
            Err(_) => (0, i64::MAX),
        },
        TypeNode::Subrange(_, first, last) => (first, last),
        _ => (i64::MIN, i64::MAX),
    }
}

/// The result type of a signature.
pub fn result_type(checker: &Checker<'_, '_>, signature: TypeId) -> Option<TypeId> {
    match checker.node(signature) {
        TypeNode::Procedure(_, result, _) => result,
        _ => None,
    }
}

/// Whether two types are the same, or that hangs on what was refused.
pub fn are_same(checker: &Checker<'_, '_>, a: TypeId, b: TypeId) -> Result<bool, NoMemory> {
    if a == b || checker.is_unsure(a, b) {
        return Ok(true);
    }
    m3_types_subtype::same(checker.alloc, &checker.declared.types, a, b)
}

/// Whether a type is a subtype of another in the unit's view, or that hangs on what was refused.
pub fn is_subtype(checker: &Checker<'_, '_>, a: TypeId, b: TypeId) -> Result<bool, NoMemory> {
    if a == b || checker.is_unsure(a, b) {
        return Ok(true);
    }
    subtype(checker.alloc, &checker.declared.types, checker.unit, a, b)
}

/// Whether values of a type can be assigned to another in the unit's view, or that hangs on what
/// was refused.
pub fn assignability(checker: &Checker<'_, '_>, a: TypeId, b: TypeId) -> Result<Assign, NoMemory> {
    if a == b || checker.is_unsure(a, b) {
        return Ok(Assign::Yes);
    }
    assignable(checker.alloc, &checker.declared.types, checker.unit, a, b)
}

/// Whether a type is assignable to another in the unit's view.
pub fn fits(checker: &Checker<'_, '_>, a: TypeId, b: TypeId) -> Result<bool, NoMemory> {
    Ok(!matches!(assignability(checker, a, b)?, Assign::No))
}

/// Whether two ordinal types have one base type.
pub fn share_base(checker: &Checker<'_, '_>, a: TypeId, b: TypeId) -> Result<bool, NoMemory> {
    if !is_ordinal(checker, a) || !is_ordinal(checker, b) {
        return Ok(false);
    }
    are_same(checker, base_of(checker, a), base_of(checker, b))
}
