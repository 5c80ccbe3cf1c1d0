use crate::program::Program;
use crate::types::{depth, kind_of, node_of};
use m3_base::NoMemory;
use m3_types::{Field, Secret, TypeId, TypeNode};

/// An opaque type stands for the type that fully reveals it, whatever a unit sees.
pub fn unveiled(p: &Program<'_>, t: TypeId) -> TypeId {
    match p.unveiled.get(t.0 as usize) {
        Some(full) => *full,
        None => t,
    }
}

/// The type above an object type.
pub fn parent(p: &Program<'_>, t: TypeId) -> Option<TypeId> {
    match node_of(p, t) {
        TypeNode::Object(_, parent, _, _, _) => Some(unveiled(p, parent)),
        _ => None,
    }
}

/// A type's ancestors and the type itself, the topmost first.
pub(crate) fn line(p: &Program<'_>, t: TypeId) -> Result<Vec<TypeId>, NoMemory> {
    let mut types = Vec::new(p.alloc);
    let mut at = Some(t);
    'line: for _ in 0..depth(p) {
        let Some(kind) = at else {
            break 'line;
        };
        types.push(kind)?;
        at = parent(p, kind);
    }
    types.reverse();
    Ok(types)
}

/// The fields that an object type adds to its parent's.
fn fields_of<'m>(p: &Program<'m>, t: TypeId) -> &'m [Field<'m>] {
    let node = node_of(p, t);
    if let TypeNode::Object(_, _, fields, _, _) = node {
        return fields;
    }
    if let TypeNode::Fields(fields) = node {
        return fields;
    }
    &[]
}

/// The fields of an object, those of its ancestors first.
pub fn object_fields<'m>(p: &Program<'m>, t: TypeId) -> Result<Vec<Field<'m>>, NoMemory> {
    let mut fields = Vec::new(p.alloc);
    for kind in &line(p, t)? {
        fields.extend_from_slice(fields_of(p, *kind))?;
    }
    Ok(fields)
}

/// The place of a field among those of an object, by the type that declares it.
pub fn object_field(p: &Program<'_>, owner: TypeId, field: u32) -> u32 {
    let mut above = 0usize;
    let mut at = parent(p, owner);
    'above: for _ in 0..depth(p) {
        let Some(kind) = at else {
            break 'above;
        };
        above = above.saturating_add(fields_of(p, kind).len());
        at = parent(p, kind);
    }
    match u32::try_from(above.saturating_add(field as usize)) {
        Ok(place) => place,
        Err(_) => u32::MAX,
    }
}

/// Whether a type itself, or an ancestor of it, is the same as another one.
pub fn is_below(p: &Program<'_>, t: TypeId, other: TypeId) -> bool {
    let mut at = t;
    for _ in 0..depth(p) {
        if kind_of(p, at) == kind_of(p, other) {
            return true;
        }
        match parent(p, at) {
            Some(above) => at = above,
            None => return false,
        }
    }
    false
}

/// Whether the cells of a type are mutexes.
pub fn is_mutex(p: &Program<'_>, t: TypeId) -> bool {
    let mut at = t;
    for _ in 0..depth(p) {
        if matches!(node_of(p, at), TypeNode::Mutex) {
            return true;
        }
        match parent(p, at) {
            Some(above) => at = above,
            None => return false,
        }
    }
    false
}

/// Whether a type's values are objects or NIL.
pub(crate) fn is_object(p: &Program<'_>, t: TypeId) -> bool {
    matches!(
        node_of(p, t),
        TypeNode::Object(_, _, _, _, _)
            | TypeNode::Root
            | TypeNode::Mutex
            | TypeNode::Opaque(_, Secret::Condition | Secret::Thread)
    )
}
