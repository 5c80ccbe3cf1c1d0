use crate::program::Program;
use bumpalo::collections::into_bump_slice;
use m3_base::NoMemory;
use m3_types::{Formal, Method, TypeId, TypeNode, is_reference_at, size_at};

/// The numbers of the first and the last member of an ordinal type.
#[derive(Clone, Copy)]
pub struct Bounds {
    pub first: i64,
    pub last: i64,
}

/// The definition of a type; that of a reserved place where there is none.
pub fn node_of<'m>(p: &Program<'m>, t: TypeId) -> TypeNode<'m> {
    match p.nodes.get(t.0 as usize) {
        Some(node) => *node,
        None => TypeNode::Reserved,
    }
}

/// How far any chain or nesting of types of the program can go.
pub(crate) fn depth(p: &Program<'_>) -> usize {
    p.nodes.len()
}

/// The bounds of an ordinal type.
pub fn bounds_of(p: &Program<'_>, t: TypeId) -> Option<Bounds> {
    let (first, last) = match node_of(p, t) {
        TypeNode::Integer => (i64::MIN, i64::MAX),
        TypeNode::Boolean => (0, 1),
        TypeNode::Character => (0, 255),
        TypeNode::Enumeration(names) => (0, i64::try_from(names.len()).ok()?.checked_sub(1)?),
        TypeNode::Subrange(_, first, last) => (first, last),
        _ => return None,
    };
    Some(Bounds { first, last })
}

/// How many members a type has; none of what is no ordinal type.
fn members(p: &Program<'_>, t: TypeId) -> u64 {
    match u64::try_from(size_at(p.nodes, t.0 as usize)) {
        Ok(members) => members,
        Err(_) => u64::MAX,
    }
}

/// The type of the elements of an array.
pub fn element(p: &Program<'_>, t: TypeId) -> Option<TypeId> {
    match node_of(p, t) {
        TypeNode::FixedArray(_, element) | TypeNode::OpenArray(element) => Some(element),
        _ => None,
    }
}

pub fn is_open(p: &Program<'_>, t: TypeId) -> bool {
    matches!(node_of(p, t), TypeNode::OpenArray(_))
}

/// The bounds of the index type of a fixed array.
pub fn index_bounds(p: &Program<'_>, t: TypeId) -> Option<Bounds> {
    match node_of(p, t) {
        TypeNode::FixedArray(index, _) => bounds_of(p, index),
        _ => None,
    }
}

/// The index of the first element: 0 of an open array.
pub fn first_index(p: &Program<'_>, t: TypeId) -> i64 {
    match index_bounds(p, t) {
        Some(bounds) => bounds.first,
        None => 0,
    }
}

/// How many elements an array type says that there are: none of an open one.
pub fn elements(p: &Program<'_>, t: TypeId) -> u64 {
    match node_of(p, t) {
        TypeNode::FixedArray(index, _) => members(p, index),
        _ => 0,
    }
}

/// The sizes of all dimensions of an array type, as far as types say them.
pub fn type_shape<'m>(p: &Program<'m>, t: TypeId) -> Result<&'m [u64], NoMemory> {
    let mut sizes = Vec::new(p.arena);
    let mut at = t;
    'dimensions: for _ in 0..depth(p) {
        let Some(element) = element(p, at) else {
            break 'dimensions;
        };
        sizes.push(elements(p, at))?;
        at = element;
    }
    Ok(into_bump_slice(sizes))
}

/// The sizes that an array type says of its dimensions: none of an open one.
pub fn type_sizes(p: &Program<'_>, t: TypeId) -> Result<Vec<Option<u64>>, NoMemory> {
    let mut sizes = Vec::new(p.alloc);
    let mut at = t;
    'dimensions: for _ in 0..depth(p) {
        let Some(element) = element(p, at) else {
            break 'dimensions;
        };
        if is_open(p, at) {
            sizes.push(None)?;
        } else {
            sizes.push(Some(elements(p, at)))?;
        }
        at = element;
    }
    Ok(sizes)
}

/// How many open dimensions an array type has.
pub fn open_dimensions(p: &Program<'_>, t: TypeId) -> usize {
    let mut at = t;
    for dimensions in 0..depth(p) {
        match node_of(p, at) {
            TypeNode::OpenArray(element) => at = element,
            _ => return dimensions,
        }
    }
    depth(p)
}

/// The formals of a procedure type.
pub fn formals_of<'m>(p: &Program<'m>, t: TypeId) -> &'m [Formal<'m>] {
    if let TypeNode::Procedure(formals, _, _) = node_of(p, t) {
        return formals;
    }
    &[]
}

/// The methods that an object type adds.
pub fn methods_of_type<'m>(p: &Program<'m>, t: TypeId) -> &'m [Method<'m>] {
    if let TypeNode::Object(_, _, _, methods, _) = node_of(p, t) {
        return methods;
    }
    &[]
}

/// Types that are the same have cells of one kind: that of the first of them.
pub fn kind_of(p: &Program<'_>, t: TypeId) -> TypeId {
    match p.kinds.get(t.0 as usize) {
        Some(kind) => *kind,
        None => t,
    }
}

/// Whether a value of a type has a reference in it.
pub fn holds_reference(p: &Program<'_>, t: TypeId) -> bool {
    holds_reference_to(p, depth(p), t)
}

fn holds_reference_to(p: &Program<'_>, limit: usize, t: TypeId) -> bool {
    let Some(below) = limit.checked_sub(1) else {
        return false;
    };
    match node_of(p, t) {
        TypeNode::Fields(fields) => {
            for field in fields {
                if holds_reference_to(p, below, field.kind) {
                    return true;
                }
            }
            false
        }
        TypeNode::FixedArray(_, element) => holds_reference_to(p, below, element),
        _ => is_reference_at(p.nodes, t.0 as usize),
    }
}
