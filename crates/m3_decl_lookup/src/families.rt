use crate::declared::Declared;
use m3_types::{TypeId, TypeNode};

/// Types of which none can be assigned to one of another family, NIL aside.
#[derive(Clone, Copy, PartialEq, Eq)]
pub enum Family {
    Ordinal,
    Array,
    Record,
    Set,
    Procedure,
    Reference,
}

/// The family of a type, by its definition, where that is there.
pub fn family_of(node: TypeNode<'_>) -> Option<Family> {
    match node {
        TypeNode::Integer
        | TypeNode::Boolean
        | TypeNode::Character
        | TypeNode::Enumeration(_)
        | TypeNode::Subrange(_, _, _) => Some(Family::Ordinal),
        TypeNode::FixedArray(_, _) | TypeNode::OpenArray(_) => Some(Family::Array),
        TypeNode::Fields(_) => Some(Family::Record),
        TypeNode::SetOf(_) => Some(Family::Set),
        TypeNode::Procedure(_, _, _) => Some(Family::Procedure),
        TypeNode::Reserved | TypeNode::Constant(_) => None,
        _ => Some(Family::Reference),
    }
}

impl Declared<'_> {
    /// Whether the relations between two types hang on what was refused. Types of two families have
    /// none, whatever that may be.
    pub fn is_unsure(&self, a: TypeId, b: TypeId) -> bool {
        if !self.unsound.contains(&a) && !self.unsound.contains(&b) {
            return false;
        }
        match (self.family(a), self.family(b)) {
            (Some(one), Some(other)) => one == other,
            _ => true,
        }
    }

    fn family(&self, kind: TypeId) -> Option<Family> {
        family_of(*self.types.nodes.get(kind.0 as usize)?)
    }
}
