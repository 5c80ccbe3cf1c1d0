use crate::declared::Basic;
use m3_link_scopes::Predeclared;
use m3_types::{TypeId, TypeNode};

impl Basic {
    /// The type that a predeclared name stands for, where it is one's.
    pub fn named(&self, name: Predeclared) -> Option<TypeId> {
        match name {
            Predeclared::Boolean => Some(self.boolean),
            Predeclared::Cardinal => Some(self.cardinal),
            Predeclared::Char => Some(self.character),
            Predeclared::Integer => Some(self.integer),
            Predeclared::Mutex => Some(self.mutex),
            Predeclared::Null => Some(self.null),
            Predeclared::Refany => Some(self.refany),
            Predeclared::Text => Some(self.text),
            _ => None,
        }
    }
}

/// The type of a field, by the definition of the type that declares it.
pub fn field_kind(owner: TypeNode<'_>, field: u32) -> Option<TypeId> {
    match owner {
        TypeNode::Fields(fields) | TypeNode::Object(_, _, fields, _, _) => {
            match fields.get(field as usize) {
                Some(field) => Some(field.kind),
                None => None,
            }
        }
        _ => None,
    }
}

/// The signature of a method, by the definition of the type that declares it.
pub fn method_kind(owner: TypeNode<'_>, method: u32) -> Option<TypeId> {
    match owner {
        TypeNode::Object(_, _, _, methods, _) => match methods.get(method as usize) {
            Some(method) => Some(method.signature),
            None => None,
        },
        _ => None,
    }
}
