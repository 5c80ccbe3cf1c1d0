use crate::checker::Checker;
use m3_link_scopes::EntityKind;
use m3_syntax::Name;
use m3_types::{TypeId, TypeNode};

impl<'a> Checker<'_, 'a> {
    /// The definition of a type.
    pub fn node(&self, kind: TypeId) -> TypeNode<'a> {
        match self.declared.types.nodes.get(kind.0 as usize) {
            Some(node) => *node,
            None => TypeNode::Reserved,
        }
    }

    /// Whether it stands for a type that was refused, or for an array type with such an index.
    pub fn is_refused(&self, kind: TypeId) -> bool {
        match self.node(kind) {
            TypeNode::Reserved => true,
            TypeNode::FixedArray(index, _) => matches!(self.node(index), TypeNode::Reserved),
            _ => false,
        }
    }

    /// Whether the relations between two types hang on what was refused.
    pub fn is_unsure(&self, a: TypeId, b: TypeId) -> bool {
        self.is_refused(a) || self.is_refused(b) || self.declared.is_unsure(a, b)
    }

    /// Whether the text of a type breaks a rule or hangs on what was refused.
    pub fn is_flawed(&self, kind: TypeId) -> bool {
        self.declared.flawed.contains(&kind)
    }

    /// The type of a variable by the name that declares it, where it is known.
    pub fn kind_of_variable(&self, name: Name<'a>) -> Option<TypeId> {
        let id = self.program.binds.at(self.unit, name.pos)?;
        let entity = self.program.binds.entity(id)?;
        if entity.kind == EntityKind::Variable {
            self.declared.kind_of(id)
        } else {
            None
        }
    }
}
