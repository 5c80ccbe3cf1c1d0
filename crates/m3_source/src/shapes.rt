use crate::expressions::kind_of;
use m3_core::{CoreExpr, Value, ValueId};
use m3_types::{TypeGraph, TypeId, TypeNode};

/// An array as far as constants fix its shape: by its elements, which are written out; by its
/// value; or by its type alone.
#[derive(Clone, Copy)]
pub enum KnownShape<'e> {
    Written {
        kind: TypeId,
        elements: &'e [CoreExpr<'e>],
    },
    Constant {
        kind: TypeId,
        value: ValueId,
    },
    Typed(Option<TypeId>),
}

impl<'e> KnownShape<'e> {
    /// What is known of an expression. A check changes no shape.
    pub fn of(e: &'e CoreExpr<'e>) -> KnownShape<'e> {
        match e {
            CoreExpr::Convert { operand, .. } => KnownShape::of(operand),
            CoreExpr::ArrayOf { kind, elements, .. } => KnownShape::Written {
                kind: *kind,
                elements,
            },
            CoreExpr::Constant { kind, value, .. } => KnownShape::Constant {
                kind: *kind,
                value: *value,
            },
            _ => KnownShape::Typed(kind_of(e)),
        }
    }

    /// How many elements the outermost dimension has, and what is known of the first of them. An
    /// open dimension of which nothing is known but its type has none.
    pub fn outermost(self, types: &TypeGraph, values: &[Value]) -> (u64, KnownShape<'e>) {
        match self.node(types) {
            TypeNode::FixedArray(index, element) => {
                let count = u64::try_from(types.member_count(index)).unwrap_or(u64::MAX);
                (count, KnownShape::Typed(Some(element)))
            }
            TypeNode::OpenArray(element) => self.outermost_open(values, element),
            _ => (0, self),
        }
    }

    /// How many elements there are below so many dimensions; 2^64 - 1 where there are more.
    pub fn elements(self, types: &TypeGraph, values: &[Value], dims: u64) -> u64 {
        let mut count = 1u64;
        let mut shape = self;
        for _ in 0..dims {
            let (size, row) = shape.outermost(types, values);
            count = count.saturating_mul(size);
            shape = row;
        }
        count
    }

    /// The type's definition.
    fn node<'a>(self, types: &TypeGraph<'a>) -> TypeNode<'a> {
        let kind = match self {
            KnownShape::Written { kind, .. } | KnownShape::Constant { kind, .. } => Some(kind),
            KnownShape::Typed(kind) => kind,
        };
        match kind {
            Some(kind) => match types.nodes.get(kind.0 as usize) {
                Some(node) => *node,
                None => TypeNode::Reserved,
            },
            None => TypeNode::Reserved,
        }
    }

    fn outermost_open(self, values: &[Value], element: TypeId) -> (u64, KnownShape<'e>) {
        let by_type = KnownShape::Typed(Some(element));
        match self {
            KnownShape::Written { elements, .. } => match elements.first() {
                Some(first) => (elements.len() as u64, KnownShape::of(first)),
                None => (0, by_type),
            },
            KnownShape::Constant { value, .. } => match values.get(value.0 as usize) {
                Some(Value::Array(elements, count)) => match elements.first() {
                    Some(first) => (
                        *count,
                        KnownShape::Constant {
                            kind: element,
                            value: *first,
                        },
                    ),
                    None => (*count, by_type),
                },
                _ => (0, by_type),
            },
            KnownShape::Typed(_) => (0, by_type),
        }
    }
}
