//! The types of the programs that are judged.
use bumpalo::Bump;
use m3_base::NoMemory;
use m3_types::{Field, Formal, Method, Mode, Raises, TypeGraph, TypeId, TypeNode};
use m3_types_sizes::SizedTypes;
use std::alloc::Global;

pub const INTEGER: TypeId = TypeId(0);
/// PROCEDURE ().
pub const PLAIN: TypeId = TypeId(1);
/// RECORD a, b: INTEGER END.
pub const RECORD: TypeId = TypeId(2);
/// REF of that record.
pub const REFERENCE: TypeId = TypeId(3);
/// ARRAY OF INTEGER.
pub const OPEN: TypeId = TypeId(4);
/// REF of that array.
pub const OPEN_REFERENCE: TypeId = TypeId(5);
/// PROCEDURE (x: INTEGER): INTEGER.
pub const FUNCTION: TypeId = TypeId(6);

pub const ROOT: TypeId = TypeId(7);
/// OBJECT f: INTEGER METHODS m(x: INTEGER): INTEGER END.
pub const OBJECT: TypeId = TypeId(8);
/// ARRAY OF ARRAY OF INTEGER.
pub const ROWS: TypeId = TypeId(9);

const PAIR: TypeId = TypeId(10);
/// ARRAY [0..1] OF INTEGER.
pub const FIXED: TypeId = TypeId(11);
/// A type that no program has.
pub const NONE: TypeId = TypeId(99);

fn field<'a>(name: &'a [u8]) -> Field<'a> {
    Field {
        name,
        kind: INTEGER,
        default: None,
    }
}

fn formals_of<'a>(arena: &'a Bump) -> Result<&'a [Formal<'a>], NoMemory> {
    let formal = Formal {
        name: b"x",
        mode: Mode::Value,
        kind: INTEGER,
        default: None,
    };
    Ok(&*arena.try_alloc_slice_copy(&[formal])?)
}

fn methods_of<'a>(arena: &'a Bump) -> Result<&'a [Method<'a>], NoMemory> {
    let method = Method {
        name: b"m",
        signature: FUNCTION,
        default: None,
    };
    Ok(&*arena.try_alloc_slice_copy(&[method])?)
}

fn object_node<'a>(arena: &'a Bump) -> Result<TypeNode<'a>, NoMemory> {
    let part = &*arena.try_alloc_slice_copy(&[field(b"f")])?;
    let methods = methods_of(arena)?;
    Ok(TypeNode::Object(None, ROOT, part, methods, &[]))
}

/// The definitions of the types above, in order.
fn nodes_of<'a>(arena: &'a Bump) -> Result<&'a [TypeNode<'a>], NoMemory> {
    let fields = &*arena.try_alloc_slice_copy(&[field(b"a"), field(b"b")])?;
    let formals = formals_of(arena)?;
    let nodes = [
        TypeNode::Integer,
        TypeNode::Procedure(&[], None, Raises::Any),
        TypeNode::Fields(fields),
        TypeNode::RefTo(None, RECORD),
        TypeNode::OpenArray(INTEGER),
        TypeNode::RefTo(None, OPEN),
        TypeNode::Procedure(formals, Some(INTEGER), Raises::Any),
        TypeNode::Root,
        object_node(arena)?,
        TypeNode::OpenArray(OPEN),
        TypeNode::Subrange(INTEGER, 0, 1),
        TypeNode::FixedArray(PAIR, INTEGER),
    ];
    Ok(&*arena.try_alloc_slice_copy(&nodes)?)
}

/// The types above.
pub fn types_of<'a>(alloc: Global, arena: &'a Bump) -> Result<SizedTypes<'a>, NoMemory> {
    let mut graph = TypeGraph::new(alloc);
    for node in nodes_of(arena)? {
        graph.push(*node)?;
    }
    SizedTypes::measure(alloc, graph)
}
