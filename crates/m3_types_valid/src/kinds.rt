ghost use Rattle.std.specs.Prelude.{◌↔◌, IsTrue};
ghost use Rattle.m3_types_valid.specs.Forms.{DefinesBase, IsType, IsConstant, IsBase, IsOrdinal};
ghost use Rattle.m3_types_valid.specs.Forms.{IsParent, IsProcedure};

use m3_types::TypeNode;

pub(crate) fn is_type_at(nodes: &[TypeNode], place: usize) -> bool
    ensures { IsTrue result ↔ IsType nodes.now place }
{
    match nodes.get(place) {
        None | Some(TypeNode::Reserved) | Some(TypeNode::Constant(_)) => false,
        Some(_) => true,
    }
}

pub(crate) fn is_constant_at(nodes: &[TypeNode], place: usize) -> bool
    ensures { IsTrue result ↔ IsConstant nodes.now place }
{
    matches!(nodes.get(place), Some(TypeNode::Constant(_)))
}

/// INTEGER, BOOLEAN, CHAR or an enumeration.
pub(crate) fn is_base_at(nodes: &[TypeNode], place: usize) -> bool
    ensures { IsTrue result ↔ IsBase nodes.now place }
{
    matches!(
        nodes.get(place),
        Some(TypeNode::Integer)
            | Some(TypeNode::Boolean)
            | Some(TypeNode::Character)
            | Some(TypeNode::Enumeration(_))
    )
}

pub(crate) fn is_ordinal_at(nodes: &[TypeNode], place: usize) -> bool
    ensures { IsTrue result ↔ IsOrdinal nodes.now place }
{
    match nodes.get(place) {
        Some(TypeNode::Subrange(_, _, _)) => true,
        _ => is_base_at(nodes, place),
    }
}

/// A type that an object type may add to.
pub(crate) fn is_parent_at(nodes: &[TypeNode], place: usize) -> bool
    ensures { IsTrue result ↔ IsParent nodes.now place }
{
    matches!(
        nodes.get(place),
        Some(TypeNode::Object(_, _, _, _, _))
            | Some(TypeNode::Opaque(_, _))
            | Some(TypeNode::Mutex)
            | Some(TypeNode::Root)
    )
}

pub(crate) fn is_procedure_at(nodes: &[TypeNode], place: usize) -> bool
    ensures { IsTrue result ↔ IsProcedure nodes.now place }
{
    matches!(nodes.get(place), Some(TypeNode::Procedure(_, _, _)))
}
