ghost use Rattle.std.specs.Prelude.{◌≡◌, ◌↔◌, ℕ, IsTrue};
ghost use Rattle.m3_types.specs.Definitions.{head_at, head_of, node_at, AnOpaque, ANull, ARefAny, ARoot};
ghost use Rattle.m3_types.specs.Kinds.{is_reference, has_nil, is_below_refany, is_below_root, named_above, span, size_of};
ghost use Rattle.std.specs.Option.{option_map};

use crate::nodes::{TypeId, TypeNode};

/// The definition at a place; none past the end of the list.
pub fn node_at<'a>(nodes: &[TypeNode<'a>], place: usize) -> Option<TypeNode<'a>>
    ensures { result ≡ node_at nodes.now place }
{
    nodes.get(place).copied()
}

pub fn is_reference_at(nodes: &[TypeNode], place: usize) -> bool
    ensures { result ≡ is_reference (head_at nodes.now place) }
{
    match nodes.get(place) {
        Some(node) => matches!(
            node,
            TypeNode::RefTo(_, _)
                | TypeNode::Object(_, _, _, _, _)
                | TypeNode::Opaque(_, _)
                | TypeNode::Null
                | TypeNode::RefAny
                | TypeNode::Text
                | TypeNode::Mutex
                | TypeNode::Root
        ),
        None => false,
    }
}

pub fn has_nil_at(nodes: &[TypeNode], place: usize) -> bool
    ensures { result ≡ has_nil (head_at nodes.now place) }
{
    match nodes.get(place) {
        Some(TypeNode::Procedure(_, _, _)) => true,
        _ => is_reference_at(nodes, place),
    }
}

pub fn is_below_refany_at(nodes: &[TypeNode], place: usize) -> bool
    ensures { result ≡ is_below_refany (head_at nodes.now place) }
{
    match nodes.get(place) {
        Some(node) => matches!(
            node,
            TypeNode::RefTo(_, _)
                | TypeNode::Object(_, _, _, _, _)
                | TypeNode::Text
                | TypeNode::Root
                | TypeNode::Mutex
        ),
        None => false,
    }
}

pub fn is_below_root_at(nodes: &[TypeNode], place: usize) -> bool
    ensures { result ≡ is_below_root (head_at nodes.now place) }
{
    match nodes.get(place) {
        Some(node) => matches!(node, TypeNode::Object(_, _, _, _, _) | TypeNode::Mutex),
        None => false,
    }
}

pub fn is_null_at(nodes: &[TypeNode], place: usize) -> bool
    ensures { IsTrue result ↔ (head_at nodes.now place ≡ ANull) }
{
    match nodes.get(place) {
        Some(node) => matches!(node, TypeNode::Null),
        None => false,
    }
}

pub fn is_refany_at(nodes: &[TypeNode], place: usize) -> bool
    ensures { IsTrue result ↔ (head_at nodes.now place ≡ ARefAny) }
{
    match nodes.get(place) {
        Some(node) => matches!(node, TypeNode::RefAny),
        None => false,
    }
}

pub fn is_root_at(nodes: &[TypeNode], place: usize) -> bool
    ensures { IsTrue result ↔ (head_at nodes.now place ≡ ARoot) }
{
    match nodes.get(place) {
        Some(node) => matches!(node, TypeNode::Root),
        None => false,
    }
}

pub fn is_opaque_at(nodes: &[TypeNode], place: usize) -> bool
    ensures { IsTrue result ↔ (head_at nodes.now place ≡ AnOpaque place) }
{
    match nodes.get(place) {
        Some(node) => matches!(node, TypeNode::Opaque(_, _)),
        None => false,
    }
}

/// What a type's own definition puts above it: the base of a subrange, the parent of an object type,
/// the bound of an opaque type.
pub fn named_above_at(nodes: &[TypeNode], place: usize) -> Option<TypeId>
    ensures { option_map (λ t. t.0) result ≡ named_above (node_at nodes.now place) }
{
    match nodes.get(place) {
        Some(TypeNode::Subrange(above, _, _))
        | Some(TypeNode::Object(_, above, _, _, _))
        | Some(TypeNode::Opaque(above, _)) => Some(*above),
        _ => None,
    }
}

/// The number of members of a range.
pub fn span(first: i64, last: i64) -> u128
    ensures { result ≡ span first last }
{
    let gap = i128::from(last) - i128::from(first);
    if gap < 0 { 0 } else { gap as u128 + 1 }
}

fn size_of_node(node: &TypeNode) -> u128
    ensures { (place : ℕ) → result ≡ size_of (head_of place node.now) }
{
    match node {
        TypeNode::Integer => 1 << 64,
        TypeNode::Boolean => 2,
        TypeNode::Character => 256,
        TypeNode::Enumeration(names) => names.len() as u128,
        TypeNode::Subrange(_, first, last) => span(*first, *last),
        _ => 0,
    }
}

/// The number of members of an ordinal type, and 0 where a type isn't one.
pub fn size_at(nodes: &[TypeNode], place: usize) -> u128
    ensures { result ≡ size_of (head_at nodes.now place) }
{
    match nodes.get(place) {
        Some(node) => size_of_node(node),
        None => 0,
    }
}
