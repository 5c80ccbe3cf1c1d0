ghost use Rattle.std.specs.Prelude.{◌≡◌};
ghost use Rattle.std.specs.Option.{option_map};
ghost use Rattle.m3_types.specs.Definitions.{node_at};
ghost use Rattle.m3_layout.specs.Cells.{array_element};
ghost use Rattle.m3_layout.specs.Depths.{open_element, open_dims};

use m3_types::{TypeId, TypeNode};
use m3_types_sizes::SizedTypes;

/// No array that doesn't contain itself has more open dimensions, since places have 32 bits.
const MOST_DIMS: usize = 4_294_967_295;

/// The element type of an open array.
pub(crate) fn array_element(types: &SizedTypes, t: TypeId) -> Option<TypeId>
    ensures { option_map (λ u. u.0) result ≡ array_element
        (node_at types.now.graph.nodes.items t.0) }
{
    match types.graph.nodes.get(t.0 as usize) {
        Some(TypeNode::OpenArray(element)) => Some(*element),
        _ => None,
    }
}

/// The element type below all open dimensions of a type, and their number; the type itself and 0
/// where it is no open array.
pub(crate) fn open_element(types: &SizedTypes, t: TypeId) -> (TypeId, u32)
    ensures element { result.0.0 ≡ open_element types.now.graph.nodes.items t.0 }
    ensures dims { result.1 ≡ open_dims types.now.graph.nodes.items t.0 }
{
    let mut element = t;
    let mut dims = 0u32;
    for _dim in 0..types.graph.nodes.len().min(MOST_DIMS) {
        match array_element(types, element) {
            Some(below) => {
                element = below;
                dims += 1;
            }
            None => return (element, dims),
        }
    }
    (element, dims)
}
