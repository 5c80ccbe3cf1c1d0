ghost use Rattle.std.specs.Prelude.{◌↔◌, IsTrue};
ghost use Rattle.m3_types_subtype.specs.Subtypes.{NullBelow, RefAnyAbove, RootAbove};

use m3_types::{
    TypeNode, has_nil_at, is_below_refany_at, is_below_root_at, is_null_at, is_refany_at,
    is_root_at,
};

/// Whether the first type is NULL and NIL belongs to the second.
pub(crate) fn null_below(nodes: &[TypeNode], a: usize, b: usize) -> bool
    ensures { IsTrue result ↔ NullBelow nodes.now a b }
{
    is_null_at(nodes, a) && has_nil_at(nodes, b)
}

/// Whether the second type is REFANY and above the first.
pub(crate) fn refany_above(nodes: &[TypeNode], a: usize, b: usize) -> bool
    ensures { IsTrue result ↔ RefAnyAbove nodes.now a b }
{
    is_refany_at(nodes, b) && is_below_refany_at(nodes, a)
}

/// Whether the second type is ROOT and above the first.
pub(crate) fn root_above(nodes: &[TypeNode], a: usize, b: usize) -> bool
    ensures { IsTrue result ↔ RootAbove nodes.now a b }
{
    is_root_at(nodes, b) && is_below_root_at(nodes, a)
}
