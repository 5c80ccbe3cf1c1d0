ghost use Rattle.std.specs.Prelude.{◌↔◌, IsTrue, IfOk};
ghost use Rattle.m3_types.specs.Definitions.{types_at};
ghost use Rattle.m3_types_subtype.specs.Sameness.{Matched, Same};

use crate::sameness::same_lists;
use m3_base::NoMemory;
use m3_types::{TypeNode, types_at};
use std::alloc::Global;

/// Whether the types that two types name are the same.
pub(crate) fn same_named(
    alloc: Global,
    nodes: &[TypeNode],
    a: usize,
    b: usize,
) -> Result<bool, NoMemory>
    ensures { IfOk result (λ yes. IsTrue yes ↔ Matched (Same nodes.now) (types_at nodes.now a) (types_at nodes.now b)) }
{
    let xs = types_at(alloc, nodes, a)?;
    let ys = types_at(alloc, nodes, b)?;
    same_lists(alloc, nodes, &xs, &ys)
}
