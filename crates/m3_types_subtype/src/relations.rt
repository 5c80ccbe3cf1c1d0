ghost use Rattle.std.specs.Prelude.{◌↔◌, IsTrue, IfOk};
ghost use Rattle.m3_types_subtype.specs.Subtypes.{Subtype};
ghost use Rattle.m3_types_subtype.specs.Assignments.{IsAssign};

use crate::assign::Assign;
use crate::assigning::way_to_assign;
use crate::upward::is_below;
use m3_base::NoMemory;
use m3_types::{TypeGraph, TypeId};
use std::alloc::Global;

/// Whether the first type is a subtype of the second (the report, section 2.2.8), by the reveals that
/// apply in a unit.
pub fn subtype(
    alloc: Global,
    graph: &TypeGraph,
    view: u32,
    a: TypeId,
    b: TypeId,
) -> Result<bool, NoMemory>
    ensures { IfOk result (λ yes. IsTrue yes ↔ Subtype graph.now.nodes.items graph.now.reveals.items view a.0 b.0) }
{
    if a == b {
        return Ok(true);
    }
    let yes = is_below(alloc, graph, view, a.0 as usize, b.0 as usize)?;
    Ok(yes)
}

/// How a value of the first type may be assigned to a variable of the second (the report, section
/// 2.3.1), by the reveals that apply in a unit.
pub fn assignable(
    alloc: Global,
    graph: &TypeGraph,
    view: u32,
    a: TypeId,
    b: TypeId,
) -> Result<Assign, NoMemory>
    ensures { IfOk result (λ assign. IsAssign graph.now.nodes.items graph.now.reveals.items view a.0 b.0 assign) }
{
    if a == b {
        return Ok(Assign::Yes);
    }
    way_to_assign(alloc, graph, view, a.0 as usize, b.0 as usize)
}
