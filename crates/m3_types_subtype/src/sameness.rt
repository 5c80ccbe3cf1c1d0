ghost use Rattle.std.specs.Prelude.{◌≡◌, ◌↔◌, ℕ, IfOk, IsTrue};
ghost use Rattle.m3_types_subtype.specs.Sameness.{Matched, Same};

use crate::assumptions::Assumptions;
use m3_base::NoMemory;
use m3_types::{TypeGraph, TypeId, TypeNode, heads_match_at, parts_at};
use std::alloc::Global;

/// Whether the types at each place of two lists are the same. What is compared is taken to be the same
/// from then on, so no pair of classes is compared twice (Hopcroft and Karp's test of equivalence, 1971).
pub fn same_lists(
    alloc: Global,
    nodes: &[TypeNode],
    xs: &[usize],
    ys: &[usize],
) -> Result<bool, NoMemory>
    ensures { IfOk result (λ yes. IsTrue yes ↔ Matched (Same nodes.now) xs.now ys.now) }
{
    if xs.len() != ys.len() {
        return Ok(false);
    }
    let mut assumed = Assumptions::new(alloc);
    assumed.assume_all(xs, ys)?;
    let mut next = 0;
    while next < assumed.pairs.len() {
        let (x, y) = assumed.pairs[next];
        if !heads_match_at(nodes, x, y) {
            return Ok(false);
        }
        let parts = parts_at(alloc, nodes, x)?;
        let others = parts_at(alloc, nodes, y)?;
        if parts.len() != others.len() {
            return Ok(false);
        }
        assumed.assume_all(&parts, &others)?;
        next += 1;
    }
    Ok(true)
}

/// Whether the definitions at two places are the same.
pub fn same_types(alloc: Global, nodes: &[TypeNode], a: usize, b: usize) -> Result<bool, NoMemory>
    ensures { IfOk result (λ yes. IsTrue yes ↔ Same nodes.now a b) }
{
    if a == b {
        return Ok(true);
    }
    same_lists(alloc, nodes, &[a], &[b])
}

/// Whether two types are the same: their definitions are equal, written out without end (the report,
/// section 2.2.7, where this profile's brands, opaque types and parts of a type apply). Constants in
/// them are compared by value.
pub fn same(alloc: Global, graph: &TypeGraph, a: TypeId, b: TypeId) -> Result<bool, NoMemory>
    ensures { IfOk result (λ yes. IsTrue yes ↔ Same graph.now.nodes.items a.0 b.0) }
{
    same_types(alloc, &graph.nodes, a.0 as usize, b.0 as usize)
}
