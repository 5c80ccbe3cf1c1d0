ghost use Rattle.std.specs.Prelude.{◌≡◌, ◌↔◌, ℕ, map, IsTrue, is_some, IfOk};
ghost use Rattle.m3_types.specs.Definitions.{head_at, head_of, types_at, head_of_raises};
ghost use Rattle.m3_types_subtype.specs.Sameness.{Matched, Same};
ghost use Rattle.m3_types_subtype.specs.Subtypes.{RaisesWithin, SignaturesFit, ProcedureBelow};

use crate::named::same_named;
use crate::raises::raises_within;
use m3_base::NoMemory;
use m3_types::{Formal, Mode, TypeId, TypeNode, node_at};
use std::alloc::Global;

fn same_mode(x: Mode, y: Mode) -> bool
    ensures { IsTrue result ↔ (x ≡ y) }
{
    x == y
}

fn same_modes(xs: &[Formal], ys: &[Formal]) -> bool
    ensures { IsTrue result ↔ (map (λ f. f.mode) xs.now ≡ map (λ f. f.mode) ys.now) }
{
    if xs.len() != ys.len() {
        return false;
    }
    for (i, x) in xs.iter().enumerate() {
        if !same_mode(x.mode, ys[i].mode) {
            return false;
        }
    }
    true
}

fn both_or_neither(r: Option<TypeId>, s: Option<TypeId>) -> bool
    ensures { IsTrue result ↔ (is_some r ≡ is_some s) }
{
    match (r, s) {
        (None, None) => true,
        (Some(_), Some(_)) => true,
        (None, Some(_)) => false,
        (Some(_), None) => false,
    }
}

/// Whether both are procedure types with as many formals of the same modes, results in both or in
/// neither, and no more exceptions in the first.
fn signatures_fit(alloc: Global, x: TypeNode, y: TypeNode) -> Result<bool, NoMemory>
    ensures { IfOk result (λ yes. (i j : ℕ) → IsTrue yes ↔ SignaturesFit (head_of i x.entry) (head_of j y.entry)) }
{
    match (x, y) {
        (TypeNode::Procedure(fs, r, e), TypeNode::Procedure(gs, s, f)) => {
            if !same_modes(fs, gs) {
                return Ok(false);
            }
            if !both_or_neither(r, s) {
                return Ok(false);
            }
            Ok(raises_within(alloc, e, f)?)
        }
        _ => Ok(false),
    }
}

fn signatures_fit_at(
    alloc: Global,
    nodes: &[TypeNode],
    a: usize,
    b: usize,
) -> Result<bool, NoMemory>
    ensures { IfOk result (λ yes. IsTrue yes ↔ SignaturesFit (head_at nodes.now a) (head_at nodes.now b)) }
{
    let Some(x) = node_at(nodes, a) else {
        return Ok(false);
    };
    let Some(y) = node_at(nodes, b) else {
        return Ok(false);
    };
    Ok(signatures_fit(alloc, x, y)?)
}

/// Whether both are procedure types of which the first is below the second.
pub(crate) fn procedure_below(
    alloc: Global,
    nodes: &[TypeNode],
    a: usize,
    b: usize,
) -> Result<bool, NoMemory>
    ensures { IfOk result (λ yes. IsTrue yes ↔ ProcedureBelow nodes.now a b) }
{
    if !signatures_fit_at(alloc, nodes, a, b)? {
        return Ok(false);
    }
    same_named(alloc, nodes, a, b)
}
