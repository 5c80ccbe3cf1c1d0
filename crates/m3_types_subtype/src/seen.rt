ghost use Rattle.std.specs.Prelude.{◌≡◌, ◌⊎◌, true, Contains, Some, None, IfSome, IfNone, IfOk};
ghost use Rattle.m3_types.specs.declared.nodes.Reveal.{Reveal as AReveal};
ghost use Rattle.m3_types_subtype.specs.Subtypes.{Subtype};
ghost use Rattle.m3_types_subtype.specs.Views.{whole_program, IsOf, NoneApplies, IsLeastOf, bound_at, Sees, HasStructure};
ghost use Rattle.std.specs.Option.{option_map};

use crate::upward::is_below;
use m3_base::NoMemory;
use m3_types::{Reveal, TypeGraph, TypeId, TypeNode, node_at};
use std::alloc::Global;

/// Whether a reveal is of an opaque type and applies in a view.
fn applies(reveal: &Reveal, view: u32, t: TypeId) -> bool
    ensures yes { result ≡ true → (reveal.now.view ≡ view) × (reveal.now.opaque ≡ t) }
    ensures no { reveal.now.view ≡ view → reveal.now.opaque ≡ t → result ≡ true }
{
    reveal.view == view && reveal.opaque == t
}

/// Whether a reveal is full, of an opaque type, and applies in a view.
fn reveals_fully(reveal: &Reveal, view: u32, t: TypeId) -> bool
    ensures yes { result ≡ true → (reveal.now.view ≡ view) × (reveal.now.opaque ≡ t) × (reveal.now.full ≡ true) }
    ensures no { reveal.now.view ≡ view → reveal.now.opaque ≡ t → reveal.now.full ≡ true → result ≡ true }
{
    reveal.full && applies(reveal, view, t)
}

/// The type of a full reveal of an opaque type in a view, among some reveals.
fn full_among(found: &[Reveal], view: u32, t: TypeId) -> Option<TypeId>
    ensures some { IfSome result (λ b. (r : AReveal) × Contains found.now r × (r.view ≡ view) × (r.opaque ≡ t) × (r.full ≡ true) × (r.bound ≡ b)) }
    ensures none { IfNone result ((r : AReveal) → Contains found.now r → r.view ≡ view → r.opaque ≡ t → r.full ≡ true → ⊥) }
{
    for reveal in found {
        if reveals_fully(reveal, view, t) {
            return Some(reveal.bound);
        }
    }
    None
}

/// The lesser of two types that partial reveals of one opaque type give, by the whole program.
fn lesser(
    alloc: Global,
    graph: &TypeGraph,
    least: Option<TypeId>,
    bound: TypeId,
) -> Result<TypeId, NoMemory>
    ensures only { least ≡ None → IfOk result (λ b. b ≡ bound) }
    ensures lesser { IfSome least (λ l. IfOk result (λ b. ((b ≡ bound) × Subtype graph.now.nodes.items graph.now.reveals.items whole_program bound.0 l.0)
        ⊎ ((b ≡ l) × (Subtype graph.now.nodes.items graph.now.reveals.items whole_program bound.0 l.0 → ⊥)))) }
{
    let Some(least) = least else {
        return Ok(bound);
    };
    let whole = TypeGraph::WHOLE_PROGRAM;
    if is_below(alloc, graph, whole, bound.0 as usize, least.0 as usize)? {
        Ok(bound)
    } else {
        Ok(least)
    }
}

/// The least type that partial reveals of an opaque type give in a view, among some reveals.
fn least_among(
    alloc: Global,
    graph: &TypeGraph,
    found: &[Reveal],
    view: u32,
    t: TypeId,
) -> Result<Option<TypeId>, NoMemory>
    ensures some { IfOk result (λ o. IfSome o (λ b. IsLeastOf graph.now.nodes.items graph.now.reveals.items found.now view t.0 b.0)) }
    ensures none { IfOk result (λ o. IfNone o (NoneApplies found.now view t.0)) }
{
    let mut least = None;
    for reveal in found {
        if applies(reveal, view, t) {
            let lower = lesser(alloc, graph, least, reveal.bound)?;
            least = Some(lower);
        }
    }
    Ok(least)
}

/// The bound of an opaque type; none of any other.
fn bound_of(nodes: &[TypeNode], t: TypeId) -> Option<TypeId>
    ensures { option_map (λ b. b.0) result ≡ bound_at nodes.now t.0 }
{
    match node_at(nodes, t.0 as usize) {
        Some(TypeNode::Opaque(bound, _)) => Some(bound),
        _ => None,
    }
}

/// What a unit sees behind an opaque type with this bound.
fn behind(
    alloc: Global,
    graph: &TypeGraph,
    view: u32,
    t: TypeId,
    bound: TypeId,
) -> Result<TypeId, NoMemory>
    ensures { bound_at graph.now.nodes.items t.0 ≡ Some bound.0 → IfOk result (λ b. Sees graph.now.nodes.items graph.now.reveals.items view t.0 b.0) }
{
    let found = graph.reveals_of(alloc, view, t.0 as usize)?;
    if let Some(full) = full_among(&found, view, t) {
        return Ok(full);
    }
    let least = least_among(alloc, graph, &found, view, t)?;
    Ok(least.unwrap_or(bound))
}

/// What a unit sees behind an opaque type: the type that fully reveals it, where that applies in the
/// unit; else the least of its partial reveals that apply, by the whole program; else its bound. Any
/// other type is seen as it is. What is seen may be an opaque type again.
pub fn visible(alloc: Global, graph: &TypeGraph, view: u32, t: TypeId) -> Result<TypeId, NoMemory>
    ensures { IfOk result (λ b. Sees graph.now.nodes.items graph.now.reveals.items view t.0 b.0) }
{
    match bound_of(&graph.nodes, t) {
        Some(bound) => behind(alloc, graph, view, t, bound),
        None => Ok(t),
    }
}

/// The structure of a type in a view: what a unit sees behind it, and behind that, until it is no
/// opaque type, or one behind which as many were seen as there are types.
pub fn structure(alloc: Global, graph: &TypeGraph, view: u32, t: TypeId) -> Result<TypeId, NoMemory>
    ensures { IfOk result (λ b. HasStructure graph.now.nodes.items graph.now.reveals.items view t.0 b.0) }
{
    let mut seen = t;
    for _step in 0..graph.nodes.len() {
        let behind = visible(alloc, graph, view, seen)?;
        if behind == seen {
            return Ok(seen);
        }
        seen = behind;
    }
    Ok(seen)
}
