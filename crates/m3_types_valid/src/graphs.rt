ghost use Rattle.std.specs.Prelude.{◌≡◌, ◌<◌, ◌↔◌, ◌&&◌, ◌==◌, ℕ, IsTrue, IfOk, IsSome, All};
ghost use Rattle.std.specs.Prelude.{length};
ghost use Rattle.std.specs.List.{list_any};
ghost use Rattle.m3_types.specs.Reveals.{full_reveal};
ghost use Rattle.m3_types_valid.specs.Forms.{HasFormAt, IsRevealedAt, IsReveal, IsWellFormed};

use crate::forms::has_form;
use crate::kinds::is_type_at;
use m3_base::NoMemory;
use m3_types::{Reveal, Secret, TypeGraph, TypeId, TypeNode, is_opaque_at};
use std::alloc::Global;

fn all_have_form(alloc: Global, nodes: &[TypeNode]) -> Result<bool, NoMemory>
    ensures { IfOk result
        (λ b. IsTrue b ↔ ((p : ℕ) → p < length nodes.now → HasFormAt nodes.now p)) }
{
    for place in 0..nodes.len() {
        if !has_form(alloc, nodes, place)? {
            return Ok(false);
        }
    }
    Ok(true)
}

/// What a graph tells of a TypeId, told of any place, also one that no TypeId can name.
fn has_full_reveal(reveals: &[Reveal], place: usize) -> bool
    ensures { result ≡ list_any (λ r. r.full && (r.opaque.0 == place)) reveals.now }
{
    reveals
        .iter()
        .any(|reveal| reveal.full && reveal.opaque.0 as usize == place)
}

/// Whether a type is one that the program reveals fully.
fn is_revealed_fully(graph: &TypeGraph, place: usize) -> bool
    requires { place < length graph.now.nodes.items }
    ensures { IsTrue result ↔ IsSome (full_reveal graph.now.reveals.items place) }
{
    match u32::try_from(place) {
        Ok(id) => graph.full_reveal(TypeId(id)).is_some(),
        Err(_) => has_full_reveal(&graph.reveals, place),
    }
}

/// Whether a type is revealed fully, if it is an opaque one that the program reveals.
fn is_revealed(graph: &TypeGraph, place: usize) -> bool
    requires { place < length graph.now.nodes.items }
    ensures { IsTrue result ↔ IsRevealedAt graph.now.nodes.items graph.now.reveals.items place }
{
    match graph.nodes.get(place) {
        Some(TypeNode::Opaque(_, Secret::Revealed)) => is_revealed_fully(graph, place),
        _ => true,
    }
}

fn all_revealed(graph: &TypeGraph) -> bool
    ensures { IsTrue result ↔ ((p : ℕ) → p < length graph.now.nodes.items →
        IsRevealedAt graph.now.nodes.items graph.now.reveals.items p) }
{
    for place in 0..graph.nodes.len() {
        if !is_revealed(graph, place) {
            return false;
        }
    }
    true
}

/// Whether a reveal gives a type of an opaque type.
fn is_reveal(nodes: &[TypeNode], reveal: &Reveal) -> bool
    ensures { IsTrue result ↔ IsReveal nodes.now reveal.now }
{
    is_opaque_at(nodes, reveal.opaque.0 as usize) && is_type_at(nodes, reveal.bound.0 as usize)
}

fn all_reveals(nodes: &[TypeNode], reveals: &[Reveal]) -> bool
    ensures { IsTrue result ↔ All (IsReveal nodes.now) reveals.now }
{
    reveals.iter().all(|reveal| is_reveal(nodes, reveal))
}

/// Whether a graph is well formed: each definition has its form, each opaque type that the program
/// reveals is revealed fully, and each reveal gives a type of an opaque type.
pub fn is_well_formed(alloc: Global, graph: &TypeGraph) -> Result<bool, NoMemory>
    ensures { IfOk result (λ b.
        IsTrue b ↔ IsWellFormed graph.now.nodes.items graph.now.reveals.items) }
{
    Ok(
        all_have_form(alloc, &graph.nodes)?
            && (all_revealed(graph) && all_reveals(&graph.nodes, &graph.reveals)),
    )
}
