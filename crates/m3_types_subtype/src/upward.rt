ghost use Rattle.std.specs.Prelude.{◌≡◌, ◌<◌, ◌^◌, ℕ, List, Some, length, All, Contains, IfOk, OnOk, IsTrue, true, false};
ghost use Rattle.m3_types.specs.Definitions.{node_at, head_at, ANull};
ghost use Rattle.m3_types.specs.Kinds.{named_above, has_nil};
ghost use Rattle.m3_types_subtype.specs.Subtypes.{NullBelow, Step, Subtype};
ghost use Rattle.m3_types_subtype.specs.Reaching.{Has, IsVisited, AddsSteps, BoundAbove, OpaqueAbove};
ghost use Rattle.m3_types.specs.declared.nodes.Reveal.{Reveal as AReveal};

use crate::direct::{directly, meets};
use crate::heights::Heights;
use crate::reached::Reached;
use m3_base::NoMemory;
use m3_types::{Reveal, TypeGraph, TypeNode, has_nil_at, is_null_at, is_opaque_at, named_above_at};
use std::alloc::Global;

/// Adds what a type's own definition puts above it.
fn add_named(nodes: &[TypeNode], x: usize, reached: &mut Reached) -> Result<(), NoMemory>
    requires { IsVisited reached.old.seen reached.old.places.items }
    ensures kept { OnOk result (IsVisited reached.new.seen reached.new.places.items) }
    ensures adds { OnOk result ((reveals : List AReveal) (view : ℕ) →
        AddsSteps nodes.now reveals view x reached.old.places.items reached.new.places.items) }
    ensures all { OnOk result ((y : ℕ) → named_above (node_at nodes.now x) ≡ Some y → Has reached.new.places.items y) }
{
    if let Some(above) = named_above_at(nodes, x) {
        reached.add(above.0 as usize)?;
    }
    Ok(())
}

/// Adds a type above NULL, if NIL belongs to it.
fn add_nil_at(nodes: &[TypeNode], x: usize, y: usize, reached: &mut Reached) -> Result<(), NoMemory>
    requires kept { IsVisited reached.old.seen reached.old.places.items }
    requires null { head_at nodes.now x ≡ ANull }
    ensures kept { OnOk result (IsVisited reached.new.seen reached.new.places.items) }
    ensures adds { OnOk result ((reveals : List AReveal) (view : ℕ) →
        AddsSteps nodes.now reveals view x reached.old.places.items reached.new.places.items) }
    ensures has { OnOk result (IsTrue (has_nil (head_at nodes.now y)) → Has reached.new.places.items y) }
{
    if has_nil_at(nodes, y) {
        reached.add(y)?;
    }
    Ok(())
}

/// Adds what stands above NULL, where the type is that: every type that NIL belongs to.
fn add_nil(nodes: &[TypeNode], x: usize, reached: &mut Reached) -> Result<(), NoMemory>
    requires { IsVisited reached.old.seen reached.old.places.items }
    ensures kept { OnOk result (IsVisited reached.new.seen reached.new.places.items) }
    ensures adds { OnOk result ((reveals : List AReveal) (view : ℕ) →
        AddsSteps nodes.now reveals view x reached.old.places.items reached.new.places.items) }
    ensures all { OnOk result ((y : ℕ) → NullBelow nodes.now x y → Has reached.new.places.items y) }
{
    if !is_null_at(nodes, x) {
        return Ok(());
    }
    for y in 0..nodes.len() {
        add_nil_at(nodes, x, y, reached)?;
    }
    Ok(())
}

/// Adds the type that a reveal gives above a type, where it applies.
fn add_bound(
    nodes: &[TypeNode],
    reveal: &Reveal,
    view: u32,
    x: usize,
    reached: &mut Reached,
) -> Result<(), NoMemory>
    requires { IsVisited reached.old.seen reached.old.places.items }
    ensures kept { OnOk result (IsVisited reached.new.seen reached.new.places.items) }
    ensures adds { OnOk result ((reveals : List AReveal) → Contains reveals reveal.now →
        AddsSteps nodes.now reveals view x reached.old.places.items reached.new.places.items) }
    ensures all { OnOk result (BoundAbove nodes.now reveal.now view x → Has reached.new.places.items reveal.now.bound.0) }
{
    if reveal.view != view || reveal.opaque.0 as usize != x {
        return Ok(());
    }
    if is_opaque_at(nodes, x) {
        reached.add(reveal.bound.0 as usize)?;
    }
    Ok(())
}

/// Adds the opaque type that a full reveal puts above a type, where it applies.
fn add_opaque(
    alloc: Global,
    nodes: &[TypeNode],
    reveal: &Reveal,
    view: u32,
    x: usize,
    reached: &mut Reached,
) -> Result<(), NoMemory>
    requires { IsVisited reached.old.seen reached.old.places.items }
    ensures kept { OnOk result (IsVisited reached.new.seen reached.new.places.items) }
    ensures adds { OnOk result ((reveals : List AReveal) → Contains reveals reveal.now →
        AddsSteps nodes.now reveals view x reached.old.places.items reached.new.places.items) }
    ensures all { OnOk result (OpaqueAbove nodes.now reveal.now view x → Has reached.new.places.items reveal.now.opaque.0) }
{
    let opaque = reveal.opaque.0 as usize;
    if reveal.view != view || !reveal.full {
        return Ok(());
    }
    if !is_opaque_at(nodes, opaque) {
        return Ok(());
    }
    if directly(alloc, nodes, x, reveal.bound.0 as usize)? {
        reached.add(opaque)?;
    }
    Ok(())
}

/// Adds the types that these reveals give above a type, where they apply.
fn add_bounds(
    nodes: &[TypeNode],
    found: &[Reveal],
    view: u32,
    x: usize,
    reached: &mut Reached,
) -> Result<(), NoMemory>
    requires { IsVisited reached.old.seen reached.old.places.items }
    ensures kept { OnOk result (IsVisited reached.new.seen reached.new.places.items) }
    ensures adds { OnOk result ((reveals : List AReveal) → All (λ r. Contains reveals r) found.now →
        AddsSteps nodes.now reveals view x reached.old.places.items reached.new.places.items) }
    ensures all { OnOk result ((r : AReveal) → Contains found.now r → BoundAbove nodes.now r view x →
        Has reached.new.places.items r.bound.0) }
{
    for reveal in found {
        add_bound(nodes, reveal, view, x, reached)?;
    }
    Ok(())
}

/// Adds the opaque types that these reveals put above a type, where they apply.
fn add_opaques(
    alloc: Global,
    nodes: &[TypeNode],
    found: &[Reveal],
    view: u32,
    x: usize,
    reached: &mut Reached,
) -> Result<(), NoMemory>
    requires { IsVisited reached.old.seen reached.old.places.items }
    ensures kept { OnOk result (IsVisited reached.new.seen reached.new.places.items) }
    ensures adds { OnOk result ((reveals : List AReveal) → All (λ r. Contains reveals r) found.now →
        AddsSteps nodes.now reveals view x reached.old.places.items reached.new.places.items) }
    ensures all { OnOk result ((r : AReveal) → Contains found.now r → OpaqueAbove nodes.now r view x →
        Has reached.new.places.items r.opaque.0) }
{
    for reveal in found {
        add_opaque(alloc, nodes, reveal, view, x, reached)?;
    }
    Ok(())
}

/// Adds what the reveals give above a type, behind what stands above it where it is NULL.
fn add_revealed(
    alloc: Global,
    graph: &TypeGraph,
    view: u32,
    x: usize,
    reached: &mut Reached,
) -> Result<(), NoMemory>
    requires kept { IsVisited reached.old.seen reached.old.places.items }
    requires nil { (y : ℕ) → NullBelow graph.now.nodes.items x y → Has reached.old.places.items y }
    ensures kept { OnOk result (IsVisited reached.new.seen reached.new.places.items) }
    ensures adds { OnOk result (AddsSteps graph.now.nodes.items graph.now.reveals.items view x reached.old.places.items reached.new.places.items) }
    ensures bounds { OnOk result ((r : AReveal) → Contains graph.now.reveals.items r → BoundAbove graph.now.nodes.items r view x →
        Has reached.new.places.items r.bound.0) }
    ensures opaques { OnOk result ((r : AReveal) → Contains graph.now.reveals.items r → OpaqueAbove graph.now.nodes.items r view x →
        Has reached.new.places.items r.opaque.0) }
{
    let about = graph.reveals_of(alloc, view, x)?;
    add_bounds(&graph.nodes, &about, view, x, reached)?;
    let hiding = graph.reveals_to(alloc, view, x)?;
    add_opaques(alloc, &graph.nodes, &hiding, view, x, reached)?;
    Ok(())
}

/// Adds every type that is a step above a type in the view.
fn add_steps(
    alloc: Global,
    graph: &TypeGraph,
    view: u32,
    x: usize,
    reached: &mut Reached,
) -> Result<(), NoMemory>
    requires { IsVisited reached.old.seen reached.old.places.items }
    ensures kept { OnOk result (IsVisited reached.new.seen reached.new.places.items) }
    ensures adds { OnOk result (AddsSteps graph.now.nodes.items graph.now.reveals.items view x reached.old.places.items reached.new.places.items) }
    ensures all { OnOk result ((y : ℕ) → Step graph.now.nodes.items graph.now.reveals.items view x y → Has reached.new.places.items y) }
{
    add_named(&graph.nodes, x, reached)?;
    add_nil(&graph.nodes, x, reached)?;
    add_revealed(alloc, graph, view, x, reached)?;
    Ok(())
}

/// Whether the first type is a subtype of the second in the view: whether going upwards from it comes
/// to a type that is directly below the second. Types of unequal height are told apart by that alone.
pub(crate) fn is_below(
    alloc: Global,
    graph: &TypeGraph,
    view: u32,
    a: usize,
    b: usize,
) -> Result<bool, NoMemory>
    ensures yes { IfOk result (λ yes. yes ≡ true → Subtype graph.now.nodes.items graph.now.reveals.items view a b) }
    ensures no { IfOk result (λ yes. yes ≡ false → Subtype graph.now.nodes.items graph.now.reveals.items view a b → ⊥) }
{
    let mut heights = Heights::new(alloc);
    let goal = heights.tell(&graph.nodes, b)?;
    let mut reached = Reached::new(alloc);
    reached.add(a)?;
    let mut next = 0;
    while next < reached.places.len() {
        let x = reached.places[next];
        let height = heights.tell(&graph.nodes, x)?;
        if meets(alloc, &graph.nodes, x, height, b, goal)? {
            return Ok(true);
        }
        add_steps(alloc, graph, view, x, &mut reached)?;
        next += 1;
    }
    Ok(false)
}
