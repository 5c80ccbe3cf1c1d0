ghost use Rattle.std.specs.Prelude.{◌≡◌, ◌≢◌, ◌↔◌, ◌∷◌, [], ℕ, ℤ, true, false, Bool, List, map, IsTrue, is_some, IfOk, IfSome, IfNone};
ghost use Rattle.m3_types.specs.Definitions.{head_at, head_of, types_at, ASubrange};
ghost use Rattle.m3_types_subtype.specs.Sameness.{Matched, Same};
ghost use Rattle.m3_types_subtype.specs.Heights.{HasHeight};
ghost use Rattle.m3_types_subtype.specs.Subtypes.{IsWithin, SubrangeBelow, Directly};

use crate::arrays::array_below;
use crate::below::{null_below, refany_above, root_above};
use crate::named::same_named;
use crate::procedures::procedure_below;
use crate::sameness::same_types;
use m3_base::NoMemory;
use m3_types::{TypeNode, node_at};
use std::alloc::Global;

/// Whether the members of a range are among those of another.
fn is_within(range: (i64, i64), other: (i64, i64)) -> bool
    ensures { IsTrue result ↔ IsWithin range.0 range.1 other.0 other.1 }
{
    range.1 < range.0 || (other.0 <= range.0 && range.1 <= other.1)
}

/// The first and last member of a subrange.
fn range_of(node: TypeNode) -> Option<(i64, i64)>
    ensures some { IfSome result (λ r. (place : ℕ) → head_of place node.entry ≡ ASubrange r.0 r.1) }
    ensures none { IfNone result ((place : ℕ) (f l : ℤ) → head_of place node.entry ≡ ASubrange f l → ⊥) }
{
    match node {
        TypeNode::Subrange(_, first, last) => Some((first, last)),
        _ => None,
    }
}

fn range_at(nodes: &[TypeNode], place: usize) -> Option<(i64, i64)>
    ensures some { IfSome result (λ r. head_at nodes.now place ≡ ASubrange r.0 r.1) }
    ensures none { IfNone result ((f l : ℤ) → head_at nodes.now place ≡ ASubrange f l → ⊥) }
{
    range_of(node_at(nodes, place)?)
}

/// Whether both are subranges of one base of which the second contains the first.
fn subrange_below(alloc: Global, nodes: &[TypeNode], a: usize, b: usize) -> Result<bool, NoMemory>
    ensures { IfOk result (λ yes. IsTrue yes ↔ SubrangeBelow nodes.now a b) }
{
    let Some(range) = range_at(nodes, a) else {
        return Ok(false);
    };
    let Some(other) = range_at(nodes, b) else {
        return Ok(false);
    };
    if !is_within(range, other) {
        return Ok(false);
    }
    same_named(alloc, nodes, a, b)
}

/// Whether a rule on the two types alone, other than that they are the same, puts the first below the
/// second.
fn is_ruled(alloc: Global, nodes: &[TypeNode], a: usize, b: usize) -> Result<bool, NoMemory>
    ensures yes { IfOk result (λ yes. yes ≡ true → Directly nodes.now a b) }
    ensures no { IfOk result (λ yes. yes ≡ false → Directly nodes.now a b → Same nodes.now a b) }
{
    if null_below(nodes, a, b) || refany_above(nodes, a, b) || root_above(nodes, a, b) {
        return Ok(true);
    }
    if subrange_below(alloc, nodes, a, b)? {
        return Ok(true);
    }
    if procedure_below(alloc, nodes, a, b)? {
        return Ok(true);
    }
    Ok(array_below(alloc, nodes, a, b)?)
}

/// Whether two types are the same, or a rule on the two alone puts the first below the second.
pub(crate) fn directly(
    alloc: Global,
    nodes: &[TypeNode],
    a: usize,
    b: usize,
) -> Result<bool, NoMemory>
    ensures yes { IfOk result (λ yes. yes ≡ true → Directly nodes.now a b) }
    ensures no { IfOk result (λ yes. yes ≡ false → Directly nodes.now a b → ⊥) }
{
    if is_ruled(alloc, nodes, a, b)? {
        return Ok(true);
    }
    Ok(same_types(alloc, nodes, a, b)?)
}

/// Whether two heights are known and differ.
fn heights_differ(height: Option<usize>, other: Option<usize>) -> bool
    ensures { result ≡ true → (h : ℕ) × (k : ℕ) × (height ≡ Some h) × (other ≡ Some k) × (h ≢ k) }
{
    match (height, other) {
        (Some(h), Some(k)) => h != k,
        _ => false,
    }
}

/// Whether two types, of these heights where they are known, are the same, or a rule on the two alone
/// puts the first below the second.
pub(crate) fn meets(
    alloc: Global,
    nodes: &[TypeNode],
    a: usize,
    height: Option<usize>,
    b: usize,
    goal: Option<usize>,
) -> Result<bool, NoMemory>
    requires height { IfSome height (λ h. HasHeight nodes.now a h) }
    requires goal { IfSome goal (λ h. HasHeight nodes.now b h) }
    ensures yes { IfOk result (λ yes. yes ≡ true → Directly nodes.now a b) }
    ensures no { IfOk result (λ yes. yes ≡ false → Directly nodes.now a b → ⊥) }
{
    if is_ruled(alloc, nodes, a, b)? {
        return Ok(true);
    }
    if heights_differ(height, goal) {
        return Ok(false);
    }
    Ok(same_types(alloc, nodes, a, b)?)
}
