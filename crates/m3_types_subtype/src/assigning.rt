ghost use Rattle.std.specs.Prelude.{◌≡◌, ◌↔◌, ℕ, Some, None, IsTrue, IfOk, IfSome, IfNone, true, false};
ghost use Rattle.std.specs.Option.{option_map};
ghost use Rattle.m3_types.specs.Definitions.{head_at};
ghost use Rattle.m3_types_subtype.specs.Ranges.{members};
ghost use Rattle.m3_types_subtype.specs.Assignments.{Members, members_of, members_at, CommonMember, ShareMember, is_array_or_reference, NeedsCheck, IsAssign};

use crate::assign::Assign;
use crate::sameness::same_types;
use crate::upward::is_below;
use m3_base::NoMemory;
use m3_types::{TypeGraph, TypeNode, is_reference_at, node_at};
use std::alloc::Global;

/// The members of an ordinal type: its base type, and the numbers of the first and the last.
#[derive(Clone, Copy)]
struct Range {
    base: usize,
    first: i128,
    last: i128,
}

fn range_of(place: usize, node: TypeNode) -> Option<Range>
    ensures { option_map members result ≡ members_of place node.entry }
{
    match node {
        TypeNode::Integer => Some(Range {
            base: place,
            first: i128::from(i64::MIN),
            last: i128::from(i64::MAX),
        }),
        TypeNode::Boolean => Some(Range {
            base: place,
            first: 0,
            last: 1,
        }),
        TypeNode::Character => Some(Range {
            base: place,
            first: 0,
            last: 255,
        }),
        TypeNode::Enumeration(names) => Some(Range {
            base: place,
            first: 0,
            last: names.len() as i128 - 1,
        }),
        TypeNode::Subrange(base, first, last) => Some(Range {
            base: base.0 as usize,
            first: i128::from(first),
            last: i128::from(last),
        }),
        _ => None,
    }
}

fn range_at(nodes: &[TypeNode], place: usize) -> Option<Range>
    ensures { option_map members result ≡ members_at nodes.now place }
{
    match node_at(nodes, place) {
        Some(node) => range_of(place, node),
        None => None,
    }
}

/// Whether both are ordinal types of one base with a common member.
fn share_member(alloc: Global, nodes: &[TypeNode], a: usize, b: usize) -> Result<bool, NoMemory>
    ensures yes { IfOk result (λ yes. yes ≡ true → ShareMember nodes.now a b) }
    ensures no { IfOk result (λ yes. yes ≡ false → ShareMember nodes.now a b → ⊥) }
{
    let Some(mine) = range_at(nodes, a) else {
        return Ok(false);
    };
    let Some(other) = range_at(nodes, b) else {
        return Ok(false);
    };
    if !ranges_meet(mine, other) {
        return Ok(false);
    }
    Ok(same_types(alloc, nodes, mine.base, other.base)?)
}

/// Whether a number is in both ranges.
fn ranges_meet(mine: Range, other: Range) -> bool
    ensures yes { result ≡ true → CommonMember (members mine) (members other) }
    ensures no { result ≡ false → CommonMember (members mine) (members other) → ⊥ }
{
    let from = mine.first.max(other.first);
    from <= mine.last && from <= other.last
}

fn is_array_or_reference_at(nodes: &[TypeNode], place: usize) -> bool
    ensures { result ≡ is_array_or_reference (head_at nodes.now place) }
{
    match node_at(nodes, place) {
        Some(TypeNode::FixedArray(_, _)) | Some(TypeNode::OpenArray(_)) => true,
        _ => is_reference_at(nodes, place),
    }
}

/// How a value of the first type may be assigned to a variable of the second, in the view of a unit.
pub(crate) fn way_to_assign(
    alloc: Global,
    graph: &TypeGraph,
    view: u32,
    a: usize,
    b: usize,
) -> Result<Assign, NoMemory>
    ensures { IfOk result (λ assign. IsAssign graph.now.nodes.items graph.now.reveals.items view a b assign) }
{
    if is_below(alloc, graph, view, a, b)? {
        return Ok(Assign::Yes);
    }
    if is_array_or_reference_at(&graph.nodes, a) {
        if is_below(alloc, graph, view, b, a)? {
            return Ok(Assign::Checked);
        }
    }
    if share_member(alloc, &graph.nodes, a, b)? {
        return Ok(Assign::Checked);
    }
    Ok(Assign::No)
}
