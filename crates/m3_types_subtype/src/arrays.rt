ghost use Rattle.std.specs.Prelude.{◌≡◌, ◌↔◌, ◌<◌, ℕ, length, true, false, Some, None, is_some, IsTrue, IfOk, IfSome, IfNone};
ghost use Rattle.m3_types_subtype.specs.Sameness.{Same};
ghost use Rattle.m3_types_subtype.specs.Subtypes.{dimension_at, FitsDimension, ElementsOf, FitsBelow, OpenFirst, ArrayBelow};

use crate::sameness::same_types;
use m3_base::NoMemory;
use m3_types::{TypeNode, size_at};
use std::alloc::Global;

/// The outermost dimension of an array: its size, or none where it is open, and the element type.
fn dimension_at(nodes: &[TypeNode], place: usize) -> Option<(Option<u128>, usize)>
    ensures { result ≡ dimension_at nodes.now place }
{
    match nodes.get(place) {
        Some(TypeNode::FixedArray(index, element)) => {
            Some((Some(size_at(nodes, index.0 as usize)), element.0 as usize))
        }
        Some(TypeNode::OpenArray(element)) => Some((None, element.0 as usize)),
        _ => None,
    }
}

fn fits_dimension(size: Option<u128>, other: Option<u128>) -> bool
    ensures { IsTrue result ↔ FitsDimension size other }
{
    match (size, other) {
        (_, None) => true,
        (None, Some(_)) => false,
        (Some(n), Some(m)) => n == m,
    }
}

/// The element types of two arrays, where the outermost dimension fits.
fn elements_of(nodes: &[TypeNode], a: usize, b: usize) -> Option<(usize, usize)>
    ensures some { IfSome result (λ p. ElementsOf nodes.now a b p) }
    ensures none { IfNone result ((p : ℕ × ℕ) → ElementsOf nodes.now a b p → ⊥) }
{
    let (size, element) = dimension_at(nodes, a)?;
    let (other_size, other) = dimension_at(nodes, b)?;
    if fits_dimension(size, other_size) {
        Some((element, other))
    } else {
        None
    }
}

/// Whether no open dimension of an array stands below a fixed one.
fn open_first(nodes: &[TypeNode], place: usize) -> bool
    ensures { IsTrue result ↔ OpenFirst nodes.now (length nodes.now) place }
{
    let mut at = place;
    for _level in 0..nodes.len() {
        let Some(dimension) = dimension_at(nodes, at) else {
            return true;
        };
        if is_fixed_over_open(nodes, dimension.0, dimension.1) {
            return false;
        }
        at = dimension.1;
    }
    true
}

/// Whether a dimension of this size is fixed, and that of its elements is open.
fn is_fixed_over_open(nodes: &[TypeNode], size: Option<u128>, element: usize) -> bool
    ensures is { result ≡ true → (is_some size ≡ true) × ((f : ℕ) × (dimension_at nodes.now element ≡ Some (None, f))) }
    ensures not { result ≡ false → (f : ℕ) → is_some size ≡ true → dimension_at nodes.now element ≡ Some (None, f) → ⊥ }
{
    match (size, dimension_at(nodes, element)) {
        (Some(_), Some((None, _))) => true,
        (Some(_), Some((Some(_), _))) => false,
        (Some(_), None) => false,
        (None, _) => false,
    }
}

/// The types below all dimensions that fit.
fn innermost(nodes: &[TypeNode], a: usize, b: usize) -> (usize, usize)
    requires { 0 < length nodes.now }
    ensures below { FitsBelow nodes.now (length nodes.now) a b → Same nodes.now result.0 result.1 }
    ensures fits { Same nodes.now result.0 result.1 → FitsBelow nodes.now (length nodes.now) a b }
{
    let mut x = a;
    let mut y = b;
    for _level in 1..nodes.len() {
        let Some(elements) = elements_of(nodes, x, y) else {
            return (x, y);
        };
        x = elements.0;
        y = elements.1;
    }
    (x, y)
}

/// Whether both are arrays of which the first is below the second.
pub(crate) fn array_below(
    alloc: Global,
    nodes: &[TypeNode],
    a: usize,
    b: usize,
) -> Result<bool, NoMemory>
    ensures { IfOk result (λ yes. IsTrue yes ↔ ArrayBelow nodes.now a b) }
{
    let Some(elements) = elements_of(nodes, a, b) else {
        return Ok(false);
    };
    if nodes.is_empty() || !open_first(nodes, a) || !open_first(nodes, b) {
        return Ok(false);
    }
    let (x, y) = innermost(nodes, elements.0, elements.1);
    same_types(alloc, nodes, x, y)
}
