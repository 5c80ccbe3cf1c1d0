ghost use Rattle.std.specs.Prelude.{◌≡◌, false, List};
ghost use Rattle.m3_heap.specs.Shapes.{Shape};

use crate::layouts::{ARRAY, LINK, NODE, NUMBER};
use m3_heap::{SemiSpace, Store};
use std::alloc::{AllocError, Global};

/// Sets a word of the cell that starts at an address.
pub fn set<S: Store>(heap: &mut S, cell: u64, place: u64, word: u64)
    requires { (S.heap heap.old).is_open ≡ false }
    ensures closed { (S.heap heap.new).is_open ≡ false }
    ensures fitting { (shapes : List Shape) → S.fits heap.old shapes → S.fits heap.new shapes }
{
    let _is_set = heap.store(cell.saturating_add(place), word);
}

/// A list of as many links as fit, but no more than so many, numbered from the last one on: the
/// first link and how many there are.
pub fn list<S: Store>(heap: &mut S, links: u64) -> (u64, u64)
    requires { (S.heap heap.old).is_open ≡ false }
    ensures closed { (S.heap heap.new).is_open ≡ false }
    ensures fitting { (shapes : List Shape) → S.fits heap.old shapes → S.fits heap.new shapes }
{
    let mut first = 0;
    for number in 0..links {
        let Some(link) = heap.allocate(LINK, 3) else {
            return (first, number);
        };
        set(heap, link, 1, first);
        set(heap, link, 2, number);
        first = link;
    }
    (first, links)
}

/// A complete binary tree of so many nodes, as far as they fit, each numbered by its place from the
/// root, level by level: the root and how many nodes there are.
pub fn tree(alloc: Global, heap: &mut SemiSpace, nodes: u64) -> Result<(u64, u64), AllocError>
    requires { heap.old.halves.is_open ≡ false }
    ensures { heap.new.halves.is_open ≡ false }
{
    let mut made = Vec::new(alloc);
    for number in 0..nodes {
        let Some(node) = heap.allocate(NODE, 4) else {
            break;
        };
        set(heap, node, 3, number);
        made.push(node)?;
    }
    for (i, node) in made.iter().enumerate() {
        let left = i.saturating_mul(2).saturating_add(1);
        set(heap, *node, 1, made.get(left).copied().unwrap_or(0));
        set(
            heap,
            *node,
            2,
            made.get(left.saturating_add(1)).copied().unwrap_or(0),
        );
    }
    Ok((made.first().copied().unwrap_or(0), made.len() as u64))
}

/// An array of so many references, each to a cell with its place as its number, as far as they fit:
/// the array and how many cells there are.
pub fn array(heap: &mut SemiSpace, size: u64) -> (u64, u64)
    requires { heap.old.halves.is_open ≡ false }
    ensures { heap.new.halves.is_open ≡ false }
{
    let Some(array) = heap.allocate(ARRAY, size.saturating_add(2)) else {
        return (0, 0);
    };
    set(heap, array, 1, size);
    for place in 0..size {
        let Some(cell) = heap.allocate(NUMBER, 2) else {
            return (array, place);
        };
        set(heap, cell, 1, place);
        set(heap, array, place.saturating_add(2), cell);
    }
    (array, size)
}
