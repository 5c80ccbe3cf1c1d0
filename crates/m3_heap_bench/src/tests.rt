ghost use Rattle.std.specs.Prelude.{◌≡◌, ◌≤◌, false, IfOk};

use crate::builders::{array, list, set, tree};
use crate::collecting::collect;
use crate::layouts::NODE;
use m3_heap::{SemiSpace, Steps, Store};
use std::alloc::{AllocError, Global};
use std::fmt::{Debug, Display};
use std::marker::Brand;
use std::process::Abort;
use std::sync::ledger::{Blank, Ledger};
use std::test::Fail;

/// Where the first half begins, and where the second does.
const HERE: u64 = 1 << 60;

const THERE: u64 = 1 << 61;

fn collect_with<L: Ledger>(heap: &mut SemiSpace, roots: &mut [u64], blank: Blank) -> bool
    requires closed { heap.old.halves.is_open ≡ false }
    requires name { blank.name ≡ L.name }
    requires parts { blank.parts ≡ L.parts }
    requires whole { blank.parts ≡ 1 }
    ensures { heap.new.halves.is_open ≡ false }
{
    let mut steps = Steps::<L>::new(blank);
    collect(heap, roots, &mut steps)
}

fn collected(heap: &mut SemiSpace, roots: &mut [u64]) -> bool
    requires { heap.old.halves.is_open ≡ false }
    ensures { heap.new.halves.is_open ≡ false }
{
    collect_with::<Brand>(heap, roots, Blank::new(1))
}

/// What was found is what was wanted.
fn expect<T: PartialEq + Debug + Drop>(rt: &impl Abort, found: T, wanted: T, what: &impl Display) {
    assert_eq!(rt; found, wanted, "{what}");
}

/// A word of the cell that lies so many words into the second half.
fn moved(heap: &SemiSpace, cell: u64, place: u64) -> u64
    requires { heap.now.halves.is_open ≡ false }
{
    let at = THERE.saturating_add(cell).saturating_add(place);
    heap.load(at).unwrap_or(u64::MAX)
}

/// What a collection of one root leaves: whether it traced all, the root, and the free words.
fn collect_one(heap: &mut SemiSpace, root: u64) -> (bool, u64, u64)
    requires { heap.old.halves.is_open ≡ false }
    ensures { heap.new.halves.is_open ≡ false }
{
    let mut roots = [root];
    let is_traced = collected(heap, &mut roots);
    (is_traced, roots[0], heap.free_words())
}

/// A list that fills its half: its links lie in order from the second half's first word on.
fn list_moves(rt: &impl Abort, alloc: Global, words: u64, links: u64, free: u64) -> Result<(), Fail>
    requires least { 64 ≤ words }
    requires most { words ≤ 67108864 }
{
    let mut heap = SemiSpace::new(alloc, words)?;
    let (first, made) = list(&mut heap, words);
    let left = collect_one(&mut heap, first);
    let right = links_in_order(&heap, links);
    expect(
        rt,
        (made, right, left),
        (links, links, (true, THERE, free)),
        &"a list",
    );
    Ok(())
}

/// How many links, in order from the second half's first word on, lead to the next one and count
/// down.
fn links_in_order(heap: &SemiSpace, links: u64) -> u64
    requires { heap.now.halves.is_open ≡ false }
{
    let mut right: u64 = 0;
    let mut cell: u64 = 0;
    for number in (0..links).rev() {
        let next = cell.saturating_add(3);
        let link = if number == 0 {
            0
        } else {
            THERE.saturating_add(next)
        };
        if moved(heap, cell, 0) == 3 << 32
            && moved(heap, cell, 1) == link
            && moved(heap, cell, 2) == number
        {
            right = right.saturating_add(1);
        }
        cell = next;
    }
    right
}

#[test]
fn a_full_half_in_one_list(rt: HostRuntime) -> Result<(), Fail> {
    list_moves(&rt, rt.alloc(), 1_048_576, 349_525, 1)
}

#[test]
fn a_chain_of_five_million_cells(rt: HostRuntime) -> Result<(), Fail> {
    list_moves(&rt, rt.alloc(), 15_000_000, 5_000_000, 0)
}

/// The address of a node in the second half, and 0 for a node that a tree of so many has not.
fn node(number: u64, nodes: u64) -> u64 {
    if number < nodes {
        THERE.saturating_add(number.saturating_mul(4))
    } else {
        0
    }
}

/// How many nodes, in order from the second half's first word on, lead to their children.
fn nodes_in_order(heap: &SemiSpace, nodes: u64) -> u64
    requires { heap.now.halves.is_open ≡ false }
{
    let mut right: u64 = 0;
    for number in 0..nodes {
        let cell = number.saturating_mul(4);
        let left = number.saturating_mul(2).saturating_add(1);
        if moved(heap, cell, 1) == node(left, nodes)
            && moved(heap, cell, 2) == node(left.saturating_add(1), nodes)
            && moved(heap, cell, 3) == number
        {
            right = right.saturating_add(1);
        }
    }
    right
}

#[test]
fn a_full_half_in_one_tree(rt: HostRuntime) -> Result<(), Fail> {
    let mut heap = SemiSpace::new(rt.alloc(), 1_048_576)?;
    let (root, made) = tree(rt.alloc(), &mut heap, 1_048_576)?;
    let left = collect_one(&mut heap, root);
    let right = nodes_in_order(&heap, 262_144);
    let wanted = (262_144, 262_144, (true, THERE, 0));
    expect(&rt, (made, right, left), wanted, &"a tree");
    Ok(())
}

/// How many words of the array at the second half's first word lead to the cells behind it, each
/// with its place as its number.
fn numbers_in_order(heap: &SemiSpace, numbers: u64) -> u64
    requires { heap.now.halves.is_open ≡ false }
{
    let mut right: u64 = 0;
    let mut cell = numbers.saturating_add(2);
    for number in 0..numbers {
        if moved(heap, 2, number) == THERE.saturating_add(cell) && moved(heap, cell, 1) == number {
            right = right.saturating_add(1);
        }
        cell = cell.saturating_add(2);
    }
    right
}

#[test]
fn a_full_half_in_one_array(rt: HostRuntime) -> Result<(), Fail> {
    let mut heap = SemiSpace::new(rt.alloc(), 1_048_576)?;
    let (all, made) = array(&mut heap, 349_524);
    let left = collect_one(&mut heap, all);
    let right = numbers_in_order(&heap, 349_524);
    let wanted = (349_524, 349_524, (true, THERE, 2));
    expect(&rt, (made, right, left), wanted, &"an array");
    expect(&rt, moved(&heap, 0, 1), 349_524, &"its size");
    Ok(())
}

#[test]
fn nothing_is_reached(rt: HostRuntime) -> Result<(), Fail> {
    let mut heap = SemiSpace::new(rt.alloc(), 1_048_576)?;
    let (_first, made) = list(&mut heap, 1_048_576);
    let is_traced = collected(&mut heap, &mut []);
    let free = heap.free_words();
    let (_again, again) = list(&mut heap, 1_048_576);
    expect(
        &rt,
        (is_traced, free, again),
        (true, 1_048_576, made),
        &"garbage",
    );
    Ok(())
}

/// Whether all is traced from these roots over a heap of two links: the second leads to the first,
/// which holds this word as its pointer.
fn is_traced(alloc: Global, held: u64, roots: &mut [u64]) -> Result<bool, Fail> {
    let mut heap = SemiSpace::new(alloc, 64)?;
    let (_first, _made) = list(&mut heap, 2);
    set(&mut heap, HERE, 1, held);
    Ok(collected(&mut heap, roots))
}

/// Words, and whether a collection takes them as pointers.
static WORDS: [(u64, bool); 9] = [
    (0, true),
    (HERE - 1, true),
    (HERE, true),
    (HERE + 1, false),
    (HERE + 3, true),
    (HERE + 5, false),
    (HERE + 6, false),
    (THERE, false),
    (u64::MAX, false),
];

/// What lies where heaps lie and is no cell's start is refused, where it is reached: as the pointer
/// of a cell, or as a root.
#[test]
fn bad_pointers(rt: HostRuntime) -> Result<(), Fail> {
    let alloc = rt.alloc();
    for (word, is_fine) in &WORDS {
        let found = (
            is_traced(alloc, *word, &mut [HERE + 3])?,
            is_traced(alloc, 0, &mut [*word])?,
            is_traced(alloc, *word, &mut [])?,
        );
        expect(&rt, found, (*is_fine, *is_fine, true), word);
    }
    Ok(())
}

/// No child.
const NONE: usize = 99;

/// Which cells are reached, by going over all cells as often as there are cells.
fn reached(
    alloc: Global,
    cells: &[(usize, usize)],
    roots: &[usize],
) -> Result<Vec<bool>, AllocError> {
    let mut found = vec![in alloc; false; cells.len()]?;
    mark(&mut found, roots);
    for _round in 0..cells.len() {
        for (i, (left, right)) in cells.iter().enumerate() {
            if found.get(i).copied().unwrap_or(false) {
                mark(&mut found, &[*left, *right]);
            }
        }
    }
    Ok(found)
}

fn mark(found: &mut Vec<bool>, cells: &[usize]) {
    for cell in cells {
        if let Some(is_found) = found.get_mut(*cell) {
            *is_found = true;
        }
    }
}

/// The address of the cell of a number, the cells having four words each.
fn address(cell: usize) -> u64 {
    if cell == NONE {
        0
    } else {
        HERE.saturating_add((cell as u64).saturating_mul(4))
    }
}

/// A heap of these cells, each with its number.
fn heap_of(alloc: Global, cells: &[(usize, usize)]) -> Result<SemiSpace, Fail>
    ensures { IfOk result (λ heap. heap.halves.is_open ≡ false) }
{
    let mut heap = SemiSpace::new(alloc, 64)?;
    for (i, (left, right)) in cells.iter().enumerate() {
        let node = heap.allocate(NODE, 4).ok_or("full")?;
        set(&mut heap, node, 1, address(*left));
        set(&mut heap, node, 2, address(*right));
        set(&mut heap, node, 3, i as u64);
    }
    Ok(heap)
}

/// The number of the cell that a word leads to.
fn number_at(heap: &SemiSpace, word: u64) -> u64
    requires { heap.now.halves.is_open ≡ false }
{
    if word == 0 {
        NONE as u64
    } else {
        heap.load(word.saturating_add(3)).unwrap_or(u64::MAX)
    }
}

/// The collector keeps the cells of the plain definition, each once, with its children.
fn agrees(
    rt: &impl Abort,
    alloc: Global,
    cells: &[(usize, usize)],
    roots: &[usize],
    kept: u64,
) -> Result<(), Fail> {
    let mut found = reached(alloc, cells, roots)?;
    let count = found.iter().filter(|is_found| **is_found).count() as u64;
    let mut words = Vec::new(alloc);
    for root in roots {
        words.push(address(*root))?;
    }
    let mut heap = heap_of(alloc, cells)?;
    let is_traced = collected(&mut heap, &mut words);
    let free = 64u64.saturating_sub(kept.saturating_mul(4));
    let right = right_cells(&heap, cells, &mut found, kept);
    expect(
        rt,
        (is_traced, count, heap.free_words(), right),
        (true, kept, free, kept),
        &"cells",
    );
    Ok(())
}

/// How many of so many cells of the second half are cells that were found, each once, and have the
/// children that they are to have.
fn right_cells(heap: &SemiSpace, cells: &[(usize, usize)], found: &mut Vec<bool>, kept: u64) -> u64
    requires { heap.now.halves.is_open ≡ false }
{
    let mut right: u64 = 0;
    for cell in 0..kept {
        let start = cell.saturating_mul(4);
        let number = moved(heap, start, 3) as usize;
        let children = (
            number_at(heap, moved(heap, start, 1)) as usize,
            number_at(heap, moved(heap, start, 2)) as usize,
        );
        if mark_off(found, number) && cells.get(number).copied() == Some(children) {
            right = right.saturating_add(1);
        }
    }
    right
}

/// Whether a cell was found and isn't marked off yet, which it is afterwards.
fn mark_off(found: &mut Vec<bool>, cell: usize) -> bool {
    match found.get_mut(cell) {
        Some(is_found) => {
            let was_found = *is_found;
            *is_found = false;
            was_found
        }
        None => false,
    }
}

/// Cells with their children, the roots, and how many cells are kept.
type Shape = (&'static [(usize, usize)], &'static [usize], u64);

static SHAPES: [Shape; 7] = [
    // One cell that leads to itself.
    (&[(0, 0)], &[0], 1),
    (&[(0, 0)], &[], 0),
    // Two that lead to each other, and one that leads to them.
    (&[(1, NONE), (0, NONE), (0, 1)], &[1], 2),
    // A diamond, rooted twice.
    (
        &[(NONE, NONE), (0, NONE), (NONE, 0), (1, 2), (3, 3)],
        &[3, 1, 3],
        4,
    ),
    // A ring of five with a tail, and a ring that nothing leads to.
    (
        &[
            (1, NONE),
            (2, NONE),
            (3, NONE),
            (4, NONE),
            (0, 5),
            (NONE, NONE),
            (7, NONE),
            (6, 0),
        ],
        &[2],
        6,
    ),
    // Cells that are made before what they lead to, and after.
    (
        &[(3, 2), (NONE, 4), (1, 1), (NONE, NONE), (2, 0), (0, 4)],
        &[0],
        5,
    ),
    (&[(NONE, NONE), (0, 0), (1, 1), (2, 2)], &[3, NONE], 4),
];

#[test]
fn cycles_and_sharing(rt: HostRuntime) -> Result<(), Fail> {
    for (cells, roots, kept) in &SHAPES {
        agrees(&rt, rt.alloc(), cells, roots, *kept)?;
    }
    Ok(())
}
