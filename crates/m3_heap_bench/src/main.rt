//! Makes heaps of several shapes, collects each of them some times, and prints how many words were
//! moved. An argument says how many times, and without one it is 10; another names the one shape that
//! is done.
#![tactic(auto)]

ghost use Rattle.std.specs.Prelude.{◌≡◌, false, IfOk};

use builders::{array, list, tree};
use collecting::{links_kept, words_moved};
use m3_generational::Generational;
use m3_heap::{SemiSpace, Steps};
use std::alloc::{AllocError, Global};
use std::marker::Brand;
use std::sync::ledger::{Blank, Ledger};
use std::{env, io, mem};

mod builders;
mod collecting;
mod layouts;
#[cfg(test)]
mod tests;

/// The words of one half.
const WORDS: u64 = 1_048_576;

/// An empty heap.
fn new_heap(alloc: Global) -> io::Result<SemiSpace>
    ensures { IfOk result (λ heap. heap.halves.is_open ≡ false) }
{
    match SemiSpace::new(alloc, WORDS) {
        Ok(heap) => Ok(heap),
        Err(_no_memory) => Err(io::Error::from(AllocError)),
    }
}

/// How many cells a shape has in a full half, and how many words so many collections of it move.
struct Moved {
    cells: u64,
    words: u64,
}

fn of_list<L: Ledger>(alloc: Global, rounds: u64, steps: &mut Steps<L>) -> io::Result<Moved> {
    let mut heap = new_heap(alloc)?;
    let (first, cells) = list(&mut heap, WORDS);
    let words = words_moved(&mut heap, WORDS, &mut [first], rounds, steps);
    Ok(Moved { cells, words })
}

fn of_tree<L: Ledger>(alloc: Global, rounds: u64, steps: &mut Steps<L>) -> io::Result<Moved> {
    let mut heap = new_heap(alloc)?;
    let (root, cells) = tree(alloc, &mut heap, WORDS)?;
    let words = words_moved(&mut heap, WORDS, &mut [root], rounds, steps);
    Ok(Moved { cells, words })
}

fn of_array<L: Ledger>(alloc: Global, rounds: u64, steps: &mut Steps<L>) -> io::Result<Moved> {
    let mut heap = new_heap(alloc)?;
    let (all, cells) = array(&mut heap, (WORDS - 2) / 3);
    let words = words_moved(&mut heap, WORDS, &mut [all], rounds, steps);
    Ok(Moved { cells, words })
}

fn of_garbage<L: Ledger>(alloc: Global, rounds: u64, steps: &mut Steps<L>) -> io::Result<Moved> {
    let mut heap = new_heap(alloc)?;
    let (_first, cells) = list(&mut heap, WORDS);
    let words = words_moved(&mut heap, WORDS, &mut [], rounds, steps);
    Ok(Moved { cells, words })
}

/// A heap with a nursery: at each collection an eighth of the nursery is kept, and the rest is garbage.
fn of_young<L: Ledger>(alloc: Global, rounds: u64, steps: &mut Steps<L>) -> io::Result<Moved> {
    let mut heap = match Generational::new(alloc, WORDS) {
        Ok(heap) => heap,
        Err(_no_memory) => return Err(io::Error::from(AllocError)),
    };
    let cells = WORDS / 4 / 3 / 8;
    let words = links_kept(&mut heap, cells, rounds, steps).saturating_mul(3);
    Ok(Moved { cells, words })
}

/// No heap: so many words are copied from one row to another and back.
fn of_row(alloc: Global, cells: u64, rounds: u64) -> io::Result<Moved> {
    let mut here = vec![in alloc; 1u64; cells as usize]?;
    let mut there = vec![in alloc; 0u64; cells as usize]?;
    for _round in 0..rounds {
        there.copy_from_slice(&here);
        mem::swap(&mut here, &mut there);
    }
    let words = cells.saturating_mul(rounds);
    Ok(Moved { cells, words })
}

/// What is measured of a shape's name: nothing where it is none.
fn measured<L: Ledger>(
    alloc: Global,
    shape: &str,
    rounds: u64,
    steps: &mut Steps<L>,
) -> io::Result<Option<Moved>> {
    let moved = match shape {
        "list" => of_list(alloc, rounds, steps)?,
        "tree" => of_tree(alloc, rounds, steps)?,
        "array" => of_array(alloc, rounds, steps)?,
        "garbage" => of_garbage(alloc, rounds, steps)?,
        "young" => of_young(alloc, rounds, steps)?,
        "row" => of_row(alloc, WORDS, rounds)?,
        _ => return Ok(None),
    };
    Ok(Some(moved))
}

/// The shapes by their names.
static SHAPES: [&str; 6] = ["list", "tree", "array", "garbage", "young", "row"];

fn report(rt: &impl Print, shape: &str, moved: Option<Moved>) -> io::Result<()> {
    match moved {
        Some(Moved { cells, words }) => println!(rt;
            "{shape} of {cells} cells: {words} words moved"
        ),
        None => Ok(()),
    }
}

/// Fills a half with small cells in one list, in one tree, in one array of references, and in a
/// list that no root leads to, and collects each heap so many times; does as much with a nursery; and
/// copies a row of words. Where a shape is named, it is done with that alone.
fn run<L: Ledger>(
    rt: &impl Print,
    alloc: Global,
    rounds: u64,
    named: Option<&str>,
    blank: Blank,
) -> io::Result<()>
    requires name { blank.name ≡ L.name }
    requires parts { blank.parts ≡ L.parts }
    requires whole { blank.parts ≡ 1 }
{
    let mut steps = Steps::<L>::new(blank);
    if let Some(shape) = named {
        return report(rt, shape, measured(alloc, shape, rounds, &mut steps)?);
    }
    for shape in &SHAPES {
        report(rt, shape, measured(alloc, shape, rounds, &mut steps)?)?;
    }
    Ok(())
}

fn main(rt: HostRuntime) -> io::Result<()> {
    let mut rounds = 10;
    let mut named = None;
    for word in env::args(&rt)?.skip(1) {
        match word.as_str().parse::<u64>() {
            Ok(number) => rounds = number,
            Err(_no_number) => named = Some(word),
        }
    }
    run::<Brand>(&rt, rt.alloc(), rounds, named.as_deref(), Blank::new(1))
}
