use crate::tests::{expect, field, fill, put, put_families, put_graph};
use bumpalo::Bump;
use m3_types::{TypeGraph, TypeId, TypeNode};
use m3_types_partition::Classes;
use m3_types_subtype::same;
use std::alloc::Global;
use std::process::Abort;
use std::test::Fail;

// Two types have one class exactly where they are the same, for each pair of a graph.
fn check_pairs(rt: &impl Abort, alloc: Global, types: &TypeGraph) -> Result<(), Fail> {
    let classes = Classes::of(alloc, types)?;
    let count = u32::try_from(types.nodes.len()).unwrap_or(0);
    assert!(rt; count > 0);
    for a in 0..count {
        for b in 0..a {
            let is_same = same(alloc, types, TypeId(a), TypeId(b))?;
            let is_told = classes.number(TypeId(a)) == classes.number(TypeId(b));
            expect(rt, (a, b, is_told), (a, b, is_same), &"two types");
        }
    }
    Ok(())
}

#[test]
fn classes_of_worked_examples(rt: HostRuntime) -> Result<(), Fail> {
    let alloc = rt.alloc();
    let mut types = TypeGraph::new(alloc);
    put_graph(&mut types)?;
    check_pairs(&rt, alloc, &types)?;
    let classes = Classes::of(alloc, &types)?;
    expect(&rt, classes.number(TypeId(1_000_000)), None, &"no type");
    Ok(())
}

// The next number of a row that looks random (Knuth's multiplier for 64 bits).
fn next(seed: &mut u64) -> u32 {
    *seed = seed
        .wrapping_mul(6_364_136_223_846_793_005)
        .wrapping_add(1_442_695_040_888_963_407);
    (*seed >> 40) as u32
}

// Twelve types of few forms, each with parts among the others.
fn put_some<'a>(types: &mut TypeGraph<'a>, bump: &'a Bump, seed: &mut u64) -> Result<(), Fail> {
    for _ in 0..12u32 {
        types.reserve()?;
    }
    for place in 0..12u32 {
        let first = next(seed) % 12;
        let second = next(seed) % 12;
        let node = match next(seed) % 6 {
            0 => TypeNode::Integer,
            1 | 2 => TypeNode::RefTo(None, TypeId(first)),
            3 => TypeNode::FixedArray(TypeId(first), TypeId(second)),
            _ => TypeNode::Fields(bump.try_alloc_slice_copy(&[
                field(b"a", first),
                field(b"b", second),
            ])?),
        };
        fill(types, place, node);
    }
    Ok(())
}

#[test]
fn classes_of_random_graphs(rt: HostRuntime) -> Result<(), Fail> {
    let alloc = rt.alloc();
    let mut seed = 1u64;
    for _ in 0..400u32 {
        let bump = Bump::new(alloc);
        let mut types = TypeGraph::new(alloc);
        put_some(&mut types, &bump, &mut seed)?;
        check_pairs(&rt, alloc, &types)?;
    }
    Ok(())
}

// How many pairs of a type and the one so many places behind it have one class.
fn pairs_alike(classes: &Classes, types: u32, behind: u32) -> u32 {
    let mut alike: u32 = 0;
    for place in 0..types {
        let mate = place.wrapping_add(behind);
        if classes.number(TypeId(place)) == classes.number(TypeId(mate)) {
            alike = alike.saturating_add(1);
        }
    }
    alike
}

// Each type of one family has the class of its mate exactly where the families don't differ.
fn check_families(rt: &impl Abort, alloc: Global, differ: bool, wanted: u32) -> Result<(), Fail> {
    let bump = Bump::new(alloc);
    let mut types = TypeGraph::new(alloc);
    put_families(&mut types, &bump, 20000, differ)?;
    let classes = Classes::of(alloc, &types)?;
    expect(
        rt,
        pairs_alike(&classes, 40000, 40000),
        wanted,
        &"types with their mates' class",
    );
    Ok(())
}

#[test]
fn classes_of_large_families(rt: HostRuntime) -> Result<(), Fail> {
    let alloc = rt.alloc();
    check_families(&rt, alloc, false, 40000)?;
    check_families(&rt, alloc, true, 0)
}

// A chain of count references to records of one field, down to INTEGER, and a second one like it.
fn put_chains<'a>(types: &mut TypeGraph<'a>, bump: &'a Bump, count: u32) -> Result<(), Fail> {
    put(types, TypeNode::Integer)?;
    for chain in 0..2u32 {
        let mut below = 0u32;
        for step in 0..count {
            let at = chain.wrapping_mul(count).wrapping_add(step).wrapping_mul(2);
            let fields = bump.try_alloc_slice_copy(&[field(b"a", below)])?;
            put(types, TypeNode::Fields(fields))?;
            put(types, TypeNode::RefTo(None, TypeId(at.wrapping_add(1))))?;
            below = at.wrapping_add(2);
        }
    }
    Ok(())
}

// Behind INTEGER the types of the second chain have the classes of the first's, all apart.
#[test]
fn classes_of_long_chains(rt: HostRuntime) -> Result<(), Fail> {
    let alloc = rt.alloc();
    let bump = Bump::new(alloc);
    let mut types = TypeGraph::new(alloc);
    put_chains(&mut types, &bump, 20000)?;
    let classes = Classes::of(alloc, &types)?;
    let first = classes.number(TypeId(0));
    let found = (
        classes.number(TypeId(40_000)) == classes.number(TypeId(80_000)),
        pairs_alike(&classes, 40_000, 40_000),
        pairs_alike(&classes, 40_000, 1),
        pairs_alike(&classes, 40_000, 2),
    );
    let wanted = (true, 39_999, 0, 0);
    expect(&rt, found, wanted, &"pairs with one class");
    expect(&rt, first.is_some(), true, &"a class of INTEGER");
    Ok(())
}
