ghost use Rattle.std.specs.Prelude.{◌≡◌, IfOk};
ghost use Rattle.m3_mid_additions.specs.Additions.{IsWithAdded};

use crate::analysis::Analysis;
use crate::keeping::{Keep, Keeper, KeptWay, keep_all};
use crate::plans::{Base, Based, Derivation, WayPlan};
use crate::rewriting::rewrite;
use crate::shapes::{Shape, Shapes, shapes_of};
use crate::sources::Term;
use crate::stability::kept_temps;
use bumpalo::Bump;
use bumpalo::collections::into_bump_slice;
use m3_base::{NoMemory, place_number};
use m3_mid::{Kind, Proc};
use std::alloc::Global;

fn bases_of<'a>(arena: &'a Bump, terms: &[Term], is_taken: bool) -> Result<&'a [Base], NoMemory> {
    let mut bases = Vec::new(arena);
    for term in terms {
        if term.is_taken == is_taken {
            bases.push(term.base)?;
        }
    }
    Ok(into_bump_slice(bases))
}

fn way_plan<'a>(arena: &'a Bump, terms: &[Term]) -> Result<WayPlan<'a>, NoMemory> {
    let added = bases_of(arena, terms, false)?;
    let subtracted = bases_of(arena, terms, true)?;
    Ok(WayPlan { added, subtracted })
}

/// A derivation with one way.
fn one_way<'a>(arena: &'a Bump, terms: &[Term]) -> Result<Derivation<'a>, NoMemory> {
    let mut ways = Vec::new(arena);
    ways.push(way_plan(arena, terms)?)?;
    Ok(Derivation {
        path: None,
        ways: into_bump_slice(ways),
    })
}

/// A derivation by ways: with one way there is nothing to tell.
fn many_ways<'a>(
    arena: &'a Bump,
    path: u32,
    kept: &[KeptWay<'a>],
) -> Result<Derivation<'a>, NoMemory> {
    let mut ways = Vec::new(arena);
    for way in kept {
        ways.push(way_plan(arena, way.copies)?)?;
    }
    let path = if kept.len() < 2 { None } else { Some(path) };
    Ok(Derivation {
        path,
        ways: into_bump_slice(ways),
    })
}

fn derivation_of<'a>(
    arena: &'a Bump,
    shapes: &Shapes<'a>,
    keeper: &Keeper<'a>,
    temp: u32,
) -> Result<Derivation<'a>, NoMemory> {
    match keeper.keep(temp) {
        Keep::Shared(copies) => one_way(arena, copies),
        Keep::Ways { path, ways } => many_ways(arena, path, ways),
        Keep::No => match shapes.shape(temp) {
            Shape::Bases(terms) => one_way(arena, terms),
            _ => one_way(arena, &[]),
        },
    }
}

const UNDERIVED: Derivation = Derivation {
    path: None,
    ways: &[],
};

/// For each temporary its derivation, where some row needs it.
fn all_derivations<'a>(
    arena: &'a Bump,
    shapes: &Shapes<'a>,
    keeper: &Keeper<'a>,
    analysis: &Analysis,
) -> Result<&'a [Derivation<'a>], NoMemory> {
    let mut derivations = Vec::new(arena);
    for at in 0..keeper.kinds.len() {
        let temp = place_number(at)?;
        let derivation = if analysis.is_relevant(temp) {
            derivation_of(arena, shapes, keeper, temp)?
        } else {
            UNDERIVED
        };
        derivations.push(derivation)?;
    }
    Ok(into_bump_slice(derivations))
}

/// Whether there are derived temporaries.
fn has_addresses(p: &Proc) -> bool {
    for kind in p.temps {
        if *kind == Kind::Address {
            return true;
        }
    }
    false
}

/// A procedure without derived temporaries that rows name.
fn without_bases<'a>(arena: &'a Bump, p: Proc<'a>) -> Result<Based<'a>, NoMemory>
    ensures { IfOk result (λ b. b.proc ≡ p.entry) }
{
    let mut derivations = Vec::new(arena);
    for _temp in p.temps {
        derivations.push(UNDERIVED)?;
    }
    Ok(Based {
        proc: p,
        derivations: into_bump_slice(derivations),
    })
}

/// From which tidy pointers each derived temporary comes that the row of a point names: moves, sums
/// and differences are followed back to them. A base that may change while what comes from it is
/// live is copied to a temporary of its own. Where a derived temporary has several lists of bases,
/// a further temporary tells which one holds. The marks of loops, which name operations by their
/// numbers, are left out.
pub fn find_bases<'a>(alloc: Global, arena: &'a Bump, p: &Proc<'a>) -> Result<Based<'a>, NoMemory>
    ensures { IfOk result (λ b. IsWithAdded p.now b.proc) }
{
    let plain = Proc { loops: &[], ..*p };
    if !has_addresses(p) {
        return Ok(without_bases(arena, plain)?);
    }
    let analysis = Analysis::of(alloc, p)?;
    if !analysis.relevant.contains(&true) {
        return Ok(without_bases(arena, plain)?);
    }
    let mut shapes = shapes_of(alloc, arena, &analysis)?;
    let kept = kept_temps(alloc, &analysis, &shapes)?;
    let keeper = keep_all(alloc, arena, &analysis, &mut shapes, &kept)?;
    let blocks = rewrite(alloc, arena, &analysis, &mut shapes, &keeper)?;
    let derivations = all_derivations(arena, &shapes, &keeper, &analysis)?;
    let temps = arena.try_alloc_slice_copy(&keeper.kinds)?;
    Ok(Based {
        proc: Proc {
            temps,
            blocks,
            ..plain
        },
        derivations,
    })
}
