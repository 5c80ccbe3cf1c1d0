use indexmap::IndexSet;
use m3_base::{NoMemory, Pos, place_number};
use m3_const_values::type_of;
use m3_decl_state::Declarer;
use m3_link_scopes::{Declaration, Revealed};
use m3_syntax::TypeExp;
use m3_types::{Reveal, TypeGraph, TypeId, TypeNode};

/// A revelation with its types.
#[derive(Clone, Copy)]
pub struct Told {
    pub unit: u32,
    pub pos: Pos,
    pub opaque: TypeId,
    pub kind: TypeId,
    pub is_partial: bool,
}

/// A revelation with its types; none where one of them was refused.
fn types_of<'a>(
    declarer: &mut Declarer<'_, 'a>,
    revealed: &Revealed,
    written: &TypeExp<'a>,
) -> Option<Told> {
    let opaque = declarer.eval.declared.type_named(revealed.opaque)?;
    let TypeNode::Opaque(_, _) = declarer.eval.definition(opaque) else {
        return None;
    };
    declarer.eval.unit = revealed.unit;
    let kind = type_of(&declarer.eval, written)?;
    if kind == declarer.eval.declared.basic.refused {
        return None;
    }
    Some(Told {
        unit: revealed.unit,
        pos: revealed.pos,
        opaque,
        kind,
        is_partial: revealed.is_partial,
    })
}

/// The type that a revelation gives an opaque type.
fn revealing<'a>(declarations: &[Declaration<'a>], revealed: &Revealed) -> Option<&'a TypeExp<'a>> {
    match declarations.get(revealed.declaration as usize) {
        Some(Declaration::Reveal(written)) => Some(written.kind),
        _ => None,
    }
}

/// All revelations whose types weren't refused, in the order of units.
pub fn all_told<'a>(
    declarer: &mut Declarer<'_, 'a>,
    declarations: &[Declaration<'a>],
) -> Result<Vec<Told>, NoMemory> {
    let mut told = Vec::new(declarer.eval.alloc);
    let program = declarer.eval.program;
    for revealed in &program.reveals {
        if let Some(written) = revealing(declarations, revealed) {
            if let Some(found) = types_of(declarer, revealed, written) {
                told.push(found)?;
            }
        }
    }
    told.sort_by_key(|found: &Told| found.unit)?;
    Ok(told)
}

/// Lists each reveal for the whole program and for each unit where it applies: its own, and if
/// this is an interface those that import or export it.
pub fn list_reveals<'a>(
    declarer: &mut Declarer<'_, 'a>,
    declarations: &[Declaration<'a>],
) -> Result<(), NoMemory> {
    let told = all_told(declarer, declarations)?;
    for found in &told {
        reveal(declarer, TypeGraph::WHOLE_PROGRAM, found)?;
    }
    list_in_views(declarer, &told)
}

/// Notes each reveal where it applies, before the definitions of all types are there.
pub fn note_reveals<'a>(
    declarer: &mut Declarer<'_, 'a>,
    declarations: &[Declaration<'a>],
) -> Result<(), NoMemory> {
    let told = all_told(declarer, declarations)?;
    list_in_views(declarer, &told)
}

fn list_in_views<'a>(declarer: &mut Declarer<'_, 'a>, told: &[Told]) -> Result<(), NoMemory> {
    for unit in 0..declarer.eval.program.infos.len() {
        let seen = seen_units(declarer, unit)?;
        let view = place_number(unit)?;
        for other in &seen {
            reveal_in(declarer, view, *other, told)?;
        }
    }
    Ok(())
}

/// The unit itself and the interfaces that it imports and exports, each once.
fn seen_units<'a>(declarer: &Declarer<'_, 'a>, unit: usize) -> Result<IndexSet<u32>, NoMemory> {
    let mut seen = IndexSet::new(declarer.eval.alloc);
    seen.insert(place_number(unit)?)?;
    if let Some(info) = declarer.eval.program.infos.get(unit) {
        for other in &info.imports {
            seen.insert(*other)?;
        }
        for other in &info.exports {
            seen.insert(*other)?;
        }
    }
    Ok(seen)
}

/// Lists the reveals of a unit, which stand in a row, for a view.
fn reveal_in<'a>(
    declarer: &mut Declarer<'_, 'a>,
    view: u32,
    unit: u32,
    told: &[Told],
) -> Result<(), NoMemory> {
    let first = told.partition_point(|found| found.unit < unit);
    for place in first..told.len() {
        match told.get(place) {
            Some(found) if found.unit == unit => reveal(declarer, view, found)?,
            _ => return Ok(()),
        }
    }
    Ok(())
}

fn reveal<'a>(declarer: &mut Declarer<'_, 'a>, view: u32, told: &Told) -> Result<(), NoMemory> {
    let reveal = Reveal {
        view,
        opaque: told.opaque,
        bound: told.kind,
        full: !told.is_partial,
    };
    if !declarer.has_definitions {
        return note_reveal(declarer, &reveal);
    }
    if (told.opaque.0 as usize) >= declarer.eval.declared.types.nodes.len() {
        return Ok(());
    }
    declarer.eval.declared.types.reveal(reveal)
}

fn note_reveal<'a>(declarer: &mut Declarer<'_, 'a>, reveal: &Reveal) -> Result<(), NoMemory> {
    let key = (reveal.view, reveal.opaque);
    if reveal.full || !declarer.eval.early.contains_key(&key) {
        declarer.eval.early.insert(key, *reveal)?;
    }
    Ok(())
}
