use m3_base::NoMemory;
use m3_check_state::Checker;
use m3_types::{Reveal, TypeId, TypeNode};
use m3_types_subtype::structure;

/// The structure that the unit sees of a type: of an opaque one its full reveal where one applies,
/// else the least of its partial reveals, else its bound, and so on.
pub fn visible_type(checker: &mut Checker<'_, '_>, kind: TypeId) -> Result<TypeId, NoMemory> {
    if !matches!(checker.node(kind), TypeNode::Opaque(_, _)) {
        return Ok(kind);
    }
    let key = (checker.unit, kind);
    if let Some(seen) = checker.seen.get(&key) {
        return Ok(*seen);
    }
    let found = structure(checker.alloc, &checker.declared.types, checker.unit, kind)?;
    checker.seen.insert(key, found)?;
    Ok(found)
}

/// Whether a full reveal of an opaque type applies in the unit.
pub fn is_unveiled(checker: &Checker<'_, '_>, opaque: TypeId) -> Result<bool, NoMemory> {
    let found = checker
        .declared
        .types
        .reveals_of(checker.alloc, checker.unit, opaque.0 as usize)?;
    Ok(has_full(checker, found.as_slice(), opaque))
}

fn has_full(checker: &Checker<'_, '_>, reveals: &[Reveal], opaque: TypeId) -> bool {
    for reveal in reveals {
        if reveal.view == checker.unit && reveal.opaque == opaque && reveal.full {
            return true;
        }
    }
    false
}
