use crate::telling::{Told, all_told};
use m3_base::{NoMemory, rules};
use m3_decl_state::Declarer;
use m3_link_scopes::Declaration;
use m3_types::{TypeId, TypeNode};

/// A view in which no reveal applies.
const NO_VIEW: u32 = u32::MAX - 1;

/// Rule 45, reveal by reveal in the order of units and places.
pub fn judge_reveals<'a>(
    declarer: &mut Declarer<'_, 'a>,
    declarations: &[Declaration<'a>],
) -> Result<(), NoMemory> {
    let mut told = all_told(declarer, declarations)?;
    told.sort_by_key(|found: &Told| (found.opaque, found.unit, found.pos))?;
    let mut first = 0usize;
    for place in 0..told.len() {
        let Some(found) = told.get(place).copied() else {
            return Ok(());
        };
        if !is_of(&told, first, found.opaque) {
            first = place;
        }
        judge_reveal(declarer, &told, first, place, &found)?;
    }
    Ok(())
}

/// Whether the reveal at a place is one of an opaque type.
fn is_of(told: &[Told], place: usize, opaque: TypeId) -> bool {
    match told.get(place) {
        Some(found) => found.opaque == opaque,
        None => false,
    }
}

/// Judges the reveal at a place; those of the same opaque type stand from the first place on.
fn judge_reveal<'a>(
    declarer: &mut Declarer<'_, 'a>,
    told: &[Told],
    first: usize,
    place: usize,
    found: &Told,
) -> Result<(), NoMemory> {
    if declarer.is_refused(found.kind) {
        return Ok(());
    }
    if found.is_partial {
        judge_partial(declarer, told, first, place, found)
    } else {
        judge_full(declarer, told, first, found)
    }
}

/// A full reveal: a branded type, below the bound and the types of all partial reveals.
fn judge_full<'a>(
    declarer: &mut Declarer<'_, 'a>,
    told: &[Told],
    first: usize,
    found: &Told,
) -> Result<(), NoMemory> {
    let kind = taken_full(declarer, found.kind);
    let is_branded = matches!(
        declarer.eval.definition(kind),
        TypeNode::RefTo(Some(_), _) | TypeNode::Object(Some(_), _, _, _, _)
    );
    if !is_branded
        || !is_below_bound(declarer, kind, found.opaque)?
        || !is_below_partial(declarer, told, first, found.opaque, kind)?
    {
        declarer.note(found.unit, found.pos, rules::BAD_REVELATION);
    }
    Ok(())
}

/// Whether a type is below the bound of an opaque type.
fn is_below_bound<'a>(
    declarer: &Declarer<'_, 'a>,
    kind: TypeId,
    opaque: TypeId,
) -> Result<bool, NoMemory> {
    match declarer.eval.definition(opaque) {
        TypeNode::Opaque(bound, _) if !declarer.is_refused(bound) => {
            is_fully_below(declarer, kind, bound)
        }
        _ => Ok(true),
    }
}

/// Whether a type is below the types of all partial reveals of an opaque type, which stand from a
/// place on.
fn is_below_partial<'a>(
    declarer: &Declarer<'_, 'a>,
    told: &[Told],
    first: usize,
    opaque: TypeId,
    kind: TypeId,
) -> Result<bool, NoMemory> {
    for place in first..told.len() {
        match told.get(place) {
            Some(other) if other.opaque == opaque => {
                if other.is_partial
                    && !declarer.is_refused(other.kind)
                    && !is_fully_below(declarer, kind, other.kind)?
                {
                    return Ok(false);
                }
            }
            _ => return Ok(true),
        }
    }
    Ok(true)
}

/// A partial reveal: its type and that of each earlier one of the same opaque type are ordered.
fn judge_partial<'a>(
    declarer: &mut Declarer<'_, 'a>,
    told: &[Told],
    first: usize,
    place: usize,
    found: &Told,
) -> Result<(), NoMemory> {
    for earlier in first..place {
        if let Some(other) = told.get(earlier).copied() {
            if other.is_partial
                && !declarer.is_refused(other.kind)
                && !is_fully_below(declarer, found.kind, other.kind)?
                && !is_fully_below(declarer, other.kind, found.kind)?
            {
                declarer.note(found.unit, found.pos, rules::BAD_REVELATION);
                return Ok(());
            }
        }
    }
    Ok(())
}

/// A type, or for an opaque one of a given unit the type that fully reveals it.
fn taken_full<'a>(declarer: &Declarer<'_, 'a>, kind: TypeId) -> TypeId {
    let mut kind = kind;
    for _ in 0..declarer.eval.declared.types.nodes.len() {
        match declarer.eval.definition(kind) {
            TypeNode::Opaque(_, _) => match declarer.revealed(kind) {
                Some(full) => kind = full,
                None => return kind,
            },
            _ => return kind,
        }
    }
    kind
}

/// Whether a type is a subtype of another, each opaque type of a given unit taken as the type that
/// fully reveals it.
fn is_fully_below<'a>(declarer: &Declarer<'_, 'a>, a: TypeId, b: TypeId) -> Result<bool, NoMemory> {
    let above = taken_full(declarer, b);
    let mut at = taken_full(declarer, a);
    for _ in 0..declarer.eval.declared.types.nodes.len() {
        if m3_types_subtype::subtype(
            declarer.eval.alloc,
            &declarer.eval.declared.types,
            NO_VIEW,
            at,
            above,
        )? {
            return Ok(true);
        }
        match next_revealed(declarer, at) {
            Some(next) => at = next,
            None => return Ok(false),
        }
    }
    Ok(false)
}

/// The full reveal of the first opaque type among the ancestors of a type.
fn next_revealed<'a>(declarer: &Declarer<'_, 'a>, kind: TypeId) -> Option<TypeId> {
    let mut at = kind;
    for _ in 0..declarer.eval.declared.types.nodes.len() {
        let TypeNode::Object(_, parent, _, _, _) = declarer.eval.definition(at) else {
            return None;
        };
        if let TypeNode::Opaque(_, _) = declarer.eval.definition(parent) {
            let full = taken_full(declarer, parent);
            return if full == parent { None } else { Some(full) };
        }
        at = parent;
    }
    None
}
