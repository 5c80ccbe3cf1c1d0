use m3_base::{Pos, rules};
use m3_link_scopes::{Declaration, Entity, EntityId, EntityKind, Linker, Revealed};
use m3_syntax::{Qualid, Revelation, TypeDecl, TypeExp, TypeName};

/// What a qualified name of a unit stands for, which was walked before.
fn found<'a>(linker: &Linker<'a>, unit: u32, name: &Qualid<'a>) -> Option<EntityId> {
    let first = linker.binds.at(unit, name.first.pos)?;
    match (linker.entity_of(first)?.kind, name.second) {
        (_, None) => Some(first),
        (EntityKind::Import(_), Some(second)) => linker.binds.at(unit, second.pos),
        (_, Some(_)) => None,
    }
}

/// The name that a type declaration gives another name to, through parentheses.
fn name_behind<'a>(kind: &'a TypeExp<'a>) -> Option<&'a Qualid<'a>> {
    let mut kind = kind;
    'parentheses: loop {
        match kind {
            TypeExp::Parenthesis { inner, .. } => kind = inner,
            TypeExp::Named(TypeName::Named(name)) => return Some(name),
            _ => break 'parentheses,
        }
    }
    None
}

/// The declaration of a type's name.
fn type_declaration<'a>(linker: &Linker<'a>, entity: &Entity<'a>) -> Option<&'a TypeDecl<'a>> {
    match linker.declarations.get(entity.declaration? as usize) {
        Some(Declaration::Type(declared)) => Some(*declared),
        _ => None,
    }
}

/// A revelation as it is written.
fn revelation<'a>(linker: &Linker<'a>, revealed: &Revealed) -> Option<&'a Revelation<'a>> {
    match linker.declarations.get(revealed.declaration as usize) {
        Some(Declaration::Reveal(written)) => Some(*written),
        _ => None,
    }
}

/// The opaque type that a type's name stands for, through at most as many names as there are.
fn opaque_behind<'a>(linker: &Linker<'a>, id: EntityId) -> Option<EntityId> {
    let mut id = id;
    for _ in 0..linker.binds.entities().len() {
        let entity = linker.entity_of(id)?;
        match entity.kind {
            EntityKind::Opaque => return Some(id),
            EntityKind::Type => {
                let declared = type_declaration(linker, &entity)?;
                id = found(linker, entity.unit, name_behind(declared.kind)?)?;
            }
            _ => return None,
        }
    }
    None
}

/// Finds what each revelation reveals, and judges rules 35, 31 and 30.
pub fn judge_reveals(linker: &mut Linker<'_>) {
    for place in 0..linker.reveals.len() {
        judge_reveal(linker, place);
    }
    for place in 0..linker.binds.entities().len() {
        judge_opaque(linker, place);
    }
}

fn judge_reveal(linker: &mut Linker<'_>, place: usize) {
    let Some(revealed) = linker.reveals.get(place).copied() else {
        return;
    };
    linker.unit = revealed.unit;
    let Some(opaque) = given_opaque(linker, &revealed) else {
        if is_known(linker, &revealed) {
            linker.note(revealed.pos, rules::NOT_AN_OPAQUE_TYPE);
        }
        return;
    };
    if let Some(here) = linker.reveals.get_mut(place) {
        here.opaque = opaque;
    }
    if !revealed.is_partial {
        reveal_fully(linker, opaque, place, revealed.pos);
    }
}

/// The opaque type of a given unit that a revelation names.
fn given_opaque(linker: &Linker<'_>, revealed: &Revealed) -> Option<EntityId> {
    let written = revelation(linker, revealed)?;
    let named = found(linker, revealed.unit, &written.name)?;
    let opaque = opaque_behind(linker, named)?;
    if is_given(linker, opaque) {
        Some(opaque)
    } else {
        None
    }
}

/// Whether the revealed name stands for something; where it doesn't, that was refused before.
fn is_known(linker: &Linker<'_>, revealed: &Revealed) -> bool {
    let Some(written) = revelation(linker, revealed) else {
        return false;
    };
    let Some(first) = linker.binds.at(revealed.unit, written.name.first.pos) else {
        return false;
    };
    match (linker.entity_of(first), written.name.second) {
        (None, _) => false,
        (Some(first), Some(second)) if matches!(first.kind, EntityKind::Import(_)) => {
            linker.binds.at(revealed.unit, second.pos).is_some()
        }
        (Some(_), _) => true,
    }
}

fn is_given(linker: &Linker<'_>, id: EntityId) -> bool {
    let Some(entity) = linker.entity_of(id) else {
        return false;
    };
    match linker.infos.get(entity.unit as usize) {
        Some(info) => !info.is_built_in,
        None => false,
    }
}

fn reveal_fully(linker: &mut Linker<'_>, opaque: EntityId, place: usize, pos: Pos) {
    let first = match linker.entity_of(opaque) {
        Some(entity) => entity.revealed,
        None => None,
    };
    if first.is_some() {
        linker.note(pos, rules::TWO_FULL_REVELATIONS);
        return;
    }
    let Ok(place) = u32::try_from(place) else {
        return;
    };
    if let Some(entity) = linker.binds.entity_mut(opaque) {
        entity.revealed = Some(place);
    }
}

fn judge_opaque(linker: &mut Linker<'_>, place: usize) {
    let Some(entity) = linker.binds.entities().get(place).copied() else {
        return;
    };
    if entity.kind == EntityKind::Opaque && entity.revealed.is_none() {
        linker.unit = entity.unit;
        linker.note(entity.pos, rules::NO_FULL_REVELATION);
    }
}
