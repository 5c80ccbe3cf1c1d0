use indexmap::IndexSet;
use m3_base::{NoMemory, Pos, place_number, rules};
use m3_const_values::{entity_named, type_of_entity};
use m3_decl_state::{Declarer, Trees};
use m3_link_scopes::{Declaration, Entity, EntityId, EntityKind};
use m3_syntax::{Qualid, TypeDecl, TypeExp, TypeName};
use m3_types::TypeId;

/// Where the definition of a type's name leads.
#[derive(Clone, Copy)]
enum Leads<'a> {
    Kind(TypeId),
    Name(&'a Qualid<'a>),
    Nowhere,
}

/// What a type's name stands for, or the name that it leads to.
#[derive(Clone, Copy)]
enum Step {
    Found(Option<TypeId>),
    Next(EntityId),
}

/// Gives each type's name the type that it stands for. Names for each other break rule 46.
pub fn name_all<'a>(
    declarer: &mut Declarer<'_, 'a>,
    trees: &Trees<'_, 'a>,
) -> Result<(), NoMemory> {
    name_opaque(declarer)?;
    for place in 0..declarer.eval.program.binds.entities().len() {
        let id = EntityId(place_number(place)?);
        name_type(declarer, trees, id)?;
    }
    Ok(())
}

fn name_opaque(declarer: &mut Declarer<'_, '_>) -> Result<(), NoMemory> {
    let program = declarer.eval.program;
    for (place, entity) in program.binds.entities().iter().enumerate() {
        if entity.kind == EntityKind::Opaque {
            let kind = declarer.eval.declared.types.reserve()?;
            let id = EntityId(place_number(place)?);
            declarer.eval.declared.name_type(id, kind)?;
        }
    }
    Ok(())
}

/// The declaration of a type's name.
pub fn type_declaration<'a>(
    trees: &Trees<'_, 'a>,
    entity: &Entity<'a>,
) -> Option<&'a TypeDecl<'a>> {
    match trees.declaration(entity)? {
        Declaration::Type(declared) => Some(*declared),
        _ => None,
    }
}

/// Where the definition of a type's name leads in its unit.
fn leads_to<'a>(declarer: &Declarer<'_, 'a>, unit: u32, declared: &'a TypeDecl<'a>) -> Leads<'a> {
    let mut kind = declared.kind;
    'parentheses: loop {
        match kind {
            TypeExp::Parenthesis { inner, .. } => kind = inner,
            TypeExp::Bits { target, .. } => kind = target,
            _ => break 'parentheses,
        }
    }
    match kind {
        TypeExp::Named(TypeName::Named(name)) => Leads::Name(name),
        TypeExp::Named(TypeName::Root(_)) => Leads::Kind(declarer.eval.declared.basic.root),
        TypeExp::Named(TypeName::UntracedRoot(_)) => Leads::Nowhere,
        other => match declarer.eval.declared.type_at(unit, other.pos()) {
            Some(kind) => Leads::Kind(kind),
            None => Leads::Nowhere,
        },
    }
}

/// Names a type, and the types whose names lead from it to what it stands for.
fn name_type<'a>(
    declarer: &mut Declarer<'_, 'a>,
    trees: &Trees<'_, 'a>,
    id: EntityId,
) -> Result<(), NoMemory> {
    let mut path = IndexSet::new(declarer.eval.alloc);
    let kind = follow(declarer, trees, &mut path, id)?;
    name_path(declarer, &path, kind)
}

fn name_path(
    declarer: &mut Declarer<'_, '_>,
    path: &IndexSet<EntityId>,
    kind: TypeId,
) -> Result<(), NoMemory> {
    for name in path.iter() {
        declarer.eval.declared.name_type(*name, kind)?;
    }
    Ok(())
}

/// What a type's name stands for; the names on the way are added to the path.
fn follow<'a>(
    declarer: &mut Declarer<'_, 'a>,
    trees: &Trees<'_, 'a>,
    path: &mut IndexSet<EntityId>,
    id: EntityId,
) -> Result<TypeId, NoMemory> {
    let refused = declarer.eval.declared.basic.refused;
    let mut at = id;
    'names: for _ in 0..u64::MAX {
        match take_step(declarer, trees, path, at)? {
            Step::Found(kind) => return Ok(kind.unwrap_or(refused)),
            Step::Next(next) => at = next,
        }
    }
    Ok(refused)
}

fn take_step<'a>(
    declarer: &mut Declarer<'_, 'a>,
    trees: &Trees<'_, 'a>,
    path: &mut IndexSet<EntityId>,
    at: EntityId,
) -> Result<Step, NoMemory> {
    let Some(entity) = declarer.eval.program.binds.entity(at) else {
        return Ok(Step::Found(None));
    };
    if entity.kind != EntityKind::Type {
        return Ok(Step::Found(type_of_entity(&declarer.eval, at)));
    }
    if let Some(kind) = declarer.eval.declared.type_named(at) {
        return Ok(Step::Found(Some(kind)));
    }
    if let Some(first) = path.get_index_of(&at) {
        refuse_names(declarer, path, first);
        return Ok(Step::Found(Some(declarer.eval.declared.basic.refused)));
    }
    path.insert(at)?;
    match type_declaration(trees, &entity) {
        Some(declared) => Ok(step_from(declarer, &entity, declared)),
        None => Ok(Step::Found(None)),
    }
}

/// The step from the declaration of a type's name.
fn step_from<'a>(
    declarer: &mut Declarer<'_, 'a>,
    entity: &Entity<'a>,
    declared: &'a TypeDecl<'a>,
) -> Step {
    declarer.eval.unit = entity.unit;
    match leads_to(declarer, entity.unit, declared) {
        Leads::Kind(kind) => {
            stand_at(declarer, kind, entity.pos);
            Step::Found(Some(kind))
        }
        Leads::Nowhere => Step::Found(None),
        Leads::Name(name) => match entity_named(&declarer.eval, name) {
            Some(next) => Step::Next(next),
            None => Step::Found(None),
        },
    }
}

/// Rule 46 for names that lead to each other.
fn refuse_names(declarer: &mut Declarer<'_, '_>, path: &IndexSet<EntityId>, first: usize) {
    for (place, id) in path.iter().enumerate() {
        if place >= first {
            if let Some((unit, pos)) = declarer.place_of(*id) {
                declarer.note(unit, pos, rules::ILLEGAL_RECURSION);
            }
        }
    }
}

/// Rule 46 for a type that has a name is reported at the name.
fn stand_at(declarer: &mut Declarer<'_, '_>, kind: TypeId, pos: Pos) {
    if let Some(plan) = declarer.plans.get_mut(&kind) {
        plan.pos = pos;
        plan.is_named = true;
    }
}
