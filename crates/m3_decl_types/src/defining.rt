use crate::naming::type_declaration;
use bumpalo::collections::into_bump_slice;
use m3_base::{NoMemory, place_number};
use m3_const_values::{is_built_in, type_of};
use m3_decl_state::{Declarer, Trees};
use m3_link_gather::TypeAt;
use m3_link_scopes::{Entity, EntityId, EntityKind};
use m3_syntax::{Init, Name, TypeExp};
use m3_types::{Secret, TypeId, TypeNode};

/// Defines what no constant decides.
pub fn define_all<'a>(
    declarer: &mut Declarer<'_, 'a>,
    trees: &Trees<'_, 'a>,
) -> Result<(), NoMemory> {
    for written in &trees.gathered.types {
        define(declarer, written)?;
    }
    let program = declarer.eval.program;
    for (place, entity) in program.binds.entities().iter().enumerate() {
        let id = EntityId(place_number(place)?);
        define_entity(declarer, trees, id, entity)?;
    }
    Ok(())
}

fn define<'a>(declarer: &mut Declarer<'_, 'a>, written: &TypeAt<'a>) -> Result<(), NoMemory> {
    declarer.eval.unit = written.unit;
    let Some(kind) = type_of(&declarer.eval, written.kind) else {
        return Ok(());
    };
    match written.kind {
        TypeExp::Enumeration { members, .. } => define_enumeration(declarer, kind, members),
        TypeExp::Set { base, .. } => {
            let base = declarer.kind_of(base);
            declarer.set(kind, TypeNode::SetOf(base));
            Ok(())
        }
        TypeExp::Array {
            indexes,
            element,
            ..
        } => define_array(declarer, kind, indexes, element),
        _ => Ok(()),
    }
}

fn define_enumeration<'a>(
    declarer: &mut Declarer<'_, 'a>,
    kind: TypeId,
    members: &'a [Name<'a>],
) -> Result<(), NoMemory> {
    let mut names = Vec::new(declarer.eval.arena);
    for member in members {
        names.push(member.text)?;
    }
    declarer.set(kind, TypeNode::Enumeration(into_bump_slice(names)));
    Ok(())
}

/// An array of several dimensions is an array of arrays, at the places behind its own.
fn define_array<'a>(
    declarer: &mut Declarer<'_, 'a>,
    kind: TypeId,
    indexes: &'a [TypeExp<'a>],
    element: &'a TypeExp<'a>,
) -> Result<(), NoMemory> {
    let innermost = declarer.kind_of(element);
    if indexes.is_empty() {
        declarer.set(kind, TypeNode::OpenArray(innermost));
        return Ok(());
    }
    for (place, index) in indexes.iter().enumerate() {
        let here = TypeId(kind.0.saturating_add(place_number(place)?));
        let next = TypeId(here.0.saturating_add(1));
        let is_last = place.saturating_add(1) == indexes.len();
        let element = if is_last { innermost } else { next };
        let index = declarer.kind_of(index);
        declarer.set(here, TypeNode::FixedArray(index, element));
    }
    Ok(())
}

/// The type that the declaration of a variable, a formal or an exception gives.
fn given_type<'a>(trees: &Trees<'_, 'a>, entity: &Entity<'a>) -> Option<&'a TypeExp<'a>> {
    match entity.kind {
        EntityKind::Variable | EntityKind::Formal => match trees.init_of(entity) {
            Some(Init::Typed(kind, _)) => Some(*kind),
            _ => None,
        },
        EntityKind::Exception => trees.argument_of(entity),
        _ => None,
    }
}

fn define_entity<'a>(
    declarer: &mut Declarer<'_, 'a>,
    trees: &Trees<'_, 'a>,
    id: EntityId,
    entity: &Entity<'a>,
) -> Result<(), NoMemory> {
    declarer.eval.unit = entity.unit;
    if entity.kind == EntityKind::Opaque {
        if let Some(declared) = type_declaration(trees, entity) {
            define_opaque(declarer, id, entity, declared.kind);
        }
        return Ok(());
    }
    match given_type(trees, entity) {
        Some(written) => {
            let kind = declarer.kind_of(written);
            declarer.eval.declared.give_kind(id, kind)
        }
        None => Ok(()),
    }
}

fn define_opaque<'a>(
    declarer: &mut Declarer<'_, 'a>,
    id: EntityId,
    entity: &Entity<'a>,
    bound: &TypeExp<'a>,
) {
    let Some(kind) = declarer.eval.declared.type_named(id) else {
        return;
    };
    let bound = declarer.kind_of(bound);
    let secret = if !is_built_in(&declarer.eval, entity) {
        Secret::Revealed
    } else if entity.name == b"T".as_slice() {
        Secret::Thread
    } else {
        Secret::Condition
    };
    declarer.set(kind, TypeNode::Opaque(bound, secret));
}
