use crate::numbering::{number_exceptions, number_procedures, number_texts};
use m3_base::{NoMemory, Pos, place_number};
use m3_const_values::Need;
use m3_decl_state::{Declarer, Plan, Trees, Writings, Written};
use m3_link_gather::TypeAt;
use m3_link_scopes::{Declaration, Entity, EntityId, EntityKind};
use m3_syntax::{ObjectPart, TypeExp};
use m3_types::TypeId;

/// Gives each type expression, method and procedure a place in the graph, and numbers to
/// texts, procedures and exceptions.
pub fn reserve_all<'a>(
    declarer: &mut Declarer<'_, 'a>,
    trees: &mut Trees<'_, 'a>,
) -> Result<(), NoMemory> {
    let refused = Need::Node(declarer.eval.declared.basic.refused);
    declarer.eval.settled.insert(refused)?;
    number_texts(declarer, trees.gathered.texts.as_slice())?;
    number_exceptions(declarer)?;
    number_procedures(declarer)?;
    for written in &trees.gathered.types {
        reserve_type(declarer, &mut trees.written, written)?;
    }
    reserve_procedures(declarer, trees)
}

/// A place for a definition that is a task.
fn plan_type(declarer: &mut Declarer<'_, '_>, unit: u32, pos: Pos) -> Result<TypeId, NoMemory> {
    let kind = declarer.eval.declared.types.reserve()?;
    declarer.planned.push(kind)?;
    declarer.plans.insert(
        kind,
        Plan {
            unit,
            pos,
            is_named: false,
        },
    )?;
    Ok(kind)
}

/// A place for the definition of a type that has NIL.
fn plan_nilable(declarer: &mut Declarer<'_, '_>, unit: u32, pos: Pos) -> Result<TypeId, NoMemory> {
    let kind = plan_type(declarer, unit, pos)?;
    declarer.eval.nilable.insert(kind)?;
    Ok(kind)
}

fn reserve_type<'a>(
    declarer: &mut Declarer<'_, 'a>,
    writings: &mut Writings<'a>,
    written: &TypeAt<'a>,
) -> Result<(), NoMemory> {
    let unit = written.unit;
    let exp = written.kind;
    let pos = exp.pos();
    let kind = match exp {
        TypeExp::Subrange { .. } | TypeExp::Record { .. } => {
            let kind = plan_type(declarer, unit, pos)?;
            writings.insert(kind, Written::Type(exp))?;
            kind
        }
        TypeExp::Ref { .. } => {
            let kind = plan_nilable(declarer, unit, pos)?;
            writings.insert(kind, Written::Type(exp))?;
            kind
        }
        TypeExp::Procedure { signature, .. } => {
            let kind = plan_nilable(declarer, unit, pos)?;
            writings.insert(kind, Written::Signature(signature))?;
            kind
        }
        TypeExp::Object { parts, .. } => reserve_parts(declarer, writings, unit, exp, parts)?,
        TypeExp::Array { indexes, .. } => reserve_row(declarer, indexes.len().max(1))?,
        _ => declarer.eval.declared.types.reserve()?,
    };
    declarer.eval.declared.place_type(unit, pos, kind)
}

/// Places in a row; the first is given.
fn reserve_row(declarer: &mut Declarer<'_, '_>, count: usize) -> Result<TypeId, NoMemory> {
    let first = declarer.eval.declared.types.reserve()?;
    for _ in 1..count {
        declarer.eval.declared.types.reserve()?;
    }
    Ok(first)
}

/// Places in a row for the parts of an object type; the last is given.
fn reserve_parts<'a>(
    declarer: &mut Declarer<'_, 'a>,
    writings: &mut Writings<'a>,
    unit: u32,
    exp: &'a TypeExp<'a>,
    parts: &'a [ObjectPart<'a>],
) -> Result<TypeId, NoMemory> {
    let mut last = declarer.eval.declared.basic.refused;
    for place in 0..parts.len() {
        let number = place_number(place)?;
        last = plan_nilable(declarer, unit, exp.pos())?;
        writings.insert(last, Written::Part(exp, number))?;
    }
    for part in parts {
        reserve_methods(declarer, writings, unit, part)?;
    }
    Ok(last)
}

fn reserve_methods<'a>(
    declarer: &mut Declarer<'_, 'a>,
    writings: &mut Writings<'a>,
    unit: u32,
    part: &'a ObjectPart<'a>,
) -> Result<(), NoMemory> {
    for method in part.methods {
        let pos = method.name.pos;
        let kind = plan_nilable(declarer, unit, pos)?;
        writings.insert(kind, Written::Signature(&method.signature))?;
        declarer.eval.declared.place_type(unit, pos, kind)?;
    }
    Ok(())
}

fn reserve_procedures<'a>(
    declarer: &mut Declarer<'_, 'a>,
    trees: &mut Trees<'_, 'a>,
) -> Result<(), NoMemory> {
    let program = declarer.eval.program;
    for (place, entity) in program.binds.entities().iter().enumerate() {
        if entity.kind == EntityKind::Procedure {
            if let Some(Declaration::Procedure { signature, .. }) = trees.declaration(entity) {
                let kind = reserve_procedure(declarer, place, entity)?;
                trees.written.insert(kind, Written::Signature(signature))?;
            }
        }
    }
    Ok(())
}

/// A place for the type of a procedure, by its place among the entities.
fn reserve_procedure(
    declarer: &mut Declarer<'_, '_>,
    place: usize,
    entity: &Entity<'_>,
) -> Result<TypeId, NoMemory> {
    let kind = plan_nilable(declarer, entity.unit, entity.pos)?;
    let id = EntityId(place_number(place)?);
    declarer.eval.declared.give_kind(id, kind)?;
    Ok(kind)
}
