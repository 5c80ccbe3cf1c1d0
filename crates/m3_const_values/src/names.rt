use crate::evaluator::{Evaluator, Need};
use crate::worth::{Known, Reason, Thing, Worth};
use m3_base::{NoMemory, Pos, rules};
use m3_core::Value;
use m3_link_scopes::{Entity, EntityId, EntityKind, Predeclared};
use m3_syntax::{Name, Qualid, TypeExp, TypeName};
use m3_types::TypeId;

/// What a name stands for where it is used.
pub fn thing_named<'a>(
    eval: &mut Evaluator<'_, 'a>,
    name: Name<'a>,
) -> Result<Thing<'a>, NoMemory> {
    match eval.program.binds.at(eval.unit, name.pos) {
        Some(id) => entity_thing(eval, id, name.pos),
        None => Ok(Thing::Bad),
    }
}

/// What an entity is as an operand that begins at a place.
pub fn entity_thing<'a>(
    eval: &mut Evaluator<'_, 'a>,
    id: EntityId,
    pos: Pos,
) -> Result<Thing<'a>, NoMemory> {
    let Some(entity) = eval.program.binds.entity(id) else {
        return Ok(Thing::Bad);
    };
    match entity.kind {
        EntityKind::Constant => constant_named(eval, id),
        EntityKind::Type | EntityKind::Opaque => match eval.declared.type_named(id) {
            Some(kind) => Ok(Thing::Type(kind)),
            None => Ok(Thing::Bad),
        },
        EntityKind::Exception => Ok(Thing::Other),
        EntityKind::Variable
        | EntityKind::Formal
        | EntityKind::For
        | EntityKind::With
        | EntityKind::Handler
        | EntityKind::TypeCase => variable_thing(eval, id, pos),
        EntityKind::Procedure => Ok(procedure_thing(eval, id, &entity, pos)),
        EntityKind::Import(unit) => Ok(Thing::Interface(unit)),
        EntityKind::Unknown => Ok(Thing::Bad),
        EntityKind::Predeclared(name) => Ok(predeclared_thing(eval, name)),
    }
}

fn constant_named<'a>(eval: &mut Evaluator<'_, 'a>, id: EntityId) -> Result<Thing<'a>, NoMemory> {
    let Some(constant) = eval.declared.constant(id) else {
        eval.lack(Need::Constant(id))?;
        return Ok(Thing::Bad);
    };
    match eval.stored(constant.value) {
        Some(value) => Ok(eval.known(constant.kind, value)),
        None => Ok(Thing::Bad),
    }
}

fn variable_thing<'a>(
    eval: &mut Evaluator<'_, 'a>,
    id: EntityId,
    pos: Pos,
) -> Result<Thing<'a>, NoMemory> {
    let Some(kind) = eval.declared.kind_of(id) else {
        eval.lack(Need::Kind(id))?;
        return Ok(Thing::Bad);
    };
    if eval.was_refused(kind) {
        return Ok(Thing::Bad);
    }
    Ok(Thing::Value(Worth {
        kind,
        value: Known::Varies(Reason {
            pos,
            rule: rules::NOT_CONSTANT,
        }),
        is_fixed: true,
    }))
}

/// Whether an entity belongs to a built-in interface.
pub fn is_built_in<'a>(eval: &Evaluator<'_, 'a>, entity: &Entity<'a>) -> bool {
    match eval.program.infos.get(entity.unit as usize) {
        Some(info) => info.is_built_in,
        None => false,
    }
}

fn procedure_thing<'a>(
    eval: &Evaluator<'_, 'a>,
    id: EntityId,
    entity: &Entity<'a>,
    pos: Pos,
) -> Thing<'a> {
    if is_built_in(eval, entity) {
        return Thing::Routine(id);
    }
    let Some(kind) = eval.declared.kind_of(id) else {
        return Thing::Bad;
    };
    match eval.declared.procedure_number(id) {
        Some(number) if entity.is_outermost => eval.known(kind, Value::Procedure(number)),
        _ => eval.varies(kind, pos, rules::NOT_CONSTANT),
    }
}

fn predeclared_thing<'a>(eval: &Evaluator<'_, 'a>, name: Predeclared) -> Thing<'a> {
    let basic = eval.declared.basic;
    match name {
        Predeclared::False => eval.number(basic.boolean, 0),
        Predeclared::True => eval.number(basic.boolean, 1),
        Predeclared::Nil => eval.known(basic.null, Value::Nil),
        Predeclared::Floating | Predeclared::LeftOut => Thing::Bad,
        other => match eval.declared.basic.named(other) {
            Some(kind) => Thing::Type(kind),
            None => Thing::Predeclared(other),
        },
    }
}

/// What a qualified name stands for: none where its first name is no interface but has a dot.
pub fn entity_named<'a>(eval: &Evaluator<'_, 'a>, name: &Qualid<'a>) -> Option<EntityId> {
    let first = eval.program.binds.at(eval.unit, name.first.pos)?;
    match (eval.program.binds.entity(first)?.kind, name.second) {
        (_, None) => Some(first),
        (EntityKind::Import(_), Some(second)) => eval.program.binds.at(eval.unit, second.pos),
        (_, Some(_)) => None,
    }
}

/// The type that an entity stands for.
pub fn type_of_entity(eval: &Evaluator<'_, '_>, id: EntityId) -> Option<TypeId> {
    match eval.program.binds.entity(id)?.kind {
        EntityKind::Type | EntityKind::Opaque => eval.declared.type_named(id),
        EntityKind::Predeclared(name) => eval.declared.basic.named(name),
        _ => None,
    }
}

/// The type that the name of a type stands for.
pub fn type_of_name<'a>(eval: &Evaluator<'_, 'a>, name: &TypeName<'a>) -> Option<TypeId> {
    match name {
        TypeName::Named(qualid) => type_of_entity(eval, entity_named(eval, qualid)?),
        TypeName::Root(_) => Some(eval.declared.basic.root),
        TypeName::UntracedRoot(_) => None,
    }
}

/// The type that a type expression stands for; none where it was refused.
pub fn type_of<'a>(eval: &Evaluator<'_, 'a>, kind: &TypeExp<'a>) -> Option<TypeId> {
    let mut kind = kind;
    'parentheses: loop {
        match kind {
            TypeExp::Parenthesis { inner, .. } => kind = inner,
            TypeExp::Bits { target, .. } => kind = target,
            _ => break 'parentheses,
        }
    }
    match kind {
        TypeExp::Named(name) => type_of_name(eval, name),
        other => eval.declared.type_at(eval.unit, other.pos()),
    }
}
