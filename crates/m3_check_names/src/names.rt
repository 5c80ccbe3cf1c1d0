use m3_base::{NoMemory, Pos};
use m3_check_assigning::{chain_thing, new_chain};
use m3_check_state::{Checker, Draft, Held, State, Thing};
use m3_core::{Base, CoreExpr};
use m3_link_scopes::{Entity, EntityId, EntityKind, Predeclared};
use m3_syntax::{Expr, Name};

/// What a name stands for where it is used.
pub fn thing_named<'a>(checker: &Checker<'_, 'a>, name: Name<'a>) -> Result<Thing<'a>, NoMemory> {
    match checker.program.binds.at(checker.unit, name.pos) {
        Some(id) => entity_thing(checker, id, name.pos),
        None => Ok(Thing::Bad),
    }
}

/// What an entity is as an operand at a place.
pub fn entity_thing<'a>(
    checker: &Checker<'_, 'a>,
    id: EntityId,
    pos: Pos,
) -> Result<Thing<'a>, NoMemory> {
    let Some(entity) = checker.program.binds.entity(id) else {
        return Ok(Thing::Bad);
    };
    match entity.kind {
        EntityKind::Constant => match checker.declared.constant(id) {
            Some(constant) => checker.constant(pos, constant.kind, constant.value),
            None => Ok(Thing::Bad),
        },
        EntityKind::Type | EntityKind::Opaque => Ok(named_type(checker, id)),
        EntityKind::Exception => Ok(Thing::Exception),
        EntityKind::Variable
        | EntityKind::Formal
        | EntityKind::For
        | EntityKind::With
        | EntityKind::Handler
        | EntityKind::TypeCase => variable_thing(checker, id, pos),
        EntityKind::Procedure => procedure_thing(checker, id, &entity, pos),
        EntityKind::Import(_) => Ok(Thing::Interface),
        EntityKind::Unknown => Ok(Thing::Bad),
        EntityKind::Predeclared(name) => predeclared_thing(checker, name, pos),
    }
}

fn named_type<'a>(checker: &Checker<'_, 'a>, id: EntityId) -> Thing<'a> {
    match checker.declared.type_named(id) {
        Some(kind) if !checker.is_refused(kind) => Thing::Type(kind),
        _ => Thing::Bad,
    }
}

/// A variable as a place.
fn variable_thing<'a>(
    checker: &Checker<'_, 'a>,
    id: EntityId,
    pos: Pos,
) -> Result<Thing<'a>, NoMemory> {
    let Some(variable) = checker.variables.get(&id).copied() else {
        return Ok(Thing::Bad);
    };
    let kind = variable.kind;
    let base = match variable.held {
        Held::Global(variable) => Base::Global { variable, kind },
        Held::Local { level, variable } => Base::Local {
            level,
            variable,
            kind,
        },
        Held::Alias { level, variable } => Base::Alias {
            level,
            variable,
            kind,
        },
    };
    let state = State::Place {
        is_writable: !variable.is_read_only,
        is_designator: true,
    };
    let draft = new_chain(checker, pos, base, kind, state)?;
    Ok(chain_thing(
        checker,
        Draft {
            may_be_inner: variable.may_be_inner,
            ..draft
        },
    ))
}

fn is_built_in(checker: &Checker<'_, '_>, unit: u32) -> bool {
    match checker.program.infos.get(unit as usize) {
        Some(info) => info.is_built_in,
        None => false,
    }
}

fn procedure_thing<'a>(
    checker: &Checker<'_, 'a>,
    id: EntityId,
    entity: &Entity<'a>,
    pos: Pos,
) -> Result<Thing<'a>, NoMemory> {
    if is_built_in(checker, entity.unit) {
        return Ok(Thing::Routine(id));
    }
    let Some(kind) = checker.declared.kind_of(id) else {
        return Ok(Thing::Bad);
    };
    let Some(procedure) = checker.declared.procedure_number(id) else {
        return Ok(Thing::Bad);
    };
    let expr = if entity.is_outermost {
        CoreExpr::Procedure {
            pos,
            kind,
            procedure,
        }
    } else {
        CoreExpr::InnerProcedure {
            pos,
            kind,
            procedure,
        }
    };
    checker.value(expr, kind)
}

fn predeclared_thing<'a>(
    checker: &Checker<'_, 'a>,
    name: Predeclared,
    pos: Pos,
) -> Result<Thing<'a>, NoMemory> {
    let basic = checker.declared.basic;
    match name {
        Predeclared::False => checker.number(pos, basic.boolean, 0),
        Predeclared::True => checker.number(pos, basic.boolean, 1),
        Predeclared::Nil => checker.value(
            CoreExpr::Nil {
                pos,
                kind: basic.null,
            },
            basic.null,
        ),
        Predeclared::Floating | Predeclared::LeftOut => Ok(Thing::Bad),
        other => match checker.declared.basic.named(other) {
            Some(kind) => Ok(Thing::Type(kind)),
            None => Ok(Thing::Predeclared(other)),
        },
    }
}

/// The name of a procedure inside another, in parentheses or not, that an expression is.
pub fn inner_name<'a>(checker: &Checker<'_, 'a>, value: &Expr<'a>) -> Option<Pos> {
    let mut value = value;
    'parentheses: loop {
        match value {
            Expr::Parenthesis { inner, .. } => value = inner,
            _ => break 'parentheses,
        }
    }
    let Expr::Name(name) = value else {
        return None;
    };
    let id = checker.program.binds.at(checker.unit, name.pos)?;
    let entity = checker.program.binds.entity(id)?;
    if entity.kind == EntityKind::Procedure && !entity.is_outermost {
        Some(name.pos)
    } else {
        None
    }
}
