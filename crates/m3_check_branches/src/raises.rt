use bumpalo::collections::into_bump_slice;
use m3_base::{NoMemory, Pos, rules};
use m3_check_assigning::converted;
use m3_check_bodies::{Body, bound_variable};
use m3_check_names::entity_named;
use m3_check_state::Checker;
use m3_check_types::{are_same, fits};
use m3_core::{CoreExpr, CoreStmt, Role};
use m3_exprs::expression;
use m3_link_scopes::{EntityId, EntityKind};
use m3_syntax::{Expr, Name, Qualid};
use m3_types::TypeId;

/// The exception that a name stands for (rule 78).
fn exception<'a>(checker: &mut Checker<'_, 'a>, name: &Qualid<'a>) -> Option<EntityId> {
    let id = entity_named(checker, name);
    let kind = match id {
        Some(id) => match checker.program.binds.entity(id) {
            Some(entity) => Some(entity.kind),
            None => None,
        },
        None => None,
    };
    match kind {
        Some(EntityKind::Exception) => id,
        Some(EntityKind::Unknown) => None,
        _ => {
            checker.note(name.first.pos, rules::NOT_AN_EXCEPTION);
            None
        }
    }
}

/// RAISE, with an argument exactly where the exception has one (rule 79).
pub fn raise<'a>(
    checker: &mut Checker<'_, 'a>,
    pos: Pos,
    name: &Qualid<'a>,
    argument: Option<&Expr<'a>>,
) -> Result<Option<CoreStmt<'a>>, NoMemory> {
    let Some(id) = exception(checker, name) else {
        if let Some(argument) = argument {
            expression(checker, argument)?;
        }
        return Ok(None);
    };
    let Some(argument) = argument_of(checker, pos, id, argument)? else {
        return Ok(None);
    };
    match checker.declared.exception_number(id) {
        Some(exception) => Ok(Some(CoreStmt::Raise {
            pos,
            exception,
            argument,
        })),
        None => Ok(None),
    }
}

/// The argument of a RAISE: none where it was refused, and none in it where none is written.
fn argument_of<'a>(
    checker: &mut Checker<'_, 'a>,
    pos: Pos,
    id: EntityId,
    argument: Option<&Expr<'a>>,
) -> Result<Option<Option<&'a CoreExpr<'a>>>, NoMemory> {
    let kind = checker.declared.kind_of(id);
    let Some(argument) = argument else {
        if kind.is_some() {
            checker.note(pos, rules::BAD_EXCEPTION_ARGUMENT);
            return Ok(None);
        }
        return Ok(Some(None));
    };
    let Some(value) = expression(checker, argument)? else {
        if kind.is_none() {
            checker.note(argument.pos(), rules::BAD_EXCEPTION_ARGUMENT);
        }
        return Ok(None);
    };
    match kind {
        Some(kind) if fits(checker, value.kind, kind)? => {
            Ok(Some(Some(converted(checker, &value, kind)?.core())))
        }
        _ => {
            checker.note(argument.pos(), rules::BAD_EXCEPTION_ARGUMENT);
            Ok(None)
        }
    }
}

/// The type of a handler's variable: that of the arguments of all its exceptions (rule 80).
fn argument_kind<'a>(
    checker: &mut Checker<'_, 'a>,
    pos: Pos,
    exceptions: &[Option<EntityId>],
) -> Result<Option<TypeId>, NoMemory> {
    let mut kind: Option<TypeId> = None;
    let mut is_good = true;
    for id in exceptions {
        let Some(id) = id else {
            return Ok(None);
        };
        match (kind, checker.declared.kind_of(*id)) {
            (None, Some(found)) => kind = Some(found),
            (Some(first), Some(found)) => {
                is_good = is_good && are_one(checker, first, found)?;
            }
            (_, None) => is_good = false,
        }
    }
    if !is_good {
        checker.note(pos, rules::BAD_HANDLER);
        return Ok(None);
    }
    Ok(kind)
}

/// Whether two types are the same; one that was refused is the same as all.
fn are_one(checker: &Checker<'_, '_>, a: TypeId, b: TypeId) -> Result<bool, NoMemory> {
    if checker.is_refused(a) || checker.is_refused(b) {
        return Ok(true);
    }
    are_same(checker, a, b)
}

/// What a handler handles: the exceptions, and the variable that gets the argument.
#[derive(Clone, Copy)]
pub struct HandlerHead<'a> {
    pub exceptions: &'a [u32],
    pub variable: Option<u32>,
}

/// The head of a handler.
pub fn handler_head<'a>(
    checker: &mut Checker<'_, 'a>,
    body: &mut Body<'a>,
    names: &[Qualid<'a>],
    argument: Option<Name<'a>>,
) -> Result<HandlerHead<'a>, NoMemory> {
    let mut found = Vec::new(checker.arena);
    let mut numbers = Vec::new(checker.arena);
    for name in names {
        let id = exception(checker, name);
        found.push(id)?;
        if let Some(number) = number_of(checker, id) {
            numbers.push(number)?;
        }
    }
    let exceptions = into_bump_slice(numbers);
    let found = into_bump_slice(found);
    let variable = match (argument, names.first()) {
        (Some(name), Some(first)) => {
            let kind = argument_kind(checker, first.first.pos, found)?;
            bound_variable(checker, body, name, Role::Handler, kind)?
        }
        _ => None,
    };
    Ok(HandlerHead {
        exceptions,
        variable,
    })
}

fn number_of(checker: &Checker<'_, '_>, id: Option<EntityId>) -> Option<u32> {
    checker.declared.exception_number(id?)
}
