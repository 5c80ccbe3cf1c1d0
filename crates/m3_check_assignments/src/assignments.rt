use bumpalo::Bump;
use bumpalo::collections::into_bump_slice;
use m3_base::{NoMemory, Pos, rules};
use m3_check_assigning::{assigned, finished, is_writable, value_given, value_of};
use m3_check_calls::call;
use m3_check_names::thing_named;
use m3_check_state::{Change, Checker, Thing, Valued};
use m3_check_types::is_open;
use m3_core::{Chain, Conversion, CoreExpr, CoreStmt};
use m3_exprs::{call_actuals, expression, given, operand};
use m3_syntax::{Actual, Decl, Expr, Init, VarDecl};
use m3_types::TypeId;

/// `target := value`: a writable designator (rules 52 and 53), and a value that is assignable to
/// it.
pub fn assign<'a>(
    checker: &mut Checker<'_, 'a>,
    pos: Pos,
    target: &Expr<'a>,
    value: &Expr<'a>,
) -> Result<Option<CoreStmt<'a>>, NoMemory> {
    let place = target_of(checker, target)?;
    let value = given(checker, value)?;
    let Some((target, kind)) = place else {
        if let Some(inner) = value.inner {
            checker.note(inner, rules::NESTED_PROCEDURE_ASSIGNED);
        }
        value_given(checker, &value)?;
        return Ok(None);
    };
    match assigned(checker, &value, kind)? {
        Some(value) => Ok(Some(stored(checker, pos, target, kind, &value))),
        None => Ok(None),
    }
}

/// The place that an assignment writes, with its type.
fn target_of<'a>(
    checker: &mut Checker<'_, 'a>,
    target: &Expr<'a>,
) -> Result<Option<(&'a Chain<'a>, TypeId)>, NoMemory> {
    let thing = operand(checker, target)?;
    if !is_writable(checker, target.pos(), &thing) {
        return Ok(None);
    }
    match thing {
        Thing::Chain(draft) => {
            let chain = finished(checker, &draft, Some(draft.kind))?;
            Ok(Some((chain, draft.kind)))
        }
        _ => Ok(None),
    }
}

/// An assignment of a checked value. Arrays whose shapes may differ are compared.
fn stored<'a>(
    checker: &Checker<'_, 'a>,
    pos: Pos,
    target: &'a Chain<'a>,
    kind: TypeId,
    value: &Valued<'a>,
) -> CoreStmt<'a> {
    let (value, is_checked) = match value.core() {
        CoreExpr::Convert {
            check: Conversion::Shape,
            operand,
            ..
        } => (*operand, true),
        _ => (value.core(), false),
    };
    CoreStmt::Assign {
        pos,
        target,
        value,
        checks_shape: is_checked || has_open_dimension(checker, kind),
    }
}

/// Whether an array type is open.
fn has_open_dimension(checker: &Checker<'_, '_>, kind: TypeId) -> bool {
    is_open(checker, kind)
}

/// The initial values that declarations give to their variables, as assignments at their names.
pub fn initial_values<'a>(
    checker: &mut Checker<'_, 'a>,
    declarations: &[Decl<'a>],
) -> Result<&'a [CoreStmt<'a>], NoMemory> {
    let mut initial = Vec::new(checker.arena);
    for declaration in declarations {
        if let Decl::Var {
            variables: rows,
            ..
        } = declaration
        {
            initial_rows(checker, &mut initial, rows)?;
        }
    }
    Ok(into_bump_slice(initial))
}

fn initial_rows<'a>(
    checker: &mut Checker<'_, 'a>,
    initial: &mut Vec<CoreStmt<'a>, &'a Bump>,
    rows: &[VarDecl<'a>],
) -> Result<(), NoMemory> {
    for row in rows {
        checker.steps.clear();
        if let Some((value, kind)) = initial_value(checker, row)? {
            store_all(checker, initial, row, &value, kind)?;
        }
    }
    Ok(())
}

/// The initial value of a row of variables with their type; none where none is written, or it was
/// refused.
pub fn initial_value<'a>(
    checker: &mut Checker<'_, 'a>,
    row: &VarDecl<'a>,
) -> Result<Option<(Valued<'a>, TypeId)>, NoMemory> {
    let value = match row.init {
        Init::Typed(_, value) => value,
        Init::Untyped(value) => Some(value),
    };
    let Some(value) = value else {
        return Ok(None);
    };
    let value = given(checker, value)?;
    let Some(kind) = row_kind(checker, row) else {
        value_given(checker, &value)?;
        return Ok(None);
    };
    match assigned(checker, &value, kind)? {
        Some(value) => Ok(Some((value, kind))),
        None => Ok(None),
    }
}

/// The type of the variables of a row.
fn row_kind<'a>(checker: &Checker<'_, 'a>, row: &VarDecl<'a>) -> Option<TypeId> {
    let name = row.names.first()?;
    let id = checker.program.binds.at(checker.unit, name.pos)?;
    let kind = checker.declared.kind_of(id)?;
    if checker.is_refused(kind) {
        None
    } else {
        Some(kind)
    }
}

/// Stores one value in each variable of a row.
fn store_all<'a>(
    checker: &mut Checker<'_, 'a>,
    initial: &mut Vec<CoreStmt<'a>, &'a Bump>,
    row: &VarDecl<'a>,
    value: &Valued<'a>,
    kind: TypeId,
) -> Result<(), NoMemory> {
    for name in row.names {
        if let Thing::Chain(draft) = thing_named(checker, *name)? {
            let target = finished(checker, &draft, Some(draft.kind))?;
            initial.push(stored(checker, name.pos, target, kind, value))?;
        }
    }
    Ok(())
}

/// A call as a statement: its result would be unused (rule 70).
pub fn call_statement<'a>(
    checker: &mut Checker<'_, 'a>,
    pos: Pos,
    callee: &Expr<'a>,
    parenthesis: Pos,
    actuals: &[Actual<'a>],
) -> Result<Option<CoreStmt<'a>>, NoMemory> {
    let thing = operand(checker, callee)?;
    let row = call_actuals(checker, actuals)?;
    match call(checker, pos, parenthesis, &thing, row)? {
        Thing::Bad => Ok(None),
        Thing::Call(draft) => {
            let call = finished(checker, &draft, None)?;
            Ok(Some(CoreStmt::Call { pos, call }))
        }
        Thing::Builtin(call) => Ok(Some(CoreStmt::Builtin { pos, call: &**call })),
        Thing::Change(change) => Ok(Some(change_statement(&change))),
        _ => {
            checker.note(pos, rules::RESULT_UNUSED);
            Ok(None)
        }
    }
}

fn change_statement<'a>(change: &Change<'a>) -> CoreStmt<'a> {
    CoreStmt::Change {
        pos: change.pos,
        is_decrement: change.is_decrement,
        target: change.target,
        amount: change.amount,
    }
}

/// EVAL of a value (rules 61 and 82).
pub fn eval<'a>(
    checker: &mut Checker<'_, 'a>,
    pos: Pos,
    value: &Expr<'a>,
) -> Result<Option<CoreStmt<'a>>, NoMemory> {
    let thing = operand(checker, value)?;
    if let Thing::Call(_) | Thing::Builtin(_) | Thing::Change(_) = thing {
        checker.note(pos, rules::EVAL_WITHOUT_VALUE);
        return Ok(None);
    }
    match value_of(checker, value.pos(), &thing)? {
        Some(value) => Ok(Some(CoreStmt::Eval {
            pos,
            value: value.core(),
        })),
        None => Ok(None),
    }
}

/// RETURN with a value exactly where one is due (rule 72).
pub fn give_back<'a>(
    checker: &mut Checker<'_, 'a>,
    due: Option<TypeId>,
    pos: Pos,
    value: Option<&Expr<'a>>,
) -> Result<Option<CoreStmt<'a>>, NoMemory> {
    let Some(value) = value else {
        if due.is_some() {
            checker.note(pos, rules::BAD_RETURN);
            return Ok(None);
        }
        return Ok(Some(CoreStmt::Return { pos, value: None }));
    };
    let Some(due) = due else {
        checker.note(pos, rules::BAD_RETURN);
        expression(checker, value)?;
        return Ok(None);
    };
    let value = given(checker, value)?;
    match assigned(checker, &value, due)? {
        Some(value) => Ok(Some(CoreStmt::Return {
            pos,
            value: Some(value.core()),
        })),
        None => Ok(None),
    }
}
