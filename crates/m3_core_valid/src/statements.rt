use crate::calls::expect_builtin;
use crate::chains::{Given, judge_chain, judge_place};
use crate::expressions::{judge_expression, judge_optional, judge_row};
use crate::judge::Judge;
use m3_core::{Arm, Bound, CaseBranch, CoreStmt, Handler, TypeBranch, WithBinding};

/// Judges each statement of a row.
#[cycle(statements)]
pub fn judge_statements<'a>(judge: &mut Judge<'_>, row: &[CoreStmt<'a>]) {
    for statement in row {
        judge_parts(judge, statement);
        judge_inside(judge, statement);
    }
}

/// Judges the statements in a statement.
#[cycle(statements)]
fn judge_inside<'a>(judge: &mut Judge<'_>, statement: &CoreStmt<'a>) {
    match statement {
        CoreStmt::Block { initial, body, .. } => {
            judge_statements(judge, initial);
            judge_statements(judge, body);
        }
        CoreStmt::TryFinally { body, last, .. } => {
            judge_statements(judge, body);
            judge_statements(judge, last);
        }
        CoreStmt::With { body, .. } => judge_statements(judge, body),
        CoreStmt::For { body, .. }
        | CoreStmt::Loop { body, .. }
        | CoreStmt::Repeat { body, .. }
        | CoreStmt::While { body, .. } => judge_turn(judge, body),
        _ => {
            judge_choices(judge, statement);
            judge_else(judge, statement);
        }
    }
}

/// Judges the branches of IF, CASE and TYPECASE, and the body and handlers of TRY EXCEPT.
#[cycle(statements)]
fn judge_choices<'a>(judge: &mut Judge<'_>, statement: &CoreStmt<'a>) {
    match statement {
        CoreStmt::If { arms, .. } => judge_arms(judge, arms),
        CoreStmt::Case { branches, .. } => judge_branches(judge, branches),
        CoreStmt::TypeCase { branches, .. } => judge_types(judge, branches),
        CoreStmt::TryExcept { body, handlers, .. } => {
            judge_statements(judge, body);
            judge_handlers(judge, handlers);
        }
        _ => {}
    }
}

/// Judges the statements behind ELSE.
#[cycle(statements)]
fn judge_else<'a>(judge: &mut Judge<'_>, statement: &CoreStmt<'a>) {
    let (CoreStmt::If { otherwise, .. }
    | CoreStmt::Case { otherwise, .. }
    | CoreStmt::TypeCase { otherwise, .. }
    | CoreStmt::TryExcept { otherwise, .. }) = statement
    else {
        return;
    };
    judge_statements(judge, otherwise.body);
}

/// Judges the statements of a loop.
#[cycle(statements)]
fn judge_turn<'a>(judge: &mut Judge<'_>, body: &[CoreStmt<'a>]) {
    let loops = judge.loops;
    judge.loops = loops.saturating_add(1);
    judge_statements(judge, body);
    judge.loops = loops;
}

#[cycle(statements)]
fn judge_arms<'a>(judge: &mut Judge<'_>, arms: &[Arm<'a>]) {
    for arm in arms {
        judge_expression(judge, arm.condition);
        judge_statements(judge, arm.body);
    }
}

#[cycle(statements)]
fn judge_branches<'a>(judge: &mut Judge<'_>, branches: &[CaseBranch<'a>]) {
    for branch in branches {
        judge_statements(judge, branch.body);
    }
}

#[cycle(statements)]
fn judge_types<'a>(judge: &mut Judge<'_>, branches: &[TypeBranch<'a>]) {
    for branch in branches {
        judge.expect_types(branch.types);
        judge.expect_optional_own(branch.variable);
        judge_statements(judge, branch.body);
    }
}

#[cycle(statements)]
fn judge_handlers<'a>(judge: &mut Judge<'_>, handlers: &[Handler<'a>]) {
    for handler in handlers {
        judge.expect_exceptions(handler.exceptions);
        judge.expect_optional_own(handler.variable);
        judge_statements(judge, handler.body);
    }
}

/// Judges what a statement has beside statements.
fn judge_parts<'a>(judge: &mut Judge<'_>, statement: &CoreStmt<'a>) {
    match statement {
        CoreStmt::Assign { target, value, .. } => {
            judge_place(judge, target);
            judge_expression(judge, value);
        }
        CoreStmt::Call { call, .. } => {
            let given = judge_chain(judge, call);
            judge.expect(matches!(given, Given::Value(None)));
        }
        CoreStmt::Builtin { call, .. } => {
            judge.expect(call.kind.is_none());
            expect_builtin(judge, call);
            judge_row(judge, call.actuals);
        }
        CoreStmt::Change { target, amount, .. } => {
            judge_place(judge, target);
            judge_optional(judge, *amount);
        }
        CoreStmt::Eval { value, .. }
        | CoreStmt::Case { value, .. }
        | CoreStmt::TypeCase { value, .. } => judge_expression(judge, value),
        CoreStmt::Repeat { condition, .. } | CoreStmt::While { condition, .. } => judge_expression(
            judge, condition,
        ),
        CoreStmt::Block { variables, .. } => judge.expect_all_own(variables),
        CoreStmt::With { bindings, .. } => judge_bound(judge, bindings),
        _ => judge_leaving(judge, statement),
    }
}

/// Judges EXIT, RAISE and RETURN, and the range of FOR.
fn judge_leaving<'a>(judge: &mut Judge<'_>, statement: &CoreStmt<'a>) {
    match statement {
        CoreStmt::Exit { .. } => judge.expect(judge.loops > 0),
        CoreStmt::Raise {
            exception,
            argument,
            ..
        } => {
            judge.expect(judge.has_argument(*exception) == Some(argument.is_some()));
            judge_optional(judge, *argument);
        }
        CoreStmt::Return { value, .. } => {
            judge.expect(judge.has_result() == Some(value.is_some()));
            judge_optional(judge, *value);
        }
        CoreStmt::For {
            variable,
            first,
            last,
            step,
            ..
        } => {
            judge.expect_own(*variable);
            judge_expression(judge, first);
            judge_expression(judge, last);
            judge_optional(judge, *step);
        }
        _ => {}
    }
}

/// Judges the bindings of WITH.
fn judge_bound<'a>(judge: &mut Judge<'_>, bindings: &[WithBinding<'a>]) {
    for binding in bindings {
        judge.expect_own(binding.variable);
        match binding.bound {
            Bound::Place(place) => judge_place(judge, place),
            Bound::Value(value) => judge_expression(judge, value),
        }
    }
}
