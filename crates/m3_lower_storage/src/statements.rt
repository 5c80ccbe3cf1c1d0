use crate::expressions::{mark_chain, mark_expression, mark_row, mark_taken, mark_written};
use crate::uses::Uses;
use m3_core::{Arm, Bound, CaseBranch, CoreExpr, CoreStmt, Handler, TypeBranch, WithBinding};

fn mark_optional(uses: &mut Uses, value: Option<&CoreExpr>) {
    if let Some(value) = value {
        mark_expression(uses, value);
    }
}

/// Notes what a statement names that has no statements in it.
fn mark_simple(uses: &mut Uses, statement: &CoreStmt) {
    match statement {
        CoreStmt::Assign { target, value, .. } => {
            mark_written(uses, target);
            mark_chain(uses, target);
            mark_expression(uses, value);
        }
        CoreStmt::Call { call, .. } => mark_chain(uses, call),
        CoreStmt::Builtin { call, .. } => mark_row(uses, call.actuals),
        CoreStmt::Change { target, amount, .. } => {
            mark_written(uses, target);
            mark_chain(uses, target);
            mark_optional(uses, *amount);
        }
        CoreStmt::Eval { value, .. } => mark_expression(uses, value),
        CoreStmt::Raise { argument, .. } => mark_optional(uses, *argument),
        CoreStmt::Return { value, .. } => mark_optional(uses, *value),
        _ => {}
    }
}

fn mark_bound(uses: &mut Uses, bindings: &[WithBinding]) {
    for binding in bindings {
        match binding.bound {
            Bound::Place(place) => {
                mark_taken(uses, place);
                mark_chain(uses, place);
            }
            Bound::Value(value) => mark_expression(uses, value),
        }
    }
}

/// Notes what statements name, write and take the address of.
#[cycle(statements)]
pub(crate) fn mark_statements(uses: &mut Uses, row: &[CoreStmt]) {
    for statement in row {
        mark_statement(uses, statement);
    }
}

#[cycle(statements)]
fn mark_statement(uses: &mut Uses, statement: &CoreStmt) {
    match statement {
        CoreStmt::Block { initial, body, .. } => {
            mark_statements(uses, initial);
            mark_statements(uses, body);
        }
        CoreStmt::Case {
            value,
            branches,
            otherwise,
            ..
        } => {
            mark_expression(uses, value);
            mark_branches(uses, branches);
            mark_statements(uses, otherwise.body);
        }
        CoreStmt::For {
            first,
            last,
            step,
            body,
            ..
        } => {
            mark_expression(uses, first);
            mark_expression(uses, last);
            mark_optional(uses, *step);
            mark_statements(uses, body);
        }
        CoreStmt::If {
            arms,
            otherwise,
            ..
        } => {
            mark_arms(uses, arms);
            mark_statements(uses, otherwise.body);
        }
        CoreStmt::Loop { body, .. } => mark_statements(uses, body),
        CoreStmt::Repeat {
            body,
            condition,
            ..
        } => {
            mark_statements(uses, body);
            mark_expression(uses, condition);
        }
        CoreStmt::TryExcept {
            body,
            handlers,
            otherwise,
            ..
        } => {
            mark_statements(uses, body);
            mark_handlers(uses, handlers);
            mark_statements(uses, otherwise.body);
        }
        CoreStmt::TryFinally { body, last, .. } => {
            mark_statements(uses, body);
            mark_statements(uses, last);
        }
        CoreStmt::TypeCase {
            value,
            branches,
            otherwise,
            ..
        } => {
            mark_expression(uses, value);
            mark_type_branches(uses, branches);
            mark_statements(uses, otherwise.body);
        }
        CoreStmt::While {
            condition,
            body,
            ..
        } => {
            mark_expression(uses, condition);
            mark_statements(uses, body);
        }
        CoreStmt::With { bindings, body, .. } => {
            mark_bound(uses, bindings);
            mark_statements(uses, body);
        }
        _ => mark_simple(uses, statement),
    }
}

#[cycle(statements)]
fn mark_branches(uses: &mut Uses, branches: &[CaseBranch]) {
    for branch in branches {
        mark_statements(uses, branch.body);
    }
}

#[cycle(statements)]
fn mark_arms(uses: &mut Uses, arms: &[Arm]) {
    for arm in arms {
        mark_expression(uses, arm.condition);
        mark_statements(uses, arm.body);
    }
}

#[cycle(statements)]
fn mark_handlers(uses: &mut Uses, handlers: &[Handler]) {
    for handler in handlers {
        mark_statements(uses, handler.body);
    }
}

#[cycle(statements)]
fn mark_type_branches(uses: &mut Uses, branches: &[TypeBranch]) {
    for branch in branches {
        mark_statements(uses, branch.body);
    }
}
