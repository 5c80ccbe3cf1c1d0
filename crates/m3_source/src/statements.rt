use crate::counts::Counts;
use crate::expressions::{count_builtin, count_chain, count_expression};
use m3_core::{Arm, Bound, CaseBranch, CoreStmt, Handler, TypeBranch, WithBinding};

/// Counts what stands in a row of statements.
#[cycle(statements)]
pub fn count_statements(counts: &mut Counts<'_, '_>, row: &[CoreStmt<'_>]) {
    for s in row {
        count_statement(counts, s);
    }
}

#[cycle(statements)]
fn count_statement(counts: &mut Counts<'_, '_>, s: &CoreStmt<'_>) {
    counts.add_node();
    match s {
        CoreStmt::Assign { target, value, .. } => {
            count_chain(counts, target);
            count_expression(counts, value);
        }
        CoreStmt::Call { call, .. } => count_chain(counts, call),
        CoreStmt::Builtin { call, .. } => count_builtin(counts, call),
        CoreStmt::Change { target, amount, .. } => {
            count_chain(counts, target);
            if let Some(amount) = amount {
                count_expression(counts, amount);
            }
        }
        CoreStmt::Block { initial, body, .. } => {
            count_statements(counts, initial);
            count_statements(counts, body);
        }
        CoreStmt::Case {
            value,
            branches,
            otherwise,
            ..
        } => {
            count_expression(counts, value);
            count_branches(counts, branches);
            count_statements(counts, otherwise.body);
        }
        CoreStmt::Exit { .. } => {}
        CoreStmt::Eval { value, .. } => count_expression(counts, value),
        CoreStmt::For { .. } => count_for(counts, s),
        CoreStmt::If {
            arms,
            otherwise,
            ..
        } => {
            count_arms(counts, arms);
            count_statements(counts, otherwise.body);
        }
        CoreStmt::Loop { body, .. } => {
            counts.add_point();
            count_statements(counts, body);
        }
        CoreStmt::Raise {
            argument: value,
            ..
        }
        | CoreStmt::Return { value, .. } => {
            if let Some(value) = value {
                count_expression(counts, value);
            }
        }
        CoreStmt::Repeat {
            body,
            condition,
            ..
        }
        | CoreStmt::While {
            condition,
            body,
            ..
        } => {
            counts.add_point();
            count_statements(counts, body);
            count_expression(counts, condition);
        }
        CoreStmt::TryExcept {
            body,
            handlers,
            otherwise,
            ..
        } => {
            count_statements(counts, body);
            count_handlers(counts, handlers);
            count_statements(counts, otherwise.body);
        }
        CoreStmt::TryFinally { body, last, .. } => {
            count_statements(counts, body);
            count_statements(counts, last);
        }
        CoreStmt::TypeCase {
            value,
            branches,
            otherwise,
            ..
        } => {
            count_expression(counts, value);
            count_type_branches(counts, branches);
            count_statements(counts, otherwise.body);
        }
        CoreStmt::With { bindings, body, .. } => {
            count_bound(counts, bindings);
            count_statements(counts, body);
        }
    }
}

#[cycle(statements)]
fn count_for(counts: &mut Counts<'_, '_>, s: &CoreStmt<'_>) {
    if let CoreStmt::For {
        first,
        last,
        step,
        body,
        ..
    } = s
    {
        counts.add_point();
        count_expression(counts, first);
        count_expression(counts, last);
        if let Some(step) = step {
            count_expression(counts, step);
        }
        count_statements(counts, body);
    }
}

#[cycle(statements)]
fn count_branches(counts: &mut Counts<'_, '_>, branches: &[CaseBranch<'_>]) {
    for branch in branches {
        count_statements(counts, branch.body);
    }
}

#[cycle(statements)]
fn count_arms(counts: &mut Counts<'_, '_>, arms: &[Arm<'_>]) {
    for arm in arms {
        count_expression(counts, arm.condition);
        count_statements(counts, arm.body);
    }
}

#[cycle(statements)]
fn count_handlers(counts: &mut Counts<'_, '_>, handlers: &[Handler<'_>]) {
    for handler in handlers {
        count_statements(counts, handler.body);
    }
}

#[cycle(statements)]
fn count_type_branches(counts: &mut Counts<'_, '_>, branches: &[TypeBranch<'_>]) {
    for branch in branches {
        count_statements(counts, branch.body);
    }
}

/// The bindings of a WITH, each a node of its own; the statement itself was counted for the first.
fn count_bound(counts: &mut Counts<'_, '_>, bindings: &[WithBinding<'_>]) {
    counts.add_nodes(bindings.len().saturating_sub(1));
    for binding in bindings {
        match binding.bound {
            Bound::Place(place) => count_chain(counts, place),
            Bound::Value(value) => count_expression(counts, value),
        }
    }
}
