use crate::expressions::{mark_chain, mark_expression};
use crate::marks::Marks;
use m3_core::{Bound, CoreExpr, CoreStmt, WithBinding};

/// Marks what is shared in statements.
#[cycle(statements)]
pub fn mark_statements(marks: &mut Marks<'_>, statements: &[CoreStmt<'_>]) {
    for statement in statements {
        mark_parts(marks, statement);
        mark_inner(marks, statement);
    }
}

/// Marks what is shared in the expressions of a statement.
fn mark_parts(marks: &mut Marks<'_>, statement: &CoreStmt<'_>) {
    match statement {
        CoreStmt::Assign { target, value, .. } => {
            mark_chain(marks, target);
            mark_expression(marks, value);
        }
        CoreStmt::Call { call, .. } => {
            mark_chain(marks, call);
        }
        CoreStmt::Builtin { call, .. } => {
            for e in call.actuals {
                mark_expression(marks, e);
            }
        }
        CoreStmt::Change { target, amount, .. } => {
            mark_chain(marks, target);
            mark_optional(marks, *amount);
        }
        CoreStmt::Case { value, .. }
        | CoreStmt::TypeCase { value, .. }
        | CoreStmt::Eval { value, .. } => mark_expression(marks, value),
        CoreStmt::For {
            first,
            last,
            step,
            ..
        } => {
            mark_expression(marks, first);
            mark_expression(marks, last);
            mark_optional(marks, *step);
        }
        CoreStmt::If { arms, .. } => {
            for arm in *arms {
                mark_expression(marks, arm.condition);
            }
        }
        CoreStmt::Raise { argument: e, .. } | CoreStmt::Return { value: e, .. } => {
            mark_optional(marks, *e);
        }
        CoreStmt::Repeat { condition, .. } | CoreStmt::While { condition, .. } => {
            mark_expression(marks, condition);
        }
        CoreStmt::With { bindings, .. } => mark_bindings(marks, bindings),
        _ => {}
    }
}

fn mark_optional(marks: &mut Marks<'_>, e: Option<&CoreExpr<'_>>) {
    if let Some(e) = e {
        mark_expression(marks, e);
    }
}

fn mark_bindings(marks: &mut Marks<'_>, bindings: &[WithBinding<'_>]) {
    for binding in bindings {
        match binding.bound {
            Bound::Place(chain) => {
                let root = mark_chain(marks, chain);
                marks.let_out(root);
            }
            Bound::Value(e) => mark_expression(marks, e),
        }
    }
}

/// Marks what is shared in the statements within a statement.
#[cycle(statements)]
fn mark_inner(marks: &mut Marks<'_>, statement: &CoreStmt<'_>) {
    match statement {
        CoreStmt::Block { initial, body, .. } => {
            mark_statements(marks, initial);
            mark_statements(marks, body);
        }
        CoreStmt::Case {
            branches,
            otherwise,
            ..
        } => {
            for branch in *branches {
                mark_statements(marks, branch.body);
            }
            mark_statements(marks, otherwise.body);
        }
        CoreStmt::TypeCase {
            branches,
            otherwise,
            ..
        } => {
            for branch in *branches {
                mark_statements(marks, branch.body);
            }
            mark_statements(marks, otherwise.body);
        }
        CoreStmt::If {
            arms,
            otherwise,
            ..
        } => {
            for arm in *arms {
                mark_statements(marks, arm.body);
            }
            mark_statements(marks, otherwise.body);
        }
        CoreStmt::TryExcept {
            body,
            handlers,
            otherwise,
            ..
        } => {
            mark_statements(marks, body);
            for handler in *handlers {
                mark_statements(marks, handler.body);
            }
            mark_statements(marks, otherwise.body);
        }
        CoreStmt::TryFinally { body, last, .. } => {
            mark_statements(marks, body);
            mark_statements(marks, last);
        }
        CoreStmt::For { body, .. }
        | CoreStmt::Loop { body, .. }
        | CoreStmt::Repeat { body, .. }
        | CoreStmt::While { body, .. }
        | CoreStmt::With { body, .. } => mark_statements(marks, body),
        _ => {}
    }
}
