use crate::branches::{alternatives, choice, handled, type_choice};
use crate::loops::repeated;
use crate::procedures::block;
use crate::scopes::enclosed;
use m3_check_statement_parts::put_leaf;
use m3_check_statement_state::Walk;
use m3_core::CoreStmt;
use m3_syntax::Stmt;

/// The checked statements of a row; those that were refused are left out.
#[cycle(statements)]
pub fn statements<'a>(walk: &mut Walk<'_, 'a>, row: &[Stmt<'a>]) -> &'a [CoreStmt<'a>] {
    let marks = walk.marks();
    for one in row {
        statement(walk, one);
    }
    walk.close(&marks)
}

/// Checks a statement, and adds it to the row in which it stands, if it isn't refused.
#[cycle(statements)]
fn statement<'a>(walk: &mut Walk<'_, 'a>, statement: &Stmt<'a>) {
    walk.checker.steps.clear();
    match statement {
        Stmt::Assign { .. }
        | Stmt::Call { .. }
        | Stmt::Eval { .. }
        | Stmt::Return { .. }
        | Stmt::Raise { .. }
        | Stmt::Exit { .. } => put_leaf(walk, statement),
        Stmt::Block(inner) => block(walk, inner),
        Stmt::Case { .. } => choice(walk, statement),
        Stmt::TypeCase { .. } => type_choice(walk, statement),
        Stmt::If { .. } => alternatives(walk, statement),
        Stmt::Lock { .. } | Stmt::With { .. } | Stmt::TryFinally { .. } => {
            enclosed(walk, statement)
        }
        Stmt::TryExcept { .. } => handled(walk, statement),
        Stmt::Loop { .. } | Stmt::While { .. } | Stmt::Repeat { .. } | Stmt::For { .. } => {
            repeated(walk, statement)
        }
    }
}
