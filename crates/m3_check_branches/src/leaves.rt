use crate::raises::raise;
use m3_base::{NoMemory, rules};
use m3_check_assignments::{assign, call_statement, eval, give_back};
use m3_check_bodies::Body;
use m3_check_state::Checker;
use m3_core::CoreStmt;
use m3_syntax::Stmt;

/// A statement without statements in it.
pub fn simple<'a>(
    checker: &mut Checker<'_, 'a>,
    body: &Body<'a>,
    statement: &Stmt<'a>,
) -> Result<Option<CoreStmt<'a>>, NoMemory> {
    match statement {
        Stmt::Assign { pos, target, value } => assign(checker, *pos, target, value),
        Stmt::Call {
            pos,
            callee,
            parenthesis,
            actuals,
        } => call_statement(checker, *pos, callee, *parenthesis, actuals),
        Stmt::Eval { pos, value } => eval(checker, *pos, value),
        Stmt::Return { pos, value } => give_back(checker, body.result, *pos, *value),
        Stmt::Raise {
            pos,
            exception,
            argument,
        } => raise(checker, *pos, exception, *argument),
        Stmt::Exit { pos } => {
            if body.loops == 0 {
                checker.note(*pos, rules::EXIT_OUTSIDE_LOOP);
            }
            Ok(Some(CoreStmt::Exit { pos: *pos }))
        }
        _ => Ok(None),
    }
}
