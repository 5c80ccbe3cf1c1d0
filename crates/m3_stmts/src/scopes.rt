use crate::sequences::statements;
use m3_check_statement_parts::{bindings, mutex, put_finally, put_lock, put_with};
use m3_check_statement_state::Walk;
use m3_syntax::Stmt;

/// WITH, LOCK and TRY FINALLY.
#[cycle(statements)]
pub fn enclosed<'a>(walk: &mut Walk<'_, 'a>, statement: &Stmt<'a>) {
    match statement {
        Stmt::With {
            pos,
            bindings: names,
            body,
        } => {
            let bindings = bindings(walk, names);
            let body = statements(walk, body);
            put_with(walk, *pos, bindings, body);
        }
        Stmt::Lock {
            pos,
            mutex: locked,
            body,
        } => {
            let hidden = mutex(walk, *pos, locked);
            let body = statements(walk, body);
            put_lock(walk, *pos, hidden, body);
        }
        Stmt::TryFinally { pos, body, last } => {
            let body = statements(walk, body);
            let last = statements(walk, last);
            put_finally(walk, *pos, body, last);
        }
        _ => {}
    }
}
