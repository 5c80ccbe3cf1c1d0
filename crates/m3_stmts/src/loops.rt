use crate::sequences::statements;
use m3_check_statement_parts::{condition, counted, put_for, put_loop, put_repeat, put_while};
use m3_check_statement_state::Walk;
use m3_syntax::Stmt;

/// LOOP, WHILE, REPEAT and FOR. What stands beside the statements of a loop counts as inside
/// it too, since no EXIT stands there.
#[cycle(statements)]
pub fn repeated<'a>(walk: &mut Walk<'_, 'a>, statement: &Stmt<'a>) {
    let loops = walk.body.loops;
    walk.body.loops = loops.saturating_add(1);
    match statement {
        Stmt::Loop { pos, body } => {
            let body = statements(walk, body);
            put_loop(walk, *pos, body);
        }
        Stmt::While {
            pos,
            condition: tested,
            body,
        } => {
            let condition = condition(walk, tested);
            let body = statements(walk, body);
            put_while(walk, *pos, condition, body);
        }
        Stmt::Repeat {
            pos,
            body,
            condition: tested,
        } => {
            let body = statements(walk, body);
            let condition = condition(walk, tested);
            put_repeat(walk, *pos, body, condition);
        }
        Stmt::For { pos, body, .. } => {
            let head = counted(walk, statement);
            let body = statements(walk, body);
            put_for(walk, *pos, head, body);
        }
        _ => {}
    }
    walk.body.loops = loops;
}
