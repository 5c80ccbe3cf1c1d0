use m3_base::Pos;
use m3_check_bindings::ForHead;
use m3_check_statement_state::Walk;
use m3_core::{CoreExpr, CoreStmt};

/// Puts a LOOP.
pub fn put_loop<'a>(walk: &mut Walk<'_, 'a>, pos: Pos, body: &'a [CoreStmt<'a>]) {
    walk.put(CoreStmt::Loop { pos, body });
}

/// Puts a WHILE, unless its condition was refused.
pub fn put_while<'a>(
    walk: &mut Walk<'_, 'a>,
    pos: Pos,
    condition: Option<&'a CoreExpr<'a>>,
    body: &'a [CoreStmt<'a>],
) {
    if let Some(condition) = condition {
        walk.put(CoreStmt::While {
            pos,
            condition,
            body,
        });
    }
}

/// Puts a REPEAT, unless its condition was refused.
pub fn put_repeat<'a>(
    walk: &mut Walk<'_, 'a>,
    pos: Pos,
    body: &'a [CoreStmt<'a>],
    condition: Option<&'a CoreExpr<'a>>,
) {
    if let Some(condition) = condition {
        walk.put(CoreStmt::Repeat {
            pos,
            body,
            condition,
        });
    }
}

/// Puts a FOR, unless its head was refused.
pub fn put_for<'a>(
    walk: &mut Walk<'_, 'a>,
    pos: Pos,
    head: Option<ForHead<'a>>,
    body: &'a [CoreStmt<'a>],
) {
    if let Some(head) = head {
        walk.put(CoreStmt::For {
            pos,
            variable: head.variable,
            first: head.first,
            last: head.last,
            step: head.step,
            body,
        });
    }
}
