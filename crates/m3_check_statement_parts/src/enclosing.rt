use m3_base::Pos;
use m3_check_bindings::{Hidden, add_lock};
use m3_check_branches::simple;
use m3_check_statement_state::Walk;
use m3_core::{CoreStmt, WithBinding};
use m3_syntax::Stmt;

/// Checks and puts a statement that holds no statements.
pub fn put_leaf<'a>(walk: &mut Walk<'_, 'a>, statement: &Stmt<'a>) {
    let checked = simple(&mut walk.checker, &walk.body, statement);
    if let Some(checked) = walk.memory.found(checked) {
        walk.put(checked);
    }
}

/// Puts a WITH.
pub fn put_with<'a>(
    walk: &mut Walk<'_, 'a>,
    pos: Pos,
    bindings: &'a [WithBinding<'a>],
    body: &'a [CoreStmt<'a>],
) {
    walk.put(CoreStmt::With {
        pos,
        bindings,
        body,
    });
}

/// Puts a LOCK, unless its mutex was refused.
pub fn put_lock<'a>(
    walk: &mut Walk<'_, 'a>,
    pos: Pos,
    hidden: Option<Hidden<'a>>,
    body: &'a [CoreStmt<'a>],
) {
    if let Some(hidden) = hidden {
        let row = &mut walk.rows.statements.items;
        let added = add_lock(&walk.checker, row, pos, &hidden, body);
        walk.memory.made(added);
    }
}

/// Puts a TRY FINALLY.
pub fn put_finally<'a>(
    walk: &mut Walk<'_, 'a>,
    pos: Pos,
    body: &'a [CoreStmt<'a>],
    last: &'a [CoreStmt<'a>],
) {
    walk.put(CoreStmt::TryFinally { pos, body, last });
}
