use m3_base::Pos;
use m3_check_bodies::{Heading, define};
use m3_check_statement_state::Walk;
use m3_core::CoreStmt;

/// Puts a block.
pub fn put_block<'a>(
    walk: &mut Walk<'_, 'a>,
    pos: Pos,
    variables: &'a [u32],
    initial: &'a [CoreStmt<'a>],
    body: &'a [CoreStmt<'a>],
) {
    walk.put(CoreStmt::Block {
        pos,
        variables,
        initial,
        body,
    });
}

/// Goes back to the body around, and adds the procedure whose body was left. `row` has its block.
pub fn leave<'a>(walk: &mut Walk<'_, 'a>, heading: &Heading<'a>, row: &'a [CoreStmt<'a>]) {
    let body = walk.leave();
    let defined = define(&walk.checker, &mut walk.procedures, body, heading, row);
    walk.memory.made(defined);
}
