use crate::blocks::{block, with};
use crate::branches::{case_of, if_arms, type_case};
use crate::exceptions::{try_except, try_finally};
use crate::loops::{for_loop, leave_loop, plain_loop, repeat_loop, while_loop};
use m3_core::CoreStmt;
use m3_lower_exits::Exits;
use m3_lower_expr::builtin_into;
use m3_lower_simple_statements::{
    Adjustment, assign, called, change, evaluate, raise, return_value,
};
use m3_lower_state::{Builder, Pending};

/// Code for a row of statements.
#[cycle(statements)]
pub fn statements<'m>(
    b: &mut Builder<'m, '_>,
    exits: Exits,
    row: &[CoreStmt],
    rest: Pending<'m>,
) -> Pending<'m> {
    let mut code = rest;
    for place in (0..row.len()).rev() {
        if let Some(s) = row.get(place) {
            code = statement(b, exits, s, code);
        }
    }
    code
}

/// Code for a statement, with what follows it.
#[cycle(statements)]
fn statement<'m>(
    b: &mut Builder<'m, '_>,
    exits: Exits,
    s: &CoreStmt,
    rest: Pending<'m>,
) -> Pending<'m> {
    match s {
        CoreStmt::Assign {
            target,
            value,
            checks_shape,
            ..
        } => assign(b, exits, target, value, *checks_shape, rest),
        CoreStmt::Call { call, .. } => called(b, exits, call, rest),
        CoreStmt::Builtin { call, .. } => builtin_into(b, exits.around, call, None, rest),
        CoreStmt::Change {
            pos,
            is_decrement,
            target,
            amount,
        } => {
            let adjustment = Adjustment {
                pos: *pos,
                is_decrement: *is_decrement,
            };
            change(b, exits, adjustment, target, *amount, rest)
        }
        CoreStmt::Block { .. } => block(b, exits, s, rest),
        CoreStmt::Case { .. } => case_of(b, exits, s, rest),
        CoreStmt::Exit { .. } => leave_loop(b, exits, rest),
        CoreStmt::Eval { value, .. } => evaluate(b, exits, value, rest),
        CoreStmt::For { .. } => for_loop(b, exits, s, rest),
        CoreStmt::If { .. } => if_arms(b, exits, s, rest),
        CoreStmt::Loop { body, .. } => plain_loop(b, exits, body, rest),
        CoreStmt::Raise {
            exception,
            argument,
            ..
        } => raise(b, exits, *exception, *argument),
        CoreStmt::Repeat { .. } => repeat_loop(b, exits, s, rest),
        CoreStmt::Return { value, .. } => return_value(b, exits, *value),
        CoreStmt::TryExcept { .. } => try_except(b, exits, s, rest),
        CoreStmt::TryFinally { .. } => try_finally(b, exits, s, rest),
        CoreStmt::TypeCase { .. } => type_case(b, exits, s, rest),
        CoreStmt::While { .. } => while_loop(b, exits, s, rest),
        CoreStmt::With { .. } => with(b, exits, s, rest),
    }
}
