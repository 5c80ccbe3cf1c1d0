use crate::statements::statements;
use m3_core::{CoreStmt, Handler};
use m3_lower_exits::{
    EXITED, Exits, NORMALLY, RAISED, RETURNED, Returning, SlotRange, clear_range, clear_variables,
    dispatch, forget_raised, is_reference_word, left_as, move_raised, overriding, place_of,
    showing, slots_inside, type_of,
};
use m3_lower_simple_statements::test_exceptions;
use m3_lower_state::{Around, Builder, Pending, clear, store_word};
use m3_mid::{Kind, Operand, Raised};

/// TRY EXCEPT: the body, with the handlers and the ELSE behind its exits.
#[cycle(statements)]
pub fn try_except<'m>(
    b: &mut Builder<'m, '_>,
    exits: Exits,
    s: &CoreStmt,
    rest: Pending<'m>,
) -> Pending<'m> {
    let CoreStmt::TryExcept {
        body,
        handlers,
        otherwise,
        ..
    } = s
    else {
        return rest;
    };
    let join = b.seal(rest);
    let slots = slots_inside(b, body);
    let last = if otherwise.is_written {
        let code = b.goto(join);
        let code = statements(b, exits, otherwise.body, code);
        let code = clear_range(b, slots, code);
        Some(b.seal(code))
    } else {
        None
    };
    let caught = catch(b, exits, handlers, last, join);
    let caught = clear_range(b, slots, caught);
    let raised = b.reserve();
    let inside = caught_at(exits, raised, last);
    let first = b.slot_count();
    let code = b.goto(join);
    let code = statements(b, inside, body, code);
    land(b, raised, first, caught);
    code
}

/// The exits of the body of a TRY EXCEPT: the block where exceptions arrive, and that of the ELSE.
fn caught_at(exits: Exits, raised: u32, last: Option<u32>) -> Exits {
    let around = Around {
        raised,
        ..exits.around
    };
    match last {
        Some(block) => Exits {
            around,
            exit: exits.exit.and(Some(block)),
            returning: Returning::Drops(block),
            outcome: exits.outcome,
        },
        None => exits.showing(around),
    }
}

/// Makes the block where an exception arrives that leaves statements: what the slots that were
/// taken for these hold is wanted by nobody any more.
fn land<'m>(b: &mut Builder<'m, '_>, raised: u32, first: u32, code: Pending<'m>) {
    let end = b.slot_count();
    let code = if first < end {
        clear(b, first, end, code)
    } else {
        code
    };
    b.set(raised, code);
}

/// Goes to the first handler of the exception, else to the ELSE or on outside.
#[cycle(statements)]
fn catch<'m>(
    b: &mut Builder<'m, '_>,
    exits: Exits,
    handlers: &[Handler],
    otherwise: Option<u32>,
    join: u32,
) -> Pending<'m> {
    let mut code = match otherwise {
        Some(block) => b.goto(block),
        None => b.goto(exits.around.raised),
    };
    for handler in handlers.iter().rev() {
        let block = handle(b, exits, handler, join);
        code = test_exceptions(b, handler.exceptions, block, code);
    }
    code
}

/// The block of a handler, whose variable gets the argument.
#[cycle(statements)]
fn handle<'m>(b: &mut Builder<'m, '_>, exits: Exits, handler: &Handler, join: u32) -> u32 {
    let body = b.goto(join);
    let Some(variable) = handler.variable else {
        let code = statements(b, exits, handler.body, body);
        return b.seal(code);
    };
    let inside = showing(b, exits, &[variable]);
    let body = clear_variables(b, &[variable], body);
    let code = statements(b, inside, handler.body, body);
    let code = store_argument(b, variable, code);
    b.seal(code)
}

/// Stores the argument of the exception in a variable.
fn store_argument<'m>(b: &mut Builder<'m, '_>, variable: u32, rest: Pending<'m>) -> Pending<'m> {
    let is_tidy = match type_of(b, variable) {
        Some(kind) => is_reference_word(b, kind),
        None => false,
    };
    let argument = if is_tidy {
        b.raised.tidy
    } else {
        b.raised.number
    };
    let has_word = match type_of(b, variable) {
        Some(kind) => b.storage.words(kind) == 1,
        None => false,
    };
    if has_word {
        store_word(b, place_of(b, variable), 0, Operand::Temp(argument), rest)
    } else {
        rest
    }
}

/// TRY FINALLY: the last part runs once for each way out, and then goes on as the body was left.
#[cycle(statements)]
pub fn try_finally<'m>(
    b: &mut Builder<'m, '_>,
    exits: Exits,
    s: &CoreStmt,
    rest: Pending<'m>,
) -> Pending<'m> {
    let CoreStmt::TryFinally { body, last, .. } = s else {
        return rest;
    };
    let slots = slots_inside(b, body);
    let left = left_by(b);
    let code = dispatch(b, exits, left.way, left.kept, rest);
    let leaving = overriding(b, exits);
    let code = statements(b, leaving, last, code);
    let finish = b.seal(code);
    let (inside, caught) = ways_out(b, exits, left, slots, finish);
    let first = b.slot_count();
    let normal = left_unraised(b, left, NORMALLY, finish);
    let code = statements(b, inside, body, normal);
    land(b, inside.around.raised, first, caught);
    code
}

/// How the body of a TRY FINALLY is left: the temporary for the way, and those that keep an
/// exception.
#[derive(Clone, Copy)]
struct Left {
    way: u32,
    kept: Raised,
}

fn left_by(b: &mut Builder) -> Left {
    Left {
        way: b.temp(Kind::Number),
        kept: Raised {
            exception: b.temp(Kind::Number),
            number: b.temp(Kind::Number),
            tidy: b.temp(Kind::Tidy),
        },
    }
}

/// Notes how a body was left without an exception. What keeps one is 0 then, so that it isn't live
/// before: else each point of the procedure would list it.
fn left_unraised<'m>(b: &mut Builder<'m, '_>, left: Left, number: i64, finish: u32) -> Pending<'m> {
    let code = left_as(b, left.way, number, finish);
    forget_raised(left.kept, code)
}

/// The exits of the body of a TRY FINALLY: each notes its way, clears the slots of the body's
/// variables, and goes on at a block. Beside them the code where exceptions arrive.
fn ways_out<'m>(
    b: &mut Builder<'m, '_>,
    exits: Exits,
    left: Left,
    slots: SlotRange,
    finish: u32,
) -> (Exits, Pending<'m>) {
    let code = left_as(b, left.way, RAISED, finish);
    let code = move_raised(b.raised, left.kept, code);
    let caught = clear_range(b, slots, code);
    let raised = b.reserve();
    let exit = match exits.exit {
        Some(_) => {
            let code = left_unraised(b, left, EXITED, finish);
            let code = clear_range(b, slots, code);
            Some(b.seal(code))
        }
        None => None,
    };
    let code = left_unraised(b, left, RETURNED, finish);
    let code = clear_range(b, slots, code);
    let returned = b.seal(code);
    let inside = Exits {
        around: Around {
            raised,
            ..exits.around
        },
        exit,
        returning: match exits.returning {
            Returning::Ends | Returning::Passes(_) => Returning::Passes(returned),
            Returning::Drops(_) => Returning::Drops(returned),
        },
        outcome: exits.outcome,
    };
    (inside, caught)
}
