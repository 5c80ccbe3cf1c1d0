use crate::statements::statements;
use m3_core::CoreStmt;
use m3_lower_exits::{Exits, clear_inside, place_of, showing};
use m3_lower_expr::condition;
use m3_lower_simple_statements::{Course, Progression, begin, first_test, limit, pace_of, turned};
use m3_lower_state::{Builder, Location, Pending, store_word};
use m3_mid::{Kind, MidOp, Operand};

/// FOR: first, last and step once; the body with its point while the variable hasn't passed the
/// last.
#[cycle(statements)]
pub fn for_loop<'m>(
    b: &mut Builder<'m, '_>,
    exits: Exits,
    s: &CoreStmt,
    rest: Pending<'m>,
) -> Pending<'m> {
    let CoreStmt::For {
        variable,
        first,
        last,
        step,
        body,
        ..
    } = s
    else {
        return rest;
    };
    let after = clear_inside(b, body, rest);
    let exit = b.seal(after);
    let progression = Progression {
        first: *first,
        last: *last,
        step: *step,
    };
    let course = course_of(b, *variable, progression, exit);
    let inside = Exits {
        exit: Some(exit),
        ..showing(b, exits, &[*variable])
    };
    let turn = turn_of(b, inside, course);
    let code = statements(b, inside, body, turn);
    let code = store_index(b, *variable, course.index, code);
    b.set(course.head, code);
    let code = first_test(b, course);
    begin(b, exits, course, progression, code)
}

/// What the turns of a FOR go by.
fn course_of(b: &mut Builder, variable: u32, progression: Progression, exit: u32) -> Course {
    let head = b.reserve();
    let index = match place_of(b, variable).at {
        Location::Temps(temp) => temp,
        _ => b.temp(Kind::Number),
    };
    Course {
        index,
        last: limit(b, progression.last),
        pace: pace_of(b, progression.step),
        head,
        exit,
    }
}

/// The end of a turn of a FOR, with its point.
fn turn_of<'m>(b: &mut Builder<'m, '_>, inside: Exits, course: Course) -> Pending<'m> {
    let shown = b.shown(inside.around);
    turned(b, course).after(MidOp::Point { shown })
}

/// Gives the variable of a turn its value, where it isn't the index itself.
fn store_index<'m>(
    b: &mut Builder<'m, '_>,
    variable: u32,
    index: u32,
    rest: Pending<'m>,
) -> Pending<'m> {
    let place = place_of(b, variable);
    match place.at {
        Location::Temps(_) => rest,
        _ => store_word(b, place, 0, Operand::Temp(index), rest),
    }
}

/// LOOP: the body with its point, for ever.
#[cycle(statements)]
pub fn plain_loop<'m>(
    b: &mut Builder<'m, '_>,
    exits: Exits,
    body: &[CoreStmt],
    rest: Pending<'m>,
) -> Pending<'m> {
    let after = clear_inside(b, body, rest);
    let exit = b.seal(after);
    let head = b.reserve();
    let shown = b.shown(exits.around);
    let turn = b.goto(head).after(MidOp::Point { shown });
    let inside = Exits {
        exit: Some(exit),
        ..exits
    };
    let code = statements(b, inside, body, turn);
    b.set(head, code);
    b.goto(head)
}

/// EXIT: what follows the loop. Outside loops, where no valid program has it, it does nothing.
pub fn leave_loop<'m>(b: &Builder<'m, '_>, exits: Exits, rest: Pending<'m>) -> Pending<'m> {
    match exits.exit {
        Some(block) => b.goto(block),
        None => rest,
    }
}

/// WHILE: the test, and the body with its point.
#[cycle(statements)]
pub fn while_loop<'m>(
    b: &mut Builder<'m, '_>,
    exits: Exits,
    s: &CoreStmt,
    rest: Pending<'m>,
) -> Pending<'m> {
    let CoreStmt::While {
        condition: test,
        body,
        ..
    } = s
    else {
        return rest;
    };
    let after = clear_inside(b, body, rest);
    let exit = b.seal(after);
    let head = b.reserve();
    let shown = b.shown(exits.around);
    let turn = b.goto(head).after(MidOp::Point { shown });
    let inside = Exits {
        exit: Some(exit),
        ..exits
    };
    let code = statements(b, inside, body, turn);
    let once = b.seal(code);
    let code = condition(b, exits.around, test, once, exit);
    b.set(head, code);
    b.goto(head)
}

/// REPEAT: the body, its point, and then the test.
#[cycle(statements)]
pub fn repeat_loop<'m>(
    b: &mut Builder<'m, '_>,
    exits: Exits,
    s: &CoreStmt,
    rest: Pending<'m>,
) -> Pending<'m> {
    let CoreStmt::Repeat {
        body,
        condition: test,
        ..
    } = s
    else {
        return rest;
    };
    let after = clear_inside(b, body, rest);
    let exit = b.seal(after);
    let head = b.reserve();
    let shown = b.shown(exits.around);
    let turn = condition(b, exits.around, test, exit, head).after(MidOp::Point { shown });
    let inside = Exits {
        exit: Some(exit),
        ..exits
    };
    let code = statements(b, inside, body, turn);
    b.set(head, code);
    b.goto(head)
}
