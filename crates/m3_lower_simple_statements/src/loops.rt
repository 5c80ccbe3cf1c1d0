use m3_core::CoreExpr;
use m3_lower_exits::Exits;
use m3_lower_expr::into_temp;
use m3_lower_places::ready;
use m3_lower_state::{Builder, Pending, arith, choice, set};
use m3_mid::{Kind, Operand, Relation, WordOperator};

/// A step of FOR, as far as it is known.
#[derive(Clone, Copy)]
pub enum Pace {
    Known(i64),
    Temp(u32),
}

/// The parts of a FOR that its code names over and over.
#[derive(Clone, Copy)]
pub struct Course {
    pub index: u32,
    pub last: Operand,
    pub pace: Pace,
    pub head: u32,
    pub exit: u32,
}

/// What the variable of a FOR goes through: from the first value to the last, by a step where one
/// is written.
#[derive(Clone, Copy)]
pub struct Progression<'a> {
    pub first: &'a CoreExpr<'a>,
    pub last: &'a CoreExpr<'a>,
    pub step: Option<&'a CoreExpr<'a>>,
}

/// Code for first, last and step in order.
pub fn begin<'m>(
    b: &mut Builder<'m, '_>,
    exits: Exits,
    course: Course,
    progression: Progression,
    rest: Pending<'m>,
) -> Pending<'m> {
    let code = match (progression.step, course.pace) {
        (Some(step), Pace::Temp(to)) => evaluated(b, exits, step, to, rest),
        _ => rest,
    };
    let code = match course.last {
        Operand::Temp(to) => evaluated(b, exits, progression.last, to, code),
        Operand::Number(_) => code,
    };
    evaluated(b, exits, progression.first, course.index, code)
}

fn evaluated<'m>(
    b: &mut Builder<'m, '_>,
    exits: Exits,
    e: &CoreExpr,
    to: u32,
    rest: Pending<'m>,
) -> Pending<'m> {
    match ready(b, e) {
        Some(operand) => set(to, operand, rest),
        None => into_temp(b, exits.around, e, to, rest),
    }
}

/// The last value: a number, or a temporary of its own, since the body may set a variable.
pub fn limit(b: &mut Builder, last: &CoreExpr) -> Operand {
    match ready(b, last) {
        Some(Operand::Number(number)) => Operand::Number(number),
        _ => Operand::Temp(b.temp(Kind::Number)),
    }
}

/// The step of a FOR, which is 1 where none is written.
pub fn pace_of(b: &mut Builder, step: Option<&CoreExpr>) -> Pace {
    let Some(step) = step else {
        return Pace::Known(1);
    };
    match ready(b, step) {
        Some(Operand::Number(number)) => Pace::Known(number),
        _ => Pace::Temp(b.temp(Kind::Number)),
    }
}

/// Goes to the first turn, or out where there is none.
pub fn first_test<'m>(b: &mut Builder<'m, '_>, course: Course) -> Pending<'m> {
    let index = Operand::Temp(course.index);
    let (head, exit) = (course.head, course.exit);
    match course.pace {
        Pace::Known(step) if step >= 0 => {
            choice(b, Relation::LessEqual, index, course.last, head, exit)
        }
        Pace::Known(_) => choice(b, Relation::LessEqual, course.last, index, head, exit),
        Pace::Temp(step) => {
            let up = choice(b, Relation::LessEqual, index, course.last, head, exit);
            let up = b.seal(up);
            let down = choice(b, Relation::LessEqual, course.last, index, head, exit);
            let down = b.seal(down);
            choice(
                b,
                Relation::Less,
                Operand::Temp(step),
                Operand::Number(0),
                down,
                up,
            )
        }
    }
}

/// Goes to the next turn, or out where the next value would pass the last one or leave INTEGER.
pub fn turned<'m>(b: &mut Builder<'m, '_>, course: Course) -> Pending<'m> {
    let index = Operand::Temp(course.index);
    match course.pace {
        Pace::Known(0) => b.goto(course.head),
        Pace::Known(1) => {
            let next = stepped(b, course, Operand::Number(1));
            choice(b, Relation::Less, index, course.last, next, course.exit)
        }
        Pace::Known(-1) => {
            let next = stepped(b, course, Operand::Number(-1));
            choice(b, Relation::Less, course.last, index, next, course.exit)
        }
        Pace::Known(step) => {
            let next = stepped(b, course, Operand::Number(step));
            let width = Operand::Number(step.wrapping_abs());
            further(b, course, step >= 0, width, next)
        }
        Pace::Temp(step) => turned_by(b, course, step),
    }
}

fn turned_by<'m>(b: &mut Builder<'m, '_>, course: Course, step: u32) -> Pending<'m> {
    let next = stepped(b, course, Operand::Temp(step));
    let up = further(b, course, true, Operand::Temp(step), next);
    let up = b.seal(up);
    let width = b.temp(Kind::Number);
    let down = further(b, course, false, Operand::Temp(width), next).after(arith(
        width,
        WordOperator::Subtract,
        Operand::Number(0),
        Operand::Temp(step),
    ));
    let down = b.seal(down);
    choice(
        b,
        Relation::Less,
        Operand::Temp(step),
        Operand::Number(0),
        down,
        up,
    )
}

/// The block that sets the variable for the next turn.
fn stepped(b: &mut Builder, course: Course, by: Operand) -> u32 {
    let code = b.goto(course.head).after(arith(
        course.index,
        WordOperator::Add,
        Operand::Temp(course.index),
        by,
    ));
    b.seal(code)
}

/// Goes to the next turn where the distance to the last value is at least the step's width, else
/// out.
fn further<'m>(
    b: &mut Builder<'m, '_>,
    course: Course,
    is_up: bool,
    width: Operand,
    next: u32,
) -> Pending<'m> {
    let index = Operand::Temp(course.index);
    let (left, right) = if is_up {
        (course.last, index)
    } else {
        (index, course.last)
    };
    let distance = b.temp(Kind::Number);
    let code = choice(
        b,
        Relation::LessUnsigned,
        Operand::Temp(distance),
        width,
        course.exit,
        next,
    );
    code.after(arith(distance, WordOperator::Subtract, left, right))
}
