use crate::conversions::in_range;
use crate::operators::is_made_text;
use crate::services::{ServiceCall, serve, service_of};
use m3_base::{FaultKind, Pos};
use m3_core::{BuiltinCall, CoreExpr, Routine};
use m3_lower_state::{
    Around, Builder, Pending, arith, check, choice, kind_of, load_at, not_nil, set, temp_in,
};
use m3_mid::{CheckedOperator, Kind, MidOp, Operand, Relation, WordOperator};

/// The operand at a place of a row.
pub fn operand_at(operands: &[Operand], place: usize) -> Operand {
    match operands.get(place) {
        Some(operand) => *operand,
        None => Operand::Number(0),
    }
}

/// Whether an actual of a routine may not be NIL.
fn wants_cell(routine: Routine, actual: usize) -> bool {
    match routine {
        Routine::Put
        | Routine::TextGetChar
        | Routine::TextLength
        | Routine::TextEmpty
        | Routine::TextSub
        | Routine::Fork
        | Routine::Join
        | Routine::Acquire
        | Routine::Release
        | Routine::Signal
        | Routine::Broadcast
        | Routine::Alert
        | Routine::AlertJoin => actual == 0,
        Routine::TextCat | Routine::TextEqual | Routine::Wait | Routine::AlertWait => true,
        _ => false,
    }
}

/// The checks that come right behind the evaluation of an actual.
pub fn check_operand<'m>(
    b: &mut Builder<'m, '_>,
    call: &BuiltinCall,
    actual: usize,
    e: &CoreExpr,
    operand: Operand,
    rest: Pending<'m>,
) -> Pending<'m> {
    let code = match (call.routine, actual) {
        (Routine::Fork, 0) => check_apply(b, e, operand, rest),
        (Routine::WordDivide | Routine::WordMod, 1) => rest.after(check(
            Relation::NotEqual,
            operand,
            Operand::Number(0),
            FaultKind::DivZero,
            call.pos,
        )),
        _ => rest,
    };
    if wants_cell(call.routine, actual) && !is_made_text(e) {
        code.after(not_nil(operand, e.pos()))
    } else {
        code
    }
}

/// The check that a closure's `apply` isn't NIL: it is the first method of every closure.
fn check_apply<'m>(
    b: &mut Builder<'m, '_>,
    e: &CoreExpr,
    operand: Operand,
    rest: Pending<'m>,
) -> Pending<'m> {
    let Operand::Temp(object) = operand else {
        return rest;
    };
    let bound = b.temp(Kind::Number);
    let code = rest.after(not_nil(Operand::Temp(bound), e.pos()));
    code.after(MidOp::MethodOf {
        to: bound,
        object,
        method: 0,
    })
}

fn result_temp(b: &mut Builder, to: Option<u32>, kind: Kind) -> u32 {
    match to {
        Some(to) => to,
        None => b.temp(kind),
    }
}

/// What a routine does with its operands.
pub fn action<'m>(
    b: &mut Builder<'m, '_>,
    around: Around,
    call: &BuiltinCall,
    operands: &[Operand],
    to: Option<u32>,
    rest: Pending<'m>,
) -> Pending<'m> {
    if let Some(service) = service_of(call.routine) {
        let service_call = ServiceCall {
            service,
            pos: call.pos,
            operands,
        };
        return serve(b, around, service_call, to, rest);
    }
    let x = operand_at(operands, 0);
    let y = operand_at(operands, 1);
    let target = result_temp(b, to, Kind::Number);
    match call.routine {
        Routine::Min => lesser_or_greater(b, false, x, y, target, rest),
        Routine::Max => lesser_or_greater(b, true, x, y, target, rest),
        Routine::Ord => set(target, x, rest),
        Routine::Val => {
            let code = set(target, x, rest);
            valued(b, call, x, code)
        }
        _ => {
            let code = computed(b, call, x, y, target, rest);
            let shown = b.shown(around);
            let code = code.after(MidOp::Point { shown });
            check_byte_index(b, call, x, y, code)
        }
    }
}

fn valued<'m>(
    b: &mut Builder<'m, '_>,
    call: &BuiltinCall,
    x: Operand,
    rest: Pending<'m>,
) -> Pending<'m> {
    let from = match call.actuals.first() {
        Some(e) => kind_of(e),
        None => None,
    };
    match call.kind {
        Some(kind) => in_range(b, call.pos, kind, from, x, rest),
        None => rest,
    }
}

/// Puts the lesser of two numbers into a temporary, or the greater one.
fn lesser_or_greater<'m>(
    b: &mut Builder<'m, '_>,
    is_greater: bool,
    x: Operand,
    y: Operand,
    to: u32,
    rest: Pending<'m>,
) -> Pending<'m> {
    let join = b.seal(rest);
    let first = set(to, x, b.goto(join));
    let first = b.seal(first);
    let second = set(to, y, b.goto(join));
    let second = b.seal(second);
    let (less, more) = if is_greater { (y, x) } else { (x, y) };
    choice(b, Relation::LessEqual, less, more, first, second)
}

/// The check of Text.GetChar's index, once both actuals are evaluated.
fn check_byte_index<'m>(
    b: &mut Builder<'m, '_>,
    call: &BuiltinCall,
    text: Operand,
    index: Operand,
    rest: Pending<'m>,
) -> Pending<'m> {
    let (Routine::TextGetChar, Operand::Temp(text), Some(e)) = (
        call.routine,
        text,
        call.actuals.get(1),
    ) else {
        return rest;
    };
    let length = b.temp(Kind::Number);
    let code = rest.after(check(
        Relation::LessUnsigned,
        index,
        Operand::Temp(length),
        FaultKind::Index,
        e.pos(),
    ));
    load_at(b, length, text, 1, code)
}

fn word_operator(routine: Routine) -> Option<WordOperator> {
    match routine {
        Routine::WordPlus => Some(WordOperator::Add),
        Routine::WordMinus => Some(WordOperator::Subtract),
        Routine::WordTimes => Some(WordOperator::Multiply),
        Routine::WordAnd => Some(WordOperator::And),
        Routine::WordOr => Some(WordOperator::Or),
        Routine::WordXor => Some(WordOperator::Xor),
        Routine::WordShift => Some(WordOperator::Shift),
        Routine::WordRotate => Some(WordOperator::Rotate),
        _ => None,
    }
}

/// A routine that computes from its operands alone, behind its point.
fn computed<'m>(
    b: &mut Builder<'m, '_>,
    call: &BuiltinCall,
    x: Operand,
    y: Operand,
    to: u32,
    rest: Pending<'m>,
) -> Pending<'m> {
    if let Some(operator) = word_operator(call.routine) {
        return rest.after(arith(to, operator, x, y));
    }
    let pos = call.pos;
    match call.routine {
        Routine::WordNot => rest.after(arith(to, WordOperator::Xor, x, Operand::Number(-1))),
        Routine::WordDivide => rest.after(unsigned(CheckedOperator::DivUnsigned, x, y, to, pos)),
        Routine::WordMod => rest.after(unsigned(CheckedOperator::ModUnsigned, x, y, to, pos)),
        Routine::WordLess => rest.after(comparison(Relation::LessUnsigned, x, y, to)),
        Routine::WordLessEqual => rest.after(comparison(Relation::LessEqualUnsigned, x, y, to)),
        Routine::WordGreater => rest.after(comparison(Relation::LessUnsigned, y, x, to)),
        Routine::WordGreaterEqual => rest.after(comparison(Relation::LessEqualUnsigned, y, x, to)),
        Routine::TextEqual => rest.after(MidOp::EqualTexts {
            to,
            left: temp_in(x),
            right: temp_in(y),
        }),
        Routine::TextGetChar => rest.after(MidOp::TextByte {
            to,
            text: temp_in(x),
            index: y,
        }),
        Routine::TextLength => load_at(b, to, temp_in(x), 1, rest),
        Routine::TextEmpty => {
            let length = b.temp(Kind::Number);
            let zero = Operand::Number(0);
            let code = rest.after(comparison(Relation::Equal, Operand::Temp(length), zero, to));
            load_at(b, length, temp_in(x), 1, code)
        }
        _ => rest,
    }
}

fn unsigned(
    operator: CheckedOperator,
    left: Operand,
    right: Operand,
    to: u32,
    pos: Pos,
) -> MidOp<'static> {
    MidOp::Checked {
        to,
        operator,
        left,
        right,
        pos,
    }
}

fn comparison(relation: Relation, left: Operand, right: Operand, to: u32) -> MidOp<'static> {
    MidOp::Compare {
        to,
        relation,
        left,
        right,
    }
}
