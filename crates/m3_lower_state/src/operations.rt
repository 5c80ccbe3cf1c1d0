use crate::builder::Builder;
use crate::pending::Pending;
use m3_base::{FaultKind, Pos};
use m3_mid::{End, MidOp, Operand, Relation, WordOperator};

/// A sum, difference or product modulo 2^64, or of bits.
pub fn arith(to: u32, operator: WordOperator, left: Operand, right: Operand) -> MidOp<'static> {
    MidOp::Arith {
        to,
        operator,
        left,
        right,
    }
}

/// A check that ends with a fault.
pub fn check(
    relation: Relation,
    left: Operand,
    right: Operand,
    fault: FaultKind,
    pos: Pos,
) -> MidOp<'static> {
    MidOp::Check {
        relation,
        left,
        right,
        fault,
        pos,
    }
}

/// A check that a reference isn't NIL.
pub fn not_nil(reference: Operand, pos: Pos) -> MidOp<'static> {
    MidOp::Check {
        relation: Relation::NotEqual,
        left: reference,
        right: Operand::Number(0),
        fault: FaultKind::Nil,
        pos,
    }
}

/// The temporary of an operand that is one.
pub fn temp_in(operand: Operand) -> u32 {
    match operand {
        Operand::Temp(temp) => temp,
        Operand::Number(_) => 0,
    }
}

/// Puts 1 where a relation holds and else 0 into a temporary.
pub fn compare(to: u32, relation: Relation, left: Operand, right: Operand) -> MidOp<'static> {
    if let (Operand::Number(x), Operand::Number(y)) = (left, right) {
        return MidOp::Number {
            to,
            value: i64::from(holds(relation, x, y)),
        };
    }
    MidOp::Compare {
        to,
        relation,
        left,
        right,
    }
}

/// Code that goes on at one of two blocks by a relation.
pub fn choice<'m>(
    b: &Builder<'m, '_>,
    relation: Relation,
    left: Operand,
    right: Operand,
    yes: u32,
    no: u32,
) -> Pending<'m> {
    if yes == no {
        return b.goto(yes);
    }
    if let (Operand::Number(x), Operand::Number(y)) = (left, right) {
        return if holds(relation, x, y) {
            b.goto(yes)
        } else {
            b.goto(no)
        };
    }
    Pending::bare(
        b.alloc,
        End::If {
            relation,
            left,
            right,
            yes,
            no,
        },
    )
}

/// Whether a relation holds between two numbers.
fn holds(relation: Relation, x: i64, y: i64) -> bool {
    match relation {
        Relation::Equal => x == y,
        Relation::NotEqual => x != y,
        Relation::Less => x < y,
        Relation::LessEqual => x <= y,
        Relation::LessUnsigned => x.cast_unsigned() < y.cast_unsigned(),
        Relation::LessEqualUnsigned => x.cast_unsigned() <= y.cast_unsigned(),
    }
}
