use crate::comparisons::{count_of, word_at};
use crate::operators::Operands;
use m3_core::Operator;
use m3_lower_arrays::first_member;
use m3_lower_state::{Builder, Pending, Value, arith};
use m3_mid::{Kind, MidOp, Operand, Relation, WordOperator};

/// What the elements of a set constructor will be: one operand each, or two of a range.
#[derive(Clone, Copy)]
pub struct PlannedElement {
    pub first: Operand,
    pub last: Option<Operand>,
}

/// Temporaries in a row: the first of them, and how many there are.
#[derive(Clone, Copy)]
pub struct TempRow {
    pub first: u32,
    pub count: u32,
}

/// A word of a set, by the member whose bit is its first, and how many words the set has.
#[derive(Clone, Copy)]
struct SetWord {
    base: i64,
    count: u32,
}

/// The distance of a member of a set from a number.
#[derive(Clone, Copy)]
struct Distance {
    member: Operand,
    from: i64,
}

impl Distance {
    /// The operation that puts the distance into a temporary.
    fn into_temp(self, to: u32) -> MidOp<'static> {
        match self.member {
            Operand::Number(value) => MidOp::Number {
                to,
                value: value.wrapping_sub(self.from),
            },
            Operand::Temp(_) => {
                let from = Operand::Number(self.from);
                arith(to, WordOperator::Subtract, self.member, from)
            }
        }
    }
}

/// Sets combined word by word.
pub fn combine_words<'m>(
    b: &mut Builder<'m, '_>,
    operator: Operator,
    operands: Operands,
    target: Value,
    rest: Pending<'m>,
) -> Pending<'m> {
    let (left, right) = (operands.left.value, operands.right.value);
    let mut code = rest;
    for word in (0..count_of(target)).rev() {
        let (x, y) = (word_at(left, word), word_at(right, word));
        if let Operand::Temp(to) = word_at(target, word) {
            code = combine(b, operator, x, y, to, code);
        }
    }
    code
}

fn combine<'m>(
    b: &mut Builder<'m, '_>,
    operator: Operator,
    x: Operand,
    y: Operand,
    to: u32,
    rest: Pending<'m>,
) -> Pending<'m> {
    match operator {
        Operator::Union => rest.after(arith(to, WordOperator::Or, x, y)),
        Operator::Intersection => rest.after(arith(to, WordOperator::And, x, y)),
        Operator::SymmetricDifference => rest.after(arith(to, WordOperator::Xor, x, y)),
        Operator::Difference => {
            let others = b.temp(Kind::Number);
            let code = rest.after(arith(to, WordOperator::And, x, Operand::Temp(others)));
            code.after(arith(others, WordOperator::Xor, y, Operand::Number(-1)))
        }
        _ => rest,
    }
}

/// Whether the left operand is a member of the right one, a set: the bit of its place, and 0 for a
/// number outside the base, since a shift by 64 or more gives 0.
pub fn member_into<'m>(
    b: &mut Builder<'m, '_>,
    operands: Operands,
    target: Operand,
    rest: Pending<'m>,
) -> Pending<'m> {
    let to = match target {
        Operand::Temp(to) => to,
        Operand::Number(_) => return rest,
    };
    let (member, set) = (operands.left.value.word(), operands.right.value);
    let first = match operands.right.kind {
        Some(kind) => first_member(b, kind),
        None => 0,
    };
    let bits = b.temp(Kind::Number);
    let mut code = rest.after(arith(
        to,
        WordOperator::And,
        Operand::Temp(bits),
        Operand::Number(1),
    ));
    for word in (0..count_of(set)).rev() {
        let part = if word == 0 {
            bits
        } else {
            b.temp(Kind::Number)
        };
        if word > 0 {
            code = code.after(arith(
                bits,
                WordOperator::Or,
                Operand::Temp(bits),
                Operand::Temp(part),
            ));
        }
        let start = first.wrapping_add(i64::from(word).wrapping_mul(64));
        code = shifted_down(b, word_at(set, word), start, member, part, code);
    }
    code
}

/// A word shifted down by the distance of a member from a number.
fn shifted_down<'m>(
    b: &mut Builder<'m, '_>,
    word: Operand,
    start: i64,
    member: Operand,
    to: u32,
    rest: Pending<'m>,
) -> Pending<'m> {
    if let Operand::Number(value) = member {
        let by = Operand::Number(start.wrapping_sub(value));
        return rest.after(arith(to, WordOperator::Shift, word, by));
    }
    let by = b.temp(Kind::Number);
    let code = rest.after(arith(to, WordOperator::Shift, word, Operand::Temp(by)));
    code.after(arith(by, WordOperator::Subtract, Operand::Number(start), member))
}

/// Moves temporaries in a row to others from one on.
pub fn move_row<'m>(to: u32, from: TempRow, rest: Pending<'m>) -> Pending<'m> {
    let mut code = rest;
    for word in 0..from.count {
        code = code.after(MidOp::Move {
            to: to.wrapping_add(word),
            from: from.first.wrapping_add(word),
        });
    }
    code
}

/// Adds the bits of an element to each word of a set.
pub fn add_bits<'m>(
    b: &mut Builder<'m, '_>,
    planned: PlannedElement,
    start: i64,
    sum: TempRow,
    rest: Pending<'m>,
) -> Pending<'m> {
    let mut code = rest;
    for place in 0..sum.count {
        let bits = b.temp(Kind::Number);
        let to = sum.first.wrapping_add(place);
        code = code.after(arith(to, WordOperator::Or, Operand::Temp(to), Operand::Temp(bits)));
        let word = SetWord {
            base: start.wrapping_add(i64::from(place).wrapping_mul(64)),
            count: sum.count,
        };
        code = match planned.last {
            None => one_bit(b, planned.first, word, bits, code),
            Some(last) => range_bits(b, planned.first, last, word, bits, code),
        };
    }
    code
}

/// The bit of a member in a word; 0 where it is in another one.
fn one_bit<'m>(
    b: &mut Builder<'m, '_>,
    member: Operand,
    word: SetWord,
    to: u32,
    rest: Pending<'m>,
) -> Pending<'m> {
    let distance = Distance {
        member,
        from: word.base,
    };
    let by = b.temp(Kind::Number);
    let code = rest.after(arith(
        to,
        WordOperator::Shift,
        Operand::Number(1),
        Operand::Temp(by),
    ));
    code.after(distance.into_temp(by))
}

/// The bits from one member to another in a word: those that aren't before the first and aren't
/// behind the last.
fn range_bits<'m>(
    b: &mut Builder<'m, '_>,
    first: Operand,
    last: Operand,
    word: SetWord,
    to: u32,
    rest: Pending<'m>,
) -> Pending<'m> {
    let low = b.temp(Kind::Number);
    let high = b.temp(Kind::Number);
    let code = rest.after(arith(
        to,
        WordOperator::And,
        Operand::Temp(low),
        Operand::Temp(high),
    ));
    let from_last = Distance {
        member: last,
        from: word.base.wrapping_add(63),
    };
    let code = bounded_shift(b, from_last, Relation::Less, word.count, high, code);
    let from_first = Distance {
        member: first,
        from: word.base,
    };
    bounded_shift(b, from_first, Relation::LessEqual, word.count, low, code)
}

/// All ones, shifted by a distance; not shifted where the distance has the wrong sign, which it
/// hasn't in a set of one word.
fn bounded_shift<'m>(
    b: &mut Builder<'m, '_>,
    distance: Distance,
    relation: Relation,
    count: u32,
    to: u32,
    rest: Pending<'m>,
) -> Pending<'m> {
    let by = b.temp(Kind::Number);
    let code = rest.after(arith(
        to,
        WordOperator::Shift,
        Operand::Number(-1),
        Operand::Temp(by),
    ));
    if count == 1 {
        return code.after(distance.into_temp(by));
    }
    let is_right = b.temp(Kind::Number);
    let code = code.after(arith(
        by,
        WordOperator::Multiply,
        Operand::Temp(by),
        Operand::Temp(is_right),
    ));
    let (left, right) = match relation {
        Relation::Less => (Operand::Temp(by), Operand::Number(0)),
        _ => (Operand::Number(0), Operand::Temp(by)),
    };
    let code = code.after(MidOp::Compare {
        to: is_right,
        relation,
        left,
        right,
    });
    code.after(distance.into_temp(by))
}

/// Sets temporaries in a row to 0.
pub fn zero_temps<'m>(row: TempRow, rest: Pending<'m>) -> Pending<'m> {
    let mut code = rest;
    for word in 0..row.count {
        code = code.after(MidOp::Number {
            to: row.first.wrapping_add(word),
            value: 0,
        });
    }
    code
}
