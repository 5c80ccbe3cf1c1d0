use crate::operators::Operands;
use m3_core::{Compared, Relation as Comparison};
use m3_lower_arrays::{element_words, shape_of, total_words};
use m3_lower_state::{
    Builder, Pending, Place, Value, address_kind, arith, choice, cleared_value, compare,
    take_address,
};
use m3_mid::{Kind, MidOp, Operand, Relation, WordOperator};

/// A comparison of numbers as a relation, with its operands in their order.
pub fn ordered(
    comparison: Comparison,
    left: Operand,
    right: Operand,
) -> (Relation, Operand, Operand) {
    match comparison {
        Comparison::Equal => (Relation::Equal, left, right),
        Comparison::NotEqual => (Relation::NotEqual, left, right),
        Comparison::Less => (Relation::Less, left, right),
        Comparison::LessEqual => (Relation::LessEqual, left, right),
        Comparison::Greater => (Relation::Less, right, left),
        Comparison::GreaterEqual => (Relation::LessEqual, right, left),
    }
}

/// Puts 1 or 0 into a temporary, by a comparison of two values.
pub fn compare_into<'m>(
    b: &mut Builder<'m, '_>,
    comparison: Comparison,
    compared: Compared,
    operands: Operands,
    target: Operand,
    rest: Pending<'m>,
) -> Pending<'m> {
    let to = match target {
        Operand::Temp(to) => to,
        Operand::Number(_) => return rest,
    };
    match compared {
        Compared::Ordinals | Compared::References => {
            let (left, right) = (operands.left.value.word(), operands.right.value.word());
            let (relation, x, y) = ordered(comparison, left, right);
            rest.after(compare(to, relation, x, y))
        }
        Compared::Sets => compare_sets(b, comparison, operands, to, rest),
        Compared::Procedures => compare_procedures(b, comparison, operands, to, rest),
        Compared::Structures => compare_places(b, comparison, operands, to, rest),
    }
}

/// The operand of a word of a value in temporaries.
pub fn word_at(value: Value, word: u32) -> Operand {
    match value {
        Value::Words { first, .. } => Operand::Temp(first.wrapping_add(word)),
        _ => value.word(),
    }
}

/// How many words a value in temporaries has.
pub fn count_of(value: Value) -> u32 {
    match value {
        Value::Words { count, .. } => count,
        _ => 1,
    }
}

fn negation(comparison: Comparison) -> bool {
    comparison == Comparison::NotEqual
}

/// Sets are equal, or one is in the other, or in it and not equal.
fn compare_sets<'m>(
    b: &mut Builder<'m, '_>,
    comparison: Comparison,
    operands: Operands,
    to: u32,
    rest: Pending<'m>,
) -> Pending<'m> {
    match comparison {
        Comparison::Equal | Comparison::NotEqual => {
            let differing = b.temp(Kind::Number);
            let code = rest.after(zero_test(to, differing, negation(comparison)));
            gather(b, operands, false, differing, code)
        }
        Comparison::LessEqual => within(b, operands, to, rest),
        Comparison::GreaterEqual => within(b, operands.swapped(), to, rest),
        Comparison::Less => properly_within(b, operands, to, rest),
        Comparison::Greater => properly_within(b, operands.swapped(), to, rest),
    }
}

fn zero_test(to: u32, from: u32, is_negated: bool) -> MidOp<'static> {
    let relation = if is_negated {
        Relation::NotEqual
    } else {
        Relation::Equal
    };
    compare(to, relation, Operand::Temp(from), Operand::Number(0))
}

/// Whether the left set is in the right one.
fn within<'m>(
    b: &mut Builder<'m, '_>,
    operands: Operands,
    to: u32,
    rest: Pending<'m>,
) -> Pending<'m> {
    let outside = b.temp(Kind::Number);
    let code = rest.after(zero_test(to, outside, false));
    gather(b, operands, true, outside, code)
}

fn properly_within<'m>(
    b: &mut Builder<'m, '_>,
    operands: Operands,
    to: u32,
    rest: Pending<'m>,
) -> Pending<'m> {
    let is_within = b.temp(Kind::Number);
    let differs = b.temp(Kind::Number);
    let differing = b.temp(Kind::Number);
    let code = rest.after(arith(
        to,
        WordOperator::And,
        Operand::Temp(is_within),
        Operand::Temp(differs),
    ));
    let code = code.after(zero_test(differs, differing, true));
    let code = gather(b, operands, false, differing, code);
    within(b, operands, is_within, code)
}

/// The bits in which two sets differ, or that are in the left one alone, of all words together.
fn gather<'m>(
    b: &mut Builder<'m, '_>,
    operands: Operands,
    is_one_sided: bool,
    to: u32,
    rest: Pending<'m>,
) -> Pending<'m> {
    let (left, right) = (operands.left.value, operands.right.value);
    let mut code = rest;
    for word in (0..count_of(left)).rev() {
        let target = if word == 0 { to } else { b.temp(Kind::Number) };
        if word > 0 {
            code = code.after(arith(
                to,
                WordOperator::Or,
                Operand::Temp(to),
                Operand::Temp(target),
            ));
        }
        let (x, y) = (word_at(left, word), word_at(right, word));
        code = differing(b, x, y, is_one_sided, target, code);
    }
    code
}

fn differing<'m>(
    b: &mut Builder<'m, '_>,
    x: Operand,
    y: Operand,
    is_one_sided: bool,
    to: u32,
    rest: Pending<'m>,
) -> Pending<'m> {
    if !is_one_sided {
        return rest.after(arith(to, WordOperator::Xor, x, y));
    }
    let others = b.temp(Kind::Number);
    let code = rest.after(arith(to, WordOperator::And, x, Operand::Temp(others)));
    code.after(arith(others, WordOperator::Xor, y, Operand::Number(-1)))
}

fn compare_procedures<'m>(
    b: &mut Builder<'m, '_>,
    comparison: Comparison,
    operands: Operands,
    to: u32,
    rest: Pending<'m>,
) -> Pending<'m> {
    let differing = b.temp(Kind::Number);
    let code = rest.after(zero_test(to, differing, negation(comparison)));
    gather(b, operands, false, differing, code)
}

/// Arrays of unequal shape are unequal; else all words are compared.
fn compare_places<'m>(
    b: &mut Builder<'m, '_>,
    comparison: Comparison,
    operands: Operands,
    to: u32,
    rest: Pending<'m>,
) -> Pending<'m> {
    let is_negated = negation(comparison);
    let (x, y) = (operands.left.value.place(), operands.right.value.place());
    let code = cleared_value(b, x, rest);
    let code = cleared_value(b, y, code);
    let dims = x.dims.max(y.dims);
    if dims == 0 {
        let words = match operands.left.kind {
            Some(kind) => b.storage.words(kind),
            None => 0,
        };
        let words = Operand::Number(words.cast_signed());
        return compare_words(b, operands, words, is_negated, to, code);
    }
    let (Some(left_kind), Some(right_kind)) = (operands.left.kind, operands.right.kind) else {
        return code;
    };
    let join = b.seal(code);
    let unequal = b.goto(join).after(MidOp::Number {
        to,
        value: i64::from(is_negated),
    });
    let unequal = b.seal(unequal);
    let lefts = shape_of(b, x, left_kind, dims);
    let rights = shape_of(b, y, right_kind, dims);
    let element = element_words(b, left_kind, dims);
    let (words, counting) = total_words(b, lefts.as_slice(), element);
    let code = b.goto(join);
    let code = compare_words(b, operands, words, is_negated, to, code);
    let code = counting.put(code);
    compare_shapes(b, lefts.as_slice(), rights.as_slice(), unequal, code)
}

/// Goes on where two shapes are equal, and else at a block.
fn compare_shapes<'m>(
    b: &mut Builder<'m, '_>,
    lefts: &[Operand],
    rights: &[Operand],
    unequal: u32,
    rest: Pending<'m>,
) -> Pending<'m> {
    let mut code = rest;
    for (place, left) in lefts.iter().enumerate() {
        if let Some(right) = rights.get(place) {
            let next = b.seal(code);
            code = choice(b, Relation::Equal, *left, *right, next, unequal);
        }
    }
    code
}

fn compare_words<'m>(
    b: &mut Builder<'m, '_>,
    operands: Operands,
    words: Operand,
    is_negated: bool,
    to: u32,
    rest: Pending<'m>,
) -> Pending<'m> {
    let (x, y) = (operands.left.value.place(), operands.right.value.place());
    let left = temp_for_address(b, x);
    let right = temp_for_address(b, y);
    let equal = if is_negated { b.temp(Kind::Number) } else { to };
    let code = if is_negated {
        rest.after(zero_test(to, equal, false))
    } else {
        rest
    };
    let code = code.after(MidOp::EqualWords {
        to: equal,
        left,
        right,
        words,
    });
    let code = take_address(right, y, code);
    take_address(left, x, code)
}

fn temp_for_address(b: &mut Builder, place: Place) -> u32 {
    let kind = address_kind(b, place);
    b.temp(kind)
}
