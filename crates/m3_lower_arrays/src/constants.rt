use m3_core::{Value as Constant, ValueId};
use m3_lower_state::{Builder, Pending};
use m3_lower_storage::Form;
use m3_mid::MidOp;
use m3_types::{TypeId, TypeNode};

/// A word of a constant set: the bits of its members from 64 times the word on.
pub fn set_word(b: &Builder, kind: TypeId, value: ValueId, word: u32) -> i64 {
    let start = first_member(b, kind).wrapping_add(i64::from(word).wrapping_mul(64));
    let members = match b.storage.values.get(value.0 as usize) {
        Some(Constant::Set(members)) => *members,
        Some(Constant::Number(number)) => return *number,
        _ => return 0,
    };
    let mut bits = 0u64;
    for member in members {
        let place = member.wrapping_sub(start);
        bits |= bit_of(place);
    }
    bits.cast_signed()
}

/// The bit at a place of a word, and 0 outside it.
fn bit_of(place: i64) -> u64 {
    match u32::try_from(place) {
        Ok(place) if place < 64 => 1u64.wrapping_shl(place),
        _ => 0,
    }
}

/// Puts a constant of several words, a set, into temporaries in a row.
pub fn constant_words<'m>(
    b: &Builder<'m, '_>,
    kind: TypeId,
    value: ValueId,
    first: u32,
    rest: Pending<'m>,
) -> Pending<'m> {
    let count = match b.storage.form(kind) {
        Form::Numbers(count) => count,
        _ => 1,
    };
    let mut code = rest;
    for word in 0..count {
        code = code.after(MidOp::Number {
            to: first.wrapping_add(word),
            value: set_word(b, kind, value, word),
        });
    }
    code
}

/// The number of the first value in a set type's base.
pub fn first_member(b: &Builder, kind: TypeId) -> i64 {
    match b.storage.node(kind) {
        TypeNode::SetOf(base) => b.storage.bounds(base).0,
        _ => 0,
    }
}

/// What a procedure value has for a procedure: its number in the image, which is 2 above that in
/// the program, and 1 more.
pub fn code_of(procedure: u32) -> i64 {
    i64::from(procedure).wrapping_add(3)
}
