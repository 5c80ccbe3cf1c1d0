use crate::builder::Builder;
use crate::pending::Pending;
use crate::places::{Location, Place, address_kind, load_word, set_temp, store_word, take_address};
use m3_lower_storage::word_number;
use m3_mid::{Kind, MemoryWord, MidOp, Operand};

/// How many words are copied one by one; more are copied as a row.
const ONE_BY_ONE: u64 = 4;

/// How many slots are cleared one by one.
const MOST_CLEARED: u32 = 16;

/// Loads words of a place into temporaries in a row.
pub fn load_words<'m>(
    b: &mut Builder<'m, '_>,
    first: u32,
    count: u32,
    place: Place,
    rest: Pending<'m>,
) -> Pending<'m> {
    let mut code = rest;
    for word in (0..count).rev() {
        code = load_word(b, first.wrapping_add(word), place, u64::from(word), code);
    }
    code
}

/// Stores temporaries in a row at a place.
pub fn store_words<'m>(
    b: &mut Builder<'m, '_>,
    place: Place,
    first: u32,
    count: u32,
    rest: Pending<'m>,
) -> Pending<'m> {
    let mut code = rest;
    for word in (0..count).rev() {
        let from = Operand::Temp(first.wrapping_add(word));
        code = store_word(b, place, u64::from(word), from, code);
    }
    code
}

/// Copies words from a place to another, as if all were read first.
pub fn copy_words<'m>(
    b: &mut Builder<'m, '_>,
    to: Place,
    from: Place,
    words: u64,
    rest: Pending<'m>,
) -> Pending<'m> {
    if words == 0 || to == from {
        return rest;
    }
    if words <= ONE_BY_ONE {
        return copy_one_by_one(b, to, from, word_number(words), rest);
    }
    copy_row(b, to, from, Operand::Number(words.cast_signed()), rest)
}

fn copy_one_by_one<'m>(
    b: &mut Builder<'m, '_>,
    to: Place,
    from: Place,
    words: u32,
    rest: Pending<'m>,
) -> Pending<'m> {
    let first = b.temps(Kind::Tidy, words);
    let code = store_words(b, to, first, words, rest);
    load_words(b, first, words, from, code)
}

/// Copies so many words as a row, as if all were read first.
pub fn copy_row<'m>(
    b: &mut Builder<'m, '_>,
    to: Place,
    from: Place,
    words: Operand,
    rest: Pending<'m>,
) -> Pending<'m> {
    let to_kind = address_kind(b, to);
    let from_kind = address_kind(b, from);
    let to_address = b.temp(to_kind);
    let from_address = b.temp(from_kind);
    let code = rest.after(MidOp::Copy {
        to_address,
        from_address,
        words,
    });
    let code = take_address(from_address, from, code);
    take_address(to_address, to, code)
}

/// Sets words of a place to 0.
pub fn zero_words<'m>(
    b: &mut Builder<'m, '_>,
    place: Place,
    words: u64,
    rest: Pending<'m>,
) -> Pending<'m> {
    if words <= 8 {
        return zero_one_by_one(b, place, words, rest);
    }
    let kind = address_kind(b, place);
    let at = b.temp(kind);
    let code = rest.after(MidOp::Fill {
        at,
        words: Operand::Number(words.cast_signed().wrapping_sub(1)),
        distance: Operand::Number(1),
    });
    let code = code.after(MidOp::Store {
        at: MemoryWord::At {
            base: at,
            offset: 0,
        },
        from: Operand::Number(0),
    });
    take_address(at, place, code)
}

fn zero_one_by_one<'m>(
    b: &mut Builder<'m, '_>,
    place: Place,
    words: u64,
    rest: Pending<'m>,
) -> Pending<'m> {
    let mut code = rest;
    for word in (0..words).rev() {
        code = store_word(b, place, word, Operand::Number(0), code);
    }
    code
}

/// Sets the slots of Kind Tidy from one to before another to 0.
pub fn clear<'m>(b: &mut Builder<'m, '_>, first: u32, end: u32, rest: Pending<'m>) -> Pending<'m> {
    if end.saturating_sub(first) > MOST_CLEARED {
        let place = Place::plain(Location::Slots(first));
        return zero_words(b, place, u64::from(end - first), rest);
    }
    let mut code = rest;
    for slot in first..end {
        if b.slot_kind(slot) == Kind::Tidy {
            code = code.after(MidOp::Store {
                at: MemoryWord::Slot(slot),
                from: Operand::Number(0),
            });
        }
    }
    code
}

/// Sets a temporary to a word of memory or of an operand.
pub fn set<'m>(to: u32, from: Operand, rest: Pending<'m>) -> Pending<'m> {
    match from {
        Operand::Temp(from) if from == to => rest,
        _ => rest.after(set_temp(to, from)),
    }
}

/// Whether a place is a row of slots of the own frame.
pub fn slots_of(place: Place) -> Option<u32> {
    match place.at {
        Location::Slots(first) => Some(first),
        Location::Temps(_) | Location::Globals(_) | Location::Address { .. } => None,
    }
}

/// Clears the slots of the value of which a place is a part, where slots hold it for a while:
/// nobody wants it any more.
pub fn cleared_value<'m>(b: &mut Builder<'m, '_>, place: Place, rest: Pending<'m>) -> Pending<'m> {
    match b.buffer_of(place) {
        Some(buffer) => clear(b, buffer.first, buffer.end, rest),
        None => rest,
    }
}
