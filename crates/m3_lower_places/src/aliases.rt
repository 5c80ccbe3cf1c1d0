use crate::frames::frame_of;
use m3_core::VarKind;
use m3_lower_arrays::{dims_of, new_sizes};
use m3_lower_state::{Builder, Location, Pending, Place, load_at, load_word};
use m3_lower_storage::VarPlace;
use m3_mid::{Kind, MemoryWord, MidOp, Operand, WordOperator};
use m3_types::TypeId;

/// What an alias stands for: an address, its base, and sizes.
pub fn plan_alias(b: &mut Builder, level: u32, variable: u32, kind: TypeId) -> Place {
    let owner = b.storage.owner(b.number, level);
    let dims = dims_of(b, kind);
    if let (true, VarPlace::Temps(first)) = (level == b.level, b.storage.place(owner, variable)) {
        return alias_in_temps(b, first, dims);
    }
    let address = b.temp(Kind::Address);
    let base = b.temp(Kind::Tidy);
    Place {
        at: Location::Address {
            temp: address,
            offset: 0,
        },
        base: Operand::Temp(base),
        sizes: new_sizes(b, dims),
        dims,
    }
}

/// An alias in temporaries: the address, the base, and the sizes behind them.
pub fn alias_in_temps(b: &mut Builder, first: u32, dims: u32) -> Place {
    let sizes = b.next_size();
    for dim in 0..dims {
        b.size(Operand::Temp(first.wrapping_add(2).wrapping_add(dim)));
    }
    Place {
        at: Location::Address {
            temp: first,
            offset: 0,
        },
        base: Operand::Temp(first.wrapping_add(1)),
        sizes,
        dims,
    }
}

/// Code that loads what an alias stands for, where slots hold it.
pub fn emit_alias<'m>(
    b: &mut Builder<'m, '_>,
    level: u32,
    variable: u32,
    place: Place,
    rest: Pending<'m>,
) -> Pending<'m> {
    let owner = b.storage.owner(b.number, level);
    let is_own = level == b.level;
    let VarPlace::Slots(slot) = b.storage.place(owner, variable) else {
        return rest;
    };
    let is_formal = matches!(
        b.storage.kind_of_variable(owner, variable),
        Some(VarKind::ByVar(_) | VarKind::ByReadonly(_))
    );
    let (address, base) = address_and_base(place);
    if is_own {
        let at = Place::plain(Location::Slots(slot));
        let code = load_slot_sizes(b, slot, place, rest);
        if is_formal {
            let code = load_word(b, base, at, 1, code);
            return load_word(b, address, at, 0, code);
        }
        return alias_from(b, at, address, base, code);
    }
    let frame = b.temp(Kind::Number);
    let word = i64::from(slot).wrapping_add(3);
    let at = Place::plain(Location::Address {
        temp: frame,
        offset: word,
    });
    let code = load_sizes(b, frame, word.wrapping_add(2), place, rest);
    let code = if is_formal {
        formal_from(b, at, address, base, code)
    } else {
        alias_from(b, at, address, base, code)
    };
    frame_of(b, level, frame, code)
}

fn address_and_base(place: Place) -> (u32, u32) {
    let address = match place.at {
        Location::Address { temp, .. } => temp,
        Location::Temps(_) | Location::Slots(_) | Location::Globals(_) => 0,
    };
    match place.base {
        Operand::Temp(base) => (address, base),
        Operand::Number(_) => (address, 0),
    }
}

/// Loads the sizes of an open array from words in a row at an address.
pub fn load_sizes<'m>(
    b: &mut Builder<'m, '_>,
    at: u32,
    offset: i64,
    place: Place,
    rest: Pending<'m>,
) -> Pending<'m> {
    let mut code = rest;
    for dim in (0..place.dims).rev() {
        if let Operand::Temp(to) = b.size_at(place.sizes.wrapping_add(dim)) {
            let word = offset.wrapping_add(i64::from(dim));
            code = load_at(b, to, at, word, code);
        }
    }
    code
}

fn load_slot_sizes<'m>(
    b: &mut Builder<'m, '_>,
    slot: u32,
    place: Place,
    rest: Pending<'m>,
) -> Pending<'m> {
    let mut code = rest;
    for dim in (0..place.dims).rev() {
        if let Operand::Temp(to) = b.size_at(place.sizes.wrapping_add(dim)) {
            code = code.after(MidOp::Load {
                to,
                from: MemoryWord::Slot(slot.wrapping_add(2).wrapping_add(dim)),
            });
        }
    }
    code
}

/// An alias that slots hold: the base, and the distance from it to the address.
fn alias_from<'m>(
    b: &mut Builder<'m, '_>,
    at: Place,
    address: u32,
    base: u32,
    rest: Pending<'m>,
) -> Pending<'m> {
    let distance = b.temp(Kind::Number);
    let code = rest.after(MidOp::Arith {
        to: address,
        operator: WordOperator::Add,
        left: Operand::Temp(base),
        right: Operand::Temp(distance),
    });
    let code = load_word(b, distance, at, 1, code);
    load_word(b, base, at, 0, code)
}

/// A formal by reference of an outer procedure: its address made anew from its base.
fn formal_from<'m>(
    b: &mut Builder<'m, '_>,
    at: Place,
    address: u32,
    base: u32,
    rest: Pending<'m>,
) -> Pending<'m> {
    let raw = b.temp(Kind::Number);
    let distance = b.temp(Kind::Number);
    let code = rest.after(MidOp::Arith {
        to: address,
        operator: WordOperator::Add,
        left: Operand::Temp(base),
        right: Operand::Temp(distance),
    });
    let code = code.after(MidOp::Arith {
        to: distance,
        operator: WordOperator::Subtract,
        left: Operand::Temp(raw),
        right: Operand::Temp(base),
    });
    let code = load_word(b, base, at, 1, code);
    load_word(b, raw, at, 0, code)
}
