use crate::builder::Builder;
use crate::pending::Pending;
use m3_lower_storage::word_number;
use m3_mid::{Kind, MemoryWord, MidOp, Operand, WordOperator};

/// Where words are, as far as it is known before the program runs.
#[derive(Clone, Copy, PartialEq, Eq)]
pub enum Location {
    /// In temporaries in a row.
    Temps(u32),
    /// In slots of the own frame in a row.
    Slots(u32),
    /// In words of the globals in a row.
    Globals(u32),
    /// At an address in a temporary, plus a number.
    Address { temp: u32, offset: i64 },
}

/// A place: a variable or a part of one, with what its address was made from, and the sizes of an
/// open array.
#[derive(Clone, Copy, PartialEq, Eq)]
pub struct Place {
    pub at: Location,
    /// The tidy pointer from which an address in the heap is made, or 0.
    pub base: Operand,
    /// The place of the first size among those that the builder keeps, and how many there are.
    pub sizes: u32,
    pub dims: u32,
}

impl Place {
    /// A place with no base and no sizes.
    pub fn plain(at: Location) -> Place {
        Place {
            at,
            base: Operand::Number(0),
            sizes: 0,
            dims: 0,
        }
    }

    /// The place that begins so many words further on.
    pub fn further(self, words: u64) -> Place {
        let by = words.cast_signed();
        let at = match self.at {
            Location::Temps(first) => Location::Temps(first.wrapping_add(word_number(words))),
            Location::Slots(first) => Location::Slots(first.wrapping_add(word_number(words))),
            Location::Globals(first) => Location::Globals(first.wrapping_add(word_number(words))),
            Location::Address { temp, offset } => Location::Address {
                temp,
                offset: offset.wrapping_add(by),
            },
        };
        Place { at, ..self }
    }

    /// The place as a fixed one, of which the sizes aren't told.
    pub fn without_sizes(self) -> Place {
        Place {
            sizes: 0,
            dims: 0,
            ..self
        }
    }
}

/// Loads the word at an address and an offset. An offset that no instruction holds is added first.
pub fn load_at<'m>(
    b: &mut Builder<'m, '_>,
    to: u32,
    base: u32,
    offset: i64,
    rest: Pending<'m>,
) -> Pending<'m> {
    match i32::try_from(offset) {
        Ok(offset) => rest.after(MidOp::Load {
            to,
            from: MemoryWord::At { base, offset },
        }),
        Err(_) => {
            let sum = b.temp(Kind::Address);
            let rest = rest.after(MidOp::Load {
                to,
                from: MemoryWord::At {
                    base: sum,
                    offset: 0,
                },
            });
            rest.after(added(sum, base, offset))
        }
    }
}

/// Stores a word at an address and an offset.
fn store_at<'m>(
    b: &mut Builder<'m, '_>,
    base: u32,
    offset: i64,
    from: Operand,
    rest: Pending<'m>,
) -> Pending<'m> {
    match i32::try_from(offset) {
        Ok(offset) => rest.after(MidOp::Store {
            at: MemoryWord::At { base, offset },
            from,
        }),
        Err(_) => {
            let sum = b.temp(Kind::Address);
            let rest = rest.after(MidOp::Store {
                at: MemoryWord::At {
                    base: sum,
                    offset: 0,
                },
                from,
            });
            rest.after(added(sum, base, offset))
        }
    }
}

/// A sum of an address and a number.
pub fn added(to: u32, base: u32, offset: i64) -> MidOp<'static> {
    MidOp::Arith {
        to,
        operator: WordOperator::Add,
        left: Operand::Temp(base),
        right: Operand::Number(offset),
    }
}

/// Loads the word of a place, so many words from its start.
pub fn load_word<'m>(
    b: &mut Builder<'m, '_>,
    to: u32,
    place: Place,
    word: u64,
    rest: Pending<'m>,
) -> Pending<'m> {
    match place.further(word).at {
        Location::Temps(from) => rest.after(MidOp::Move { to, from }),
        Location::Slots(slot) => rest.after(MidOp::Load {
            to,
            from: MemoryWord::Slot(slot),
        }),
        Location::Globals(word) => rest.after(MidOp::Load {
            to,
            from: MemoryWord::Global(word),
        }),
        Location::Address { temp, offset } => load_at(b, to, temp, offset, rest),
    }
}

/// Stores a word at a place, so many words from its start.
pub fn store_word<'m>(
    b: &mut Builder<'m, '_>,
    place: Place,
    word: u64,
    from: Operand,
    rest: Pending<'m>,
) -> Pending<'m> {
    match place.further(word).at {
        Location::Temps(to) => rest.after(set_temp(to, from)),
        Location::Slots(slot) => rest.after(MidOp::Store {
            at: MemoryWord::Slot(slot),
            from,
        }),
        Location::Globals(word) => rest.after(MidOp::Store {
            at: MemoryWord::Global(word),
            from,
        }),
        Location::Address { temp, offset } => store_at(b, temp, offset, from, rest),
    }
}

/// Sets a temporary to an operand.
pub fn set_temp(to: u32, from: Operand) -> MidOp<'static> {
    match from {
        Operand::Temp(from) => MidOp::Move { to, from },
        Operand::Number(value) => MidOp::Number { to, value },
    }
}

/// The kind of an address of a place: in the heap it is made from a tidy pointer.
pub fn address_kind(b: &Builder, place: Place) -> Kind {
    match place.at {
        Location::Address { temp, .. } => match b.kind(temp) {
            Kind::Number => Kind::Number,
            Kind::Tidy | Kind::Address => Kind::Address,
        },
        Location::Temps(_) | Location::Slots(_) | Location::Globals(_) => Kind::Number,
    }
}

/// Puts the address of a place into a temporary.
pub fn take_address<'m>(to: u32, place: Place, rest: Pending<'m>) -> Pending<'m> {
    match place.at {
        Location::Temps(from) => rest.after(MidOp::Move { to, from }),
        Location::Slots(slot) => rest.after(MidOp::SlotAddress { to, slot }),
        Location::Globals(word) => rest.after(MidOp::GlobalAddress { to, word }),
        Location::Address { temp, offset } => {
            if offset == 0 {
                rest.after(MidOp::Move { to, from: temp })
            } else {
                rest.after(added(to, temp, offset))
            }
        }
    }
}

/// A temporary for the address of a place and an offset to it: the temporary of the place itself
/// where it has one.
pub fn address_of<'m>(b: &mut Builder<'m, '_>, place: Place) -> (u32, i64, bool) {
    match place.at {
        Location::Address { temp, offset } => (temp, offset, true),
        Location::Temps(_) | Location::Slots(_) | Location::Globals(_) => {
            let temp = b.temp(Kind::Number);
            (temp, 0, false)
        }
    }
}
