use crate::exits::{Exits, Outcome, Returning};
use m3_lower_state::{Around, Builder, Location, Pending, Place, choice, store_word};
use m3_mid::{End, Kind, MemoryWord, MidOp, Operand, Raised, Relation};

/// How the body of a TRY FINALLY was left, as its number.
pub const NORMALLY: i64 = 0;

/// It was left by an exception.
pub const RAISED: i64 = 1;

/// It was left by EXIT.
pub const EXITED: i64 = 2;

/// It was left by RETURN.
pub const RETURNED: i64 = 3;

/// Notes how a body was left, and goes on at the last part.
pub fn left_as<'m>(b: &mut Builder<'m, '_>, way: u32, number: i64, finish: u32) -> Pending<'m> {
    b.goto(finish).after(MidOp::Number {
        to: way,
        value: number,
    })
}

/// Moves an exception from some temporaries to others.
pub fn move_raised<'m>(from: Raised, to: Raised, rest: Pending<'m>) -> Pending<'m> {
    rest.after(MidOp::Move {
        to: to.tidy,
        from: from.tidy,
    })
    .after(MidOp::Move {
        to: to.number,
        from: from.number,
    })
    .after(MidOp::Move {
        to: to.exception,
        from: from.exception,
    })
}

/// Makes the temporaries 0 that keep an exception where there is none.
pub fn forget_raised<'m>(kept: Raised, rest: Pending<'m>) -> Pending<'m> {
    rest.after(MidOp::Number {
        to: kept.tidy,
        value: 0,
    })
    .after(MidOp::Number {
        to: kept.number,
        value: 0,
    })
    .after(MidOp::Number {
        to: kept.exception,
        value: 0,
    })
}

/// Goes on as the body was left.
pub fn dispatch<'m>(
    b: &mut Builder<'m, '_>,
    exits: Exits,
    way: u32,
    kept: Raised,
    rest: Pending<'m>,
) -> Pending<'m> {
    let next = b.seal(rest);
    let raising = move_raised(kept, b.raised, b.goto(exits.around.raised));
    let raising = b.seal(raising);
    let returning = return_kept(b, exits);
    let returning = b.seal(returning);
    let others = match exits.exit {
        Some(exit) => {
            let code = test(b, way, RETURNED, returning, exit);
            b.seal(code)
        }
        None => returning,
    };
    let code = test(b, way, RAISED, raising, others);
    let abnormal = b.seal(code);
    test(b, way, NORMALLY, next, abnormal)
}

fn test<'m>(b: &mut Builder<'m, '_>, way: u32, number: i64, yes: u32, no: u32) -> Pending<'m> {
    choice(
        b,
        Relation::Equal,
        Operand::Temp(way),
        Operand::Number(number),
        yes,
        no,
    )
}

/// Goes on with a RETURN whose value is kept already.
fn return_kept<'m>(b: &mut Builder<'m, '_>, exits: Exits) -> Pending<'m> {
    match exits.returning {
        Returning::Passes(block) | Returning::Drops(block) => b.goto(block),
        Returning::Ends => {
            let value = match exits.outcome {
                Outcome::Word { temp, .. } => Some(Operand::Temp(temp)),
                Outcome::Nothing | Outcome::Wide { .. } => None,
            };
            Pending::bare(b.alloc, End::Return { value })
        }
    }
}

/// The exits of a last part: where it leaves otherwise than at its end, a result that waits at the
/// caller's address is given up, and its pointers are cleared.
pub fn overriding<'m>(b: &mut Builder<'m, '_>, exits: Exits) -> Exits {
    let Outcome::Wide { slot, kind } = exits.outcome else {
        return exits;
    };
    let pointers = match b.storage.shape(b.alloc, kind) {
        Ok(shape) => shape.pointers,
        Err(_) => {
            b.fail();
            return exits;
        }
    };
    if pointers.is_empty() {
        return exits;
    }
    let raised = b.goto(exits.around.raised);
    let raised = given_up(b, slot, pointers.as_slice(), raised);
    let raised = b.seal(raised);
    let exit = match exits.exit {
        Some(exit) => {
            let exit = b.goto(exit);
            let exit = given_up(b, slot, pointers.as_slice(), exit);
            Some(b.seal(exit))
        }
        None => None,
    };
    Exits {
        around: Around {
            raised,
            ..exits.around
        },
        exit,
        ..exits
    }
}

fn given_up<'m>(
    b: &mut Builder<'m, '_>,
    slot: u32,
    pointers: &[u64],
    rest: Pending<'m>,
) -> Pending<'m> {
    let address = b.temp(Kind::Number);
    let at = Place::plain(Location::Address {
        temp: address,
        offset: 0,
    });
    let mut code = rest;
    for pointer in pointers {
        code = store_word(b, at, *pointer, Operand::Number(0), code);
    }
    code.after(MidOp::Load {
        to: address,
        from: MemoryWord::Slot(slot),
    })
}
