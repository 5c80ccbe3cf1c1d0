use m3_core::CoreExpr;
use m3_lower_actuals::plan_value;
use m3_lower_exits::{Exits, Outcome, Returning, is_reference_word};
use m3_lower_expr::{emit_value, fetch, into_temps};
use m3_lower_places::source;
use m3_lower_state::{
    Builder, Location, Pending, Place, cleared_value, copy_words, form_of, kind_of, load_word, set,
    set_temp, store_words,
};
use m3_lower_storage::Form;
use m3_mid::{End, Kind, MemoryWord, MidOp, Operand};
use m3_types::TypeId;

/// RAISE: the argument, and then the exception travels.
pub fn raise<'m>(
    b: &mut Builder<'m, '_>,
    exits: Exits,
    exception: u32,
    argument: Option<&CoreExpr>,
) -> Pending<'m> {
    let travels = b.raised;
    let code = b.goto(exits.around.raised).after(MidOp::Number {
        to: travels.exception,
        value: i64::from(exception).wrapping_add(1),
    });
    let Some(argument) = argument else {
        return with_argument(b, Operand::Number(0), false, code);
    };
    let (operand, is_tidy) = argument_of(b, argument);
    let code = with_argument(b, operand, is_tidy, code);
    word_of(b, exits, argument, operand, code)
}

/// The operand for the argument of an exception, and whether it is a reference.
fn argument_of(b: &mut Builder, argument: &CoreExpr) -> (Operand, bool) {
    match form_of(b, argument) {
        Form::Number => (source(b, argument), false),
        Form::Reference => (source(b, argument), true),
        _ => {
            let is_tidy = match kind_of(argument) {
                Some(kind) => is_reference_word(b, kind),
                None => false,
            };
            let kind = if is_tidy { Kind::Tidy } else { Kind::Number };
            (Operand::Temp(b.temp(kind)), is_tidy)
        }
    }
}

fn with_argument<'m>(
    b: &mut Builder<'m, '_>,
    argument: Operand,
    is_tidy: bool,
    rest: Pending<'m>,
) -> Pending<'m> {
    let travels = b.raised;
    let zero = Operand::Number(0);
    let (number, tidy) = if is_tidy {
        (zero, argument)
    } else {
        (argument, zero)
    };
    rest.after(set_temp(travels.tidy, tidy))
        .after(set_temp(travels.number, number))
}

/// Code that puts a value of one word, a record or array too, where it is wanted.
fn word_of<'m>(
    b: &mut Builder<'m, '_>,
    exits: Exits,
    e: &CoreExpr,
    operand: Operand,
    rest: Pending<'m>,
) -> Pending<'m> {
    match (form_of(b, e), operand) {
        (Form::Structure(1), Operand::Temp(to)) => {
            let planned = plan_value(b, e);
            let place = planned.place();
            let code = cleared_value(b, place, rest);
            let code = load_word(b, to, place, 0, code);
            emit_value(b, exits.around, e, planned, code)
        }
        (Form::Number | Form::Reference, _) => fetch(b, exits.around, e, operand, rest),
        _ => {
            let planned = plan_value(b, e);
            emit_value(b, exits.around, e, planned, rest)
        }
    }
}

/// The way out of a body, which ends with a value where nothing is left to be done behind it.
fn way_out<'m>(
    b: &mut Builder<'m, '_>,
    returning: Returning,
    value: Option<Operand>,
) -> Pending<'m> {
    match returning {
        Returning::Ends => Pending::bare(b.alloc, End::Return { value }),
        Returning::Passes(block) | Returning::Drops(block) => b.goto(block),
    }
}

/// Whether the value of RETURN is of no use.
fn is_dropped(returning: Returning) -> bool {
    match returning {
        Returning::Drops(_) => true,
        _ => false,
    }
}

/// RETURN of a value that is of no use: it is evaluated all the same.
fn return_dropped<'m>(b: &mut Builder<'m, '_>, exits: Exits, value: &CoreExpr) -> Pending<'m> {
    let planned = plan_value(b, value);
    let code = way_out(b, exits.returning, None);
    emit_value(b, exits.around, value, planned, code)
}

/// RETURN of a word, which waits in a temporary where something is left to be done.
fn return_word<'m>(
    b: &mut Builder<'m, '_>,
    exits: Exits,
    value: &CoreExpr,
    temp: u32,
) -> Pending<'m> {
    let operand = word_source(b, value);
    let code = way_out(b, exits.returning, Some(operand));
    let code = match exits.returning {
        Returning::Ends => code,
        _ => set(temp, operand, code),
    };
    word_of(b, exits, value, operand, code)
}

/// RETURN: the value, and then the way out.
pub fn return_value<'m>(
    b: &mut Builder<'m, '_>,
    exits: Exits,
    value: Option<&CoreExpr>,
) -> Pending<'m> {
    let Some(value) = value else {
        return way_out(b, exits.returning, None);
    };
    if is_dropped(exits.returning) {
        return return_dropped(b, exits, value);
    }
    match exits.outcome {
        Outcome::Wide { slot, kind } => {
            let code = way_out(b, exits.returning, None);
            wide_result(b, exits, slot, kind, value, code)
        }
        Outcome::Word { temp, .. } => return_word(b, exits, value, temp),
        Outcome::Nothing => return_dropped(b, exits, value),
    }
}

fn word_source(b: &mut Builder, value: &CoreExpr) -> Operand {
    match form_of(b, value) {
        Form::Number | Form::Reference => source(b, value),
        _ => {
            let (operand, _) = argument_of(b, value);
            operand
        }
    }
}

/// Stores a result at the address that the caller gave.
fn wide_result<'m>(
    b: &mut Builder<'m, '_>,
    exits: Exits,
    slot: u32,
    kind: TypeId,
    value: &CoreExpr,
    rest: Pending<'m>,
) -> Pending<'m> {
    let address = b.temp(Kind::Number);
    let to = Place::plain(Location::Address {
        temp: address,
        offset: 0,
    });
    let loaded = MidOp::Load {
        to: address,
        from: MemoryWord::Slot(slot),
    };
    if let Form::Numbers(count) = b.storage.form(kind) {
        let first = b.temps(Kind::Number, count);
        let code = store_words(b, to, first, count, rest).after(loaded);
        return into_temps(b, exits.around, value, first, code);
    }
    let planned = plan_value(b, value);
    let words = b.storage.words(kind);
    let from = planned.place().without_sizes();
    let code = copy_words(b, to, from, words, rest).after(loaded);
    emit_value(b, exits.around, value, planned, code)
}
