use m3_base::Pos;
use m3_core::{Chain, CoreExpr};
use m3_lower_actuals::{plan_chain, plan_structure, plan_value};
use m3_lower_arrays::{check_equal, check_shape, element_words, shape_of, total_words};
use m3_lower_exits::Exits;
use m3_lower_expr::{emit_chain, emit_structure, emit_value, fetch, into_temp, into_temps};
use m3_lower_operators::in_range;
use m3_lower_places::{ready, source};
use m3_lower_state::{
    Builder, Location, Pending, Place, Value, cleared_value, copy_row, copy_words, kind_of,
    load_word, set, store_word, store_words,
};
use m3_lower_storage::Form;
use m3_mid::{CheckedOperator, Kind, MidOp, Operand};
use m3_types::TypeId;

/// What is assigned to: its place, its type, and whether the value is checked for its shape.
#[derive(Clone, Copy)]
struct Target {
    to: Place,
    kind: TypeId,
    checks_shape: bool,
}

/// INC or DEC, with its place.
#[derive(Clone, Copy)]
pub struct Adjustment {
    pub pos: Pos,
    pub is_decrement: bool,
}

/// An assignment: the target's place, the value with its checks, and the write.
pub fn assign<'m>(
    b: &mut Builder<'m, '_>,
    exits: Exits,
    target: &Chain,
    value: &CoreExpr,
    checks_shape: bool,
    rest: Pending<'m>,
) -> Pending<'m> {
    let to = plan_chain(b, target).place();
    let code = match target.kind {
        Some(kind) => {
            let target = Target {
                to,
                kind,
                checks_shape,
            };
            assigned(b, exits, target, value, rest)
        }
        None => rest,
    };
    emit_chain(b, exits.around, target, code)
}

fn assigned<'m>(
    b: &mut Builder<'m, '_>,
    exits: Exits,
    target: Target,
    value: &CoreExpr,
    rest: Pending<'m>,
) -> Pending<'m> {
    let to = target.to;
    match (b.storage.form(target.kind), to.at) {
        (Form::Number | Form::Reference, Location::Temps(temp)) => {
            word_into(b, exits, value, temp, rest)
        }
        (Form::Number | Form::Reference, _) => {
            let operand = source(b, value);
            let code = store_word(b, to, 0, operand, rest);
            fetch(b, exits.around, value, operand, code)
        }
        (Form::Numbers(_), Location::Temps(first)) => {
            into_temps(b, exits.around, value, first, rest)
        }
        (Form::Numbers(count), _) => {
            let first = b.temps(Kind::Number, count);
            let code = store_words(b, to, first, count, rest);
            into_temps(b, exits.around, value, first, code)
        }
        (Form::Structure(words), _) => structure_to(b, exits, target, value, words, rest),
        (Form::Open, _) => open_to(b, exits, target, value, rest),
    }
}

/// Puts a word into the temporary of a variable.
pub fn word_into<'m>(
    b: &mut Builder<'m, '_>,
    exits: Exits,
    value: &CoreExpr,
    to: u32,
    rest: Pending<'m>,
) -> Pending<'m> {
    let operand = ready(b, value);
    match operand {
        Some(operand) => set(to, operand, rest),
        None => into_temp(b, exits.around, value, to, rest),
    }
}

fn structure_to<'m>(
    b: &mut Builder<'m, '_>,
    exits: Exits,
    target: Target,
    value: &CoreExpr,
    words: u64,
    rest: Pending<'m>,
) -> Pending<'m> {
    let from = plan_structure(b, value);
    let from_kind = kind_of(value);
    let code = cleared_value(b, from, rest);
    let code = copy_words(b, target.to, from.without_sizes(), words, code);
    let code = if target.checks_shape {
        check_shape(b, value.pos(), target.kind, from_kind, from, code)
    } else {
        code
    };
    emit_structure(b, exits.around, value, from, code)
}

/// An open array is written whole, by an array of its shape.
fn open_to<'m>(
    b: &mut Builder<'m, '_>,
    exits: Exits,
    target: Target,
    value: &CoreExpr,
    rest: Pending<'m>,
) -> Pending<'m> {
    let Target { to, kind, .. } = target;
    let from = plan_structure(b, value);
    let from_kind = match kind_of(value) {
        Some(kind) => kind,
        None => kind,
    };
    let dims = to.dims.max(from.dims);
    let wanted = shape_of(b, to, kind, dims);
    let found = shape_of(b, from, from_kind, dims);
    let element = element_words(b, kind, dims);
    let (words, counting) = total_words(b, wanted.as_slice(), element);
    let code = copy_row(b, to, from, words, rest);
    let code = counting.put(code);
    let code = if target.checks_shape {
        check_equal(value.pos(), wanted.as_slice(), found.as_slice(), code)
    } else {
        code
    };
    emit_structure(b, exits.around, value, from, code)
}

/// INC and DEC: the place, the amount, the sum with its checks, and the write.
pub fn change<'m>(
    b: &mut Builder<'m, '_>,
    exits: Exits,
    adjustment: Adjustment,
    target: &Chain,
    amount: Option<&CoreExpr>,
    rest: Pending<'m>,
) -> Pending<'m> {
    let place = plan_chain(b, target).place();
    let by = match amount {
        Some(amount) => source(b, amount),
        None => Operand::Number(1),
    };
    let code = changed(b, adjustment, target.kind, place, by, rest);
    let code = match amount {
        Some(amount) => fetch(b, exits.around, amount, by, code),
        None => code,
    };
    emit_chain(b, exits.around, target, code)
}

fn changed<'m>(
    b: &mut Builder<'m, '_>,
    adjustment: Adjustment,
    kind: Option<TypeId>,
    place: Place,
    by: Operand,
    rest: Pending<'m>,
) -> Pending<'m> {
    let Adjustment { pos, is_decrement } = adjustment;
    let operator = if is_decrement {
        CheckedOperator::Subtract
    } else {
        CheckedOperator::Add
    };
    let is_whole = match kind {
        Some(kind) => b.storage.bounds(kind) == (i64::MIN, i64::MAX),
        None => true,
    };
    let (old, new) = match place.at {
        Location::Temps(temp) if is_whole => (temp, temp),
        Location::Temps(temp) => (temp, b.temp(Kind::Number)),
        _ => (b.temp(Kind::Number), b.temp(Kind::Number)),
    };
    let code = if old == new {
        rest
    } else {
        store_word(b, place, 0, Operand::Temp(new), rest)
    };
    let code = match kind {
        Some(kind) if !is_whole => in_range(b, pos, kind, None, Operand::Temp(new), code),
        _ => code,
    };
    let code = code.after(MidOp::Checked {
        to: new,
        operator,
        left: Operand::Temp(old),
        right: by,
        pos,
    });
    match place.at {
        Location::Temps(_) => code,
        _ => load_word(b, old, place, 0, code),
    }
}

/// EVAL: the value is made and let go.
pub fn evaluate<'m>(
    b: &mut Builder<'m, '_>,
    exits: Exits,
    value: &CoreExpr,
    rest: Pending<'m>,
) -> Pending<'m> {
    let planned = plan_value(b, value);
    let code = match planned {
        Value::At(place) => cleared_value(b, place, rest),
        _ => rest,
    };
    emit_value(b, exits.around, value, planned, code)
}
