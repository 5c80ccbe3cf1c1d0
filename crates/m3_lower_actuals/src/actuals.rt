use crate::chains::{plan_chain, plan_structure, plan_value};
use m3_core::{Actual as CoreActual, CoreExpr};
use m3_lower_arrays::fitted;
use m3_lower_state::{
    Builder, Pending, Place, Value, address_kind, cleared_value, kind_of, slots_of, take_address,
};
use m3_lower_storage::{Form, number_of, word_number};
use m3_mid::{Actual, Kind, Operand};
use m3_types::{Formal, Mode, TypeId};

/// How an actual is passed, before its code is made.
#[derive(Clone, Copy)]
pub enum PlannedActual {
    /// A value in temporaries.
    Scalar(Value),
    /// A record or array in slots, of so many words; `is_made` where the value is made there.
    Copied {
        at: Place,
        words: u32,
        is_made: bool,
    },
    /// An open array that is copied into a new cell once all actuals are evaluated: where it is
    /// made, and that place with the sizes that the formal gets.
    NewCell {
        made: Place,
        from: Place,
        cell: u32,
    },
    /// A place, by the temporary for its address.
    Reference {
        place: Place,
        address: u32,
    },
    /// A place that holds a new variable: where it is made, and that place with the sizes that the
    /// formal gets.
    NewVariable {
        made: Place,
        place: Place,
        address: u32,
    },
}

/// The actuals of a call: how each is passed, in the order of evaluation, and the words that the
/// callee gets, in the order of its formals.
#[derive(Drop)]
pub struct Passed {
    pub planned: Vec<PlannedActual>,
    pub row: Vec<Actual>,
}

impl Passed {
    /// Code that clears the values that slots hold for the call, right behind it.
    pub fn clear_values<'m>(&self, b: &mut Builder<'m, '_>, rest: Pending<'m>) -> Pending<'m> {
        let mut code = rest;
        for planned in &self.planned {
            if let PlannedActual::Copied { at: place, .. }
            | PlannedActual::Reference { place, .. }
            | PlannedActual::NewVariable { place, .. } = planned
            {
                code = cleared_value(b, *place, code);
            }
        }
        code
    }

    /// Code that takes the addresses of places by reference, right before the call.
    pub fn put_addresses<'m>(&self, rest: Pending<'m>) -> Pending<'m> {
        let mut code = rest;
        for planned in &self.planned {
            if let PlannedActual::Reference { place, address }
            | PlannedActual::NewVariable { place, address, .. } = planned
            {
                code = take_address(*address, *place, code);
            }
        }
        code
    }
}

/// Plans the actuals of a call, of a method with its object in front.
pub fn plan_actuals<'m>(
    b: &mut Builder<'m, '_>,
    formals: &[Formal],
    actuals: &[CoreActual],
    object: Option<Operand>,
) -> Passed {
    let mut planned = Vec::new(b.alloc);
    for actual in actuals {
        let one = plan_actual(b, formals, actual);
        if planned.push(one).is_err() {
            b.fail();
        }
    }
    let row = row_of(b, formals, actuals, &planned, object);
    Passed { planned, row }
}

fn mode_of(formals: &[Formal], formal: u32) -> Mode {
    match formals.get(formal as usize) {
        Some(formal) => formal.mode,
        None => Mode::Value,
    }
}

fn plan_actual<'m>(
    b: &mut Builder<'m, '_>,
    formals: &[Formal],
    actual: &CoreActual,
) -> PlannedActual {
    match actual {
        CoreActual::Place { kind, place, .. } => {
            let at = plan_chain(b, place).place();
            let at = fitted(b, at, place.kind, *kind);
            reference_to(b, at)
        }
        CoreActual::Value {
            formal,
            kind,
            value,
        } => match mode_of(formals, *formal) {
            Mode::Value => plan_by_value(b, *kind, value),
            Mode::Var | Mode::Readonly => plan_new_variable(b, *kind, value),
        },
    }
}

fn reference_to(b: &mut Builder, place: Place) -> PlannedActual {
    let kind = address_kind(b, place);
    PlannedActual::Reference {
        place,
        address: b.temp(kind),
    }
}

fn plan_by_value<'m>(b: &mut Builder<'m, '_>, kind: TypeId, value: &CoreExpr) -> PlannedActual {
    match b.storage.form(kind) {
        Form::Number | Form::Reference => PlannedActual::Scalar(plan_value(b, value)),
        Form::Numbers(count) => PlannedActual::Scalar(Value::Words {
            first: b.temps(Kind::Number, count),
            count,
        }),
        Form::Structure(words) => {
            let words = word_number(words);
            if is_constructor(value) {
                let at = plan_structure(b, value);
                return PlannedActual::Copied {
                    at,
                    words,
                    is_made: true,
                };
            }
            PlannedActual::Copied {
                at: b.buffer(kind),
                words,
                is_made: false,
            }
        }
        Form::Open => {
            let made = plan_structure(b, value);
            PlannedActual::NewCell {
                made,
                from: fitted(b, made, kind_of(value), kind),
                cell: b.temp(Kind::Tidy),
            }
        }
    }
}

/// Whether the value of an expression is made in slots of its own.
fn is_constructor(e: &CoreExpr) -> bool {
    matches!(e, CoreExpr::ArrayOf { .. } | CoreExpr::RecordOf { .. })
}

fn plan_new_variable<'m>(b: &mut Builder<'m, '_>, kind: TypeId, value: &CoreExpr) -> PlannedActual {
    let (made, place) = match b.storage.form(kind) {
        Form::Open => {
            let made = plan_structure(b, value);
            (made, fitted(b, made, kind_of(value), kind))
        }
        _ => {
            let buffer = b.buffer(kind);
            (buffer, buffer)
        }
    };
    let of_address = address_kind(b, place);
    PlannedActual::NewVariable {
        made,
        place,
        address: b.temp(of_address),
    }
}

/// The words of the formals in order.
fn row_of(
    b: &mut Builder,
    formals: &[Formal],
    actuals: &[CoreActual],
    planned: &[PlannedActual],
    object: Option<Operand>,
) -> Vec<Actual> {
    let mut row = Vec::new(b.alloc);
    if let Some(object) = object {
        push(b, &mut row, Actual::Word(object));
    }
    let places = places_of(b, formals.len(), actuals);
    for place in &places {
        if let Some(one) = planned.get(*place as usize) {
            push_words(b, &mut row, one);
        }
    }
    row
}

fn push(b: &mut Builder, row: &mut Vec<Actual>, actual: Actual) {
    if row.push(actual).is_err() {
        b.fail();
    }
}

/// For each formal the place of its actual in the order of evaluation.
pub fn places_of(b: &mut Builder, count: usize, actuals: &[CoreActual]) -> Vec<u32> {
    let mut places = Vec::new(b.alloc);
    for _ in 0..count {
        if places.push(u32::MAX).is_err() {
            b.fail();
        }
    }
    for (place, actual) in actuals.iter().enumerate() {
        let formal = formal_of(actual) as usize;
        if formal < places.len() {
            places[formal] = number_of(place);
        }
    }
    places
}

fn formal_of(actual: &CoreActual) -> u32 {
    match actual {
        CoreActual::Value { formal, .. } | CoreActual::Place { formal, .. } => *formal,
    }
}

fn push_words(b: &mut Builder, row: &mut Vec<Actual>, planned: &PlannedActual) {
    match planned {
        PlannedActual::Scalar(Value::Words { first, count }) => {
            for word in 0..*count {
                push(
                    b,
                    row,
                    Actual::Word(Operand::Temp(first.wrapping_add(word))),
                );
            }
        }
        PlannedActual::Scalar(value) => push(b, row, Actual::Word(value.word())),
        PlannedActual::Copied { at, words, .. } => {
            if let Some(first) = slots_of(*at) {
                let count = *words;
                push(b, row, Actual::Slots { first, count });
            }
        }
        PlannedActual::NewCell { cell, .. } => push(b, row, Actual::Word(Operand::Temp(*cell))),
        PlannedActual::Reference { place, address }
        | PlannedActual::NewVariable { place, address, .. } => {
            push_reference(b, row, *place, *address);
        }
    }
}

fn push_reference(b: &mut Builder, row: &mut Vec<Actual>, place: Place, address: u32) {
    push(
        b,
        row,
        Actual::Reference {
            address,
            base: place.base,
        },
    );
    for dim in 0..place.dims {
        let size = b.size_at(place.sizes.wrapping_add(dim));
        push(b, row, Actual::Word(size));
    }
}

/// The type of an actual's formal.
pub fn kind_of_actual(actual: &CoreActual) -> TypeId {
    match actual {
        CoreActual::Value { kind, .. } | CoreActual::Place { kind, .. } => *kind,
    }
}
