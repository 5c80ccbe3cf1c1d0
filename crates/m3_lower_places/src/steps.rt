use crate::aliases::load_sizes;
use crate::sources::move_words;
use m3_base::Pos;
use m3_core::{Base, Chain, Step};
use m3_lower_arrays::{dims_of, index_of, new_sizes, plan_element};
use m3_lower_state::{
    Builder, Location, Pending, Place, Value, cleared_value, copy_words, kind_of, load_word,
    load_words, not_nil, set_temp, store_word, store_words,
};
use m3_lower_storage::Form;
use m3_mid::{Kind, Operand};
use m3_types::TypeId;

/// The type of what a step gives.
pub fn kind_of_step(step: &Step) -> Option<TypeId> {
    match step {
        Step::Read { kind }
        | Step::Keep { kind }
        | Step::Dereference { kind }
        | Step::Field { kind, .. }
        | Step::ObjectField { kind, .. }
        | Step::Element { kind, .. } => Some(*kind),
        Step::Call { kind, .. } | Step::MethodCall { kind, .. } => *kind,
    }
}

/// The type of what a chain's base gives.
pub fn kind_of_base(base: &Base) -> Option<TypeId> {
    match base {
        Base::Global { kind, .. }
        | Base::Local { kind, .. }
        | Base::Alias { kind, .. }
        | Base::Subarray { kind, .. } => Some(*kind),
        Base::Inner(chain) => chain.kind,
        Base::Value(e) => kind_of(e),
    }
}

/// The type of what stands before a step.
pub fn kind_before(chain: &Chain, place: usize) -> Option<TypeId> {
    if place == 0 {
        return kind_of_base(&chain.base);
    }
    match chain.steps.get(place.saturating_sub(1)) {
        Some(step) => kind_of_step(step),
        None => None,
    }
}

/// Where what a step gives will be.
pub fn plan_step<'m>(
    b: &mut Builder<'m, '_>,
    step: &Step,
    before: Value,
    before_kind: Option<TypeId>,
) -> Value {
    match step {
        Step::Read { kind } => plan_read(b, before.place(), *kind),
        Step::Keep { kind } => plan_keep(b, before, *kind),
        Step::Dereference { kind } => {
            let cell = temp_of(b, before);
            let dims = dims_of(b, *kind);
            Value::At(Place {
                at: Location::Address {
                    temp: cell,
                    offset: i64::from(dims).wrapping_add(1),
                },
                base: Operand::Temp(cell),
                sizes: new_sizes(b, dims),
                dims,
            })
        }
        Step::Field { field, .. } => {
            let offset = match before_kind {
                Some(kind) => b.storage.objects.field(kind, *field),
                None => 0,
            };
            Value::At(before.place().further(offset))
        }
        Step::ObjectField { owner, field, .. } => {
            let cell = temp_of(b, before);
            let types = b.storage.types;
            let offset = b.storage.objects.object_field(types, *owner, *field);
            Value::At(Place {
                at: Location::Address {
                    temp: cell,
                    offset: offset.cast_signed(),
                },
                base: Operand::Temp(cell),
                sizes: 0,
                dims: 0,
            })
        }
        Step::Element { index, .. } => {
            Value::At(plan_element(b, before.place(), before_kind, index_of(index)))
        }
        Step::Call { kind, .. } | Step::MethodCall { kind, .. } => plan_result(b, *kind),
    }
}

/// The temporary that holds a reference, or a new one where it is a number.
fn temp_of(b: &mut Builder, value: Value) -> u32 {
    match value.word() {
        Operand::Temp(temp) => temp,
        Operand::Number(_) => b.temp(Kind::Tidy),
    }
}

fn plan_read(b: &mut Builder, place: Place, kind: TypeId) -> Value {
    match b.storage.form(kind) {
        Form::Number => match place.at {
            Location::Temps(first) => Value::Word(Operand::Temp(first)),
            _ => Value::Word(Operand::Temp(b.temp(Kind::Number))),
        },
        Form::Reference => match place.at {
            Location::Temps(first) => Value::Word(Operand::Temp(first)),
            _ => Value::Word(Operand::Temp(b.temp(Kind::Tidy))),
        },
        Form::Numbers(count) => match place.at {
            Location::Temps(first) => Value::Words { first, count },
            _ => Value::Words {
                first: b.temps(Kind::Number, count),
                count,
            },
        },
        Form::Structure(_) | Form::Open => Value::At(place),
    }
}

/// The slots of a new variable; a value that is in slots for a while stays there.
fn plan_keep(b: &mut Builder, before: Value, kind: TypeId) -> Value {
    match before {
        Value::At(place) if b.is_buffer(place) => before,
        Value::At(place) if place.dims > 0 => before,
        _ => Value::At(b.buffer(kind)),
    }
}

/// Where the result of a call will be.
fn plan_result(b: &mut Builder, kind: Option<TypeId>) -> Value {
    let Some(kind) = kind else {
        return Value::Nothing;
    };
    match b.storage.form(kind) {
        Form::Number => Value::Word(Operand::Temp(b.temp(Kind::Number))),
        Form::Reference => Value::Word(Operand::Temp(b.temp(Kind::Tidy))),
        Form::Numbers(count) => Value::Words {
            first: b.temps(Kind::Number, count),
            count,
        },
        Form::Structure(_) | Form::Open => Value::At(b.buffer(kind)),
    }
}

/// Code that reads the value at a place.
pub fn emit_read<'m>(
    b: &mut Builder<'m, '_>,
    from: Place,
    after: Value,
    rest: Pending<'m>,
) -> Pending<'m> {
    match (after, from.at) {
        (_, Location::Temps(_)) | (Value::At(_), _) => rest,
        (Value::Word(Operand::Temp(to)), _) => {
            let rest = cleared_value(b, from, rest);
            load_word(b, to, from, 0, rest)
        }
        (Value::Words { first, count }, _) => {
            let rest = cleared_value(b, from, rest);
            load_words(b, first, count, from, rest)
        }
        _ => rest,
    }
}

/// Code that puts a value into a new variable.
pub fn emit_keep<'m>(
    b: &mut Builder<'m, '_>,
    before: Value,
    after: Value,
    kind: TypeId,
    rest: Pending<'m>,
) -> Pending<'m> {
    let to = after.place();
    match before {
        Value::Nothing => rest,
        Value::Word(operand) => store_word(b, to, 0, operand, rest),
        Value::Words { first, count } => store_words(b, to, first, count, rest),
        Value::Known { .. } => {
            let first = b.temps(Kind::Number, 2);
            let code = store_words(b, to, first, 2, rest);
            move_words(before, first, code)
        }
        Value::At(from) => {
            let words = b.storage.words(kind);
            copy_words(b, to, from, words, rest)
        }
    }
}

/// A check that a reference isn't NIL, and the loads of the sizes of an open array behind it.
pub fn emit_reference<'m>(
    b: &mut Builder<'m, '_>,
    pos: Pos,
    before: Value,
    after: Value,
    rest: Pending<'m>,
) -> Pending<'m> {
    let place = after.place();
    let cell = match place.at {
        Location::Address { temp, .. } => temp,
        Location::Temps(_) | Location::Slots(_) | Location::Globals(_) => 0,
    };
    let code = load_sizes(b, cell, 1, place, rest);
    let code = code.after(not_nil(Operand::Temp(cell), pos));
    match before.word() {
        Operand::Temp(from) if from == cell => code,
        operand => code.after(set_temp(cell, operand)),
    }
}
