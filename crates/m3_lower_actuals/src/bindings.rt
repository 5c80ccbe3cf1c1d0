use crate::chains::plan_value;
use m3_core::Binding;
use m3_lower_operators::TypedValue;
use m3_lower_places::move_words;
use m3_lower_state::{
    Builder, Location, Pending, Place, Value, cleared_value, copy_words, form_of, kind_of,
    store_word, store_words,
};
use m3_lower_storage::Form;
use m3_mid::{Kind, Operand};
use m3_types::{TypeId, TypeNode};

/// The values of the bindings; a record or array goes into slots of its own, since it is read now.
pub fn plan_bindings<'m>(b: &mut Builder<'m, '_>, bindings: &[Binding]) -> Vec<Value> {
    let mut values = Vec::new(b.alloc);
    for binding in bindings {
        let value = match (form_of(b, binding.value), kind_of(binding.value)) {
            (Form::Structure(_), Some(kind)) => Value::At(b.buffer(kind)),
            _ => plan_value(b, binding.value),
        };
        if values.push(value).is_err() {
            b.fail();
        }
    }
    values
}

/// Stores the bindings in their fields, in order.
pub fn store_bindings<'m>(
    b: &mut Builder<'m, '_>,
    made: TypeId,
    cell: u32,
    bindings: &[Binding],
    values: &[Value],
    rest: Pending<'m>,
) -> Pending<'m> {
    let mut code = rest;
    for place in (0..bindings.len()).rev() {
        if let (Some(binding), Some(value)) = (bindings.get(place), values.get(place)) {
            let offset = field_word(b, made, binding);
            let to = Place {
                at: Location::Address {
                    temp: cell,
                    offset: offset.cast_signed(),
                },
                base: Operand::Temp(cell),
                sizes: 0,
                dims: 0,
            };
            let stored = TypedValue {
                value: *value,
                kind: kind_of(binding.value),
            };
            code = store_value(b, stored, to, code);
        }
    }
    code
}

/// The word of a cell in which a field begins.
fn field_word(b: &Builder, made: TypeId, binding: &Binding) -> u64 {
    match binding.owner {
        Some(owner) => {
            let types = b.storage.types;
            b.storage.objects.object_field(types, owner, binding.field)
        }
        None => match b.storage.node(made) {
            TypeNode::RefTo(_, target) => b
                .storage
                .objects
                .field(target, binding.field)
                .saturating_add(1),
            _ => 1,
        },
    }
}

/// Stores a value that is made at a place.
pub fn store_value<'m>(
    b: &mut Builder<'m, '_>,
    stored: TypedValue,
    to: Place,
    rest: Pending<'m>,
) -> Pending<'m> {
    match stored.value {
        Value::Nothing => rest,
        Value::Word(operand) => store_word(b, to, 0, operand, rest),
        Value::Words { first, count } => store_words(b, to, first, count, rest),
        Value::Known { .. } => {
            let first = b.temps(Kind::Number, 2);
            let code = store_words(b, to, first, 2, rest);
            move_words(stored.value, first, code)
        }
        Value::At(from) => {
            let words = match stored.kind {
                Some(kind) => b.storage.words(kind),
                None => 0,
            };
            let code = cleared_value(b, from, rest);
            copy_words(b, to, from, words, code)
        }
    }
}
