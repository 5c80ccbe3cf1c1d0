use crate::constants::{code_of, set_word};
use m3_base::{NoMemory, gap};
use m3_core::{Value as Constant, ValueId};
use m3_lower_state::{
    Builder, Location, Pending, Place, address_kind, copy_words, store_word, take_address,
    zero_words,
};
use m3_lower_storage::{Form, number_of, parent_of, word_number};
use m3_mid::{Kind, MidOp, Operand};
use m3_types::{Field, TypeId, TypeNode};

/// What is still to be given a default, by the word from the start of the place.
#[derive(Clone, Copy)]
enum Task {
    Type { at: u64, kind: TypeId },
    Field { at: u64, kind: TypeId, source: u32 },
    Rest { at: u64, words: u64, count: u64 },
}

/// A part of a default that isn't 0.
#[derive(Clone, Copy)]
enum Part {
    Number { at: u64, value: i64 },
    Constant { at: u64, kind: TypeId, value: u32 },
    /// The words at a place stand so many times in all.
    Rest { at: u64, words: u64, count: u64 },
}

/// Gives a place the default of a type: 0 where the type has it, else its first value; NIL; the
/// empty set; or such parts, and the defaults that fields have.
pub fn store_default<'m>(
    b: &mut Builder<'m, '_>,
    kind: TypeId,
    place: Place,
    is_zeroed: bool,
    rest: Pending<'m>,
) -> Pending<'m> {
    let code = if b.storage.is_zero_default(kind) {
        rest
    } else {
        let mut tasks = Vec::new(b.alloc);
        if tasks.push(Task::Type { at: 0, kind }).is_err() {
            b.fail();
        }
        let parts = parts_of(b, tasks);
        put_parts(b, place, parts.as_slice(), rest)
    };
    if is_zeroed || is_covered(b, kind) {
        return code;
    }
    zero_words(b, place, b.storage.form(kind).words(), code)
}

/// Whether the default of a word isn't 0, so that it needn't be 0 first.
fn is_covered(b: &Builder, kind: TypeId) -> bool {
    b.storage.form(kind) == Form::Number && !b.storage.is_zero_default(kind)
}

/// Gives the fields of a new object their defaults, those of its ancestors too.
pub fn store_object_defaults<'m>(
    b: &mut Builder<'m, '_>,
    made: TypeId,
    cell: u32,
    rest: Pending<'m>,
) -> Pending<'m> {
    let mut tasks = Vec::new(b.alloc);
    let mut at = Some(made);
    for _ in 0..b.storage.types.graph.nodes.len() {
        let Some(kind) = at else {
            break;
        };
        if let TypeNode::Object(_, _, fields, _, _) = b.storage.node(kind) {
            let start = b.storage.objects.object_field(b.storage.types, kind, 0);
            add_fields(b, &mut tasks, kind, fields, start);
        }
        at = parent_of(b.storage.types, kind);
    }
    let parts = parts_of(b, tasks);
    let place = Place {
        at: Location::Address {
            temp: cell,
            offset: 0,
        },
        base: Operand::Temp(cell),
        sizes: 0,
        dims: 0,
    };
    put_parts(b, place, parts.as_slice(), rest)
}

fn push(b: &mut Builder, tasks: &mut Vec<Task>, task: Task) {
    if tasks.push(task).is_err() {
        b.fail();
    }
}

fn add_fields(b: &mut Builder, tasks: &mut Vec<Task>, kind: TypeId, fields: &[Field], start: u64) {
    for (place, field) in fields.iter().enumerate() {
        let at = start.saturating_add(b.storage.objects.field(kind, number_of(place)));
        let task = match field.default {
            Some(default) => Task::Field {
                at,
                kind: field.kind,
                source: default.source,
            },
            None => Task::Type {
                at,
                kind: field.kind,
            },
        };
        push(b, tasks, task);
    }
}

/// The parts that aren't 0, those that others are copied from in front of these.
fn parts_of(b: &mut Builder, start: Vec<Task>) -> Vec<Part> {
    let mut parts = Vec::new(b.alloc);
    let mut tasks = start;
    for _ in 0..u64::MAX {
        let Some(task) = tasks.pop() else {
            return parts;
        };
        let part = match task {
            Task::Type { at, kind } => open_type(b, &mut tasks, at, kind),
            Task::Field { at, kind, source } => Some(Part::Constant {
                at,
                kind,
                value: source,
            }),
            Task::Rest { at, words, count } => Some(Part::Rest { at, words, count }),
        };
        if let Some(part) = part {
            if parts.push(part).is_err() {
                b.fail();
            }
        }
    }
    // no default has 2^64 - 1 parts
    let NoMemory = gap();
    b.fail();
    parts
}

fn open_type(b: &mut Builder, tasks: &mut Vec<Task>, at: u64, kind: TypeId) -> Option<Part> {
    if b.storage.is_zero_default(kind) {
        return None;
    }
    match b.storage.node(kind) {
        TypeNode::Fields(fields) => {
            add_fields(b, tasks, kind, fields, at);
            None
        }
        TypeNode::FixedArray(index, element) => {
            let count = b.storage.members(index);
            let words = b.storage.words(element);
            if count > 0 {
                push(b, tasks, Task::Rest { at, words, count });
                push(b, tasks, Task::Type { at, kind: element });
            }
            None
        }
        _ => Some(Part::Number {
            at,
            value: b.storage.bounds(kind).0,
        }),
    }
}

/// Code that stores parts in order.
fn put_parts<'m>(
    b: &mut Builder<'m, '_>,
    place: Place,
    parts: &[Part],
    rest: Pending<'m>,
) -> Pending<'m> {
    let mut code = rest;
    for part in parts.iter().rev() {
        code = match part {
            Part::Number { at, value } => {
                store_word(b, place, *at, Operand::Number(*value), code)
            }
            Part::Constant { at, kind, value } => {
                store_constant(b, place.further(*at), *kind, *value, code)
            }
            Part::Rest { at, words, count } => {
                repeat(b, place.further(*at), *words, *count, code)
            }
        };
    }
    code
}

fn repeat<'m>(
    b: &mut Builder<'m, '_>,
    place: Place,
    words: u64,
    count: u64,
    rest: Pending<'m>,
) -> Pending<'m> {
    if count <= 1 || words == 0 {
        return rest;
    }
    let kind = address_kind(b, place);
    let at = b.temp(kind);
    let further = count.wrapping_sub(1).wrapping_mul(words);
    let code = rest.after(MidOp::Fill {
        at,
        words: Operand::Number(further.cast_signed()),
        distance: Operand::Number(words.cast_signed()),
    });
    take_address(at, place, code)
}

/// Stores a constant at a place.
fn store_constant<'m>(
    b: &mut Builder<'m, '_>,
    place: Place,
    kind: TypeId,
    value: u32,
    rest: Pending<'m>,
) -> Pending<'m> {
    match b.storage.values.get(value as usize) {
        Some(Constant::Number(number)) => {
            store_word(b, place, 0, Operand::Number(*number), rest)
        }
        Some(Constant::Nil) => rest,
        Some(Constant::Text(text)) => {
            let to = b.temp(Kind::Tidy);
            let code = store_word(b, place, 0, Operand::Temp(to), rest);
            code.after(MidOp::TextCell { to, text: *text })
        }
        Some(Constant::Procedure(procedure)) => {
            let code = code_of(*procedure);
            store_word(b, place, 0, Operand::Number(code), rest)
        }
        Some(Constant::Set(_)) => store_set(b, place, kind, ValueId(value), rest),
        Some(Constant::Record(_)) | Some(Constant::Array(_, _)) => {
            let temp = b.temp(Kind::Number);
            let from = Place::plain(Location::Address { temp, offset: 0 });
            let words = b.storage.words(kind);
            let code = copy_words(b, place, from, words, rest);
            code.after(MidOp::ConstantAddress {
                to: temp,
                constant: value,
            })
        }
        None => rest,
    }
}

fn store_set<'m>(
    b: &mut Builder<'m, '_>,
    place: Place,
    kind: TypeId,
    value: ValueId,
    rest: Pending<'m>,
) -> Pending<'m> {
    let mut code = rest;
    for word in 0..b.storage.form(kind).words() {
        let bits = set_word(b, kind, value, word_number(word));
        code = store_word(b, place, word, Operand::Number(bits), code);
    }
    code
}
