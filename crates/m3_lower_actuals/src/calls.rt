use crate::actuals::Passed;
use m3_base::Pos;
use m3_lower_operators::TypedValue;
use m3_lower_state::{
    Around, Builder, Location, Pending, Place, Value, choice, load_words, not_nil,
};
use m3_mid::{Actual, Callee, Kind, MemoryWord, MidOp, Operand, Raised, Relation};
use m3_types::{Formal, Raises, TypeId, TypeNode};

/// What is known of a procedure that is called, by its type.
#[derive(Clone, Copy)]
pub struct Signature<'a> {
    pub formals: &'a [Formal<'a>],
    pub can_raise: bool,
}

/// A method, by the object type whose part declares it and its place there.
#[derive(Clone, Copy)]
pub struct Method {
    pub owner: TypeId,
    pub place: u32,
}

/// A call but for what it passes: what is called, whether that can raise an exception, and where
/// the result is wanted.
#[derive(Clone, Copy)]
pub struct Call {
    pub callee: Callee,
    pub can_raise: bool,
    pub result: TypedValue,
}

/// The signature of a procedure type.
pub fn signature_of<'s>(b: &Builder<'_, 's>, kind: Option<TypeId>) -> Signature<'s> {
    if let Some(kind) = kind {
        if let TypeNode::Procedure(formals, _, raises) = b.storage.node(kind) {
            let can_raise = match raises {
                Raises::Any => true,
                Raises::Only(exceptions) => !exceptions.is_empty(),
            };
            return Signature { formals, can_raise };
        }
    }
    Signature {
        formals: &[],
        can_raise: true,
    }
}

/// The signature of a method.
pub fn signature_of_method<'s>(b: &Builder<'_, 's>, method: Method) -> Signature<'s> {
    let kind = match b.storage.node(method.owner) {
        TypeNode::Object(_, _, _, methods, _) => match methods.get(method.place as usize) {
            Some(method) => Some(method.signature),
            None => None,
        },
        _ => None,
    };
    signature_of(b, kind)
}

/// What a value calls, and whether it is known not to be NIL.
pub fn callee_of(before: Value) -> (Callee, bool) {
    match before {
        Value::Known {
            procedure,
            environment: None,
        } => (Callee::Outermost(procedure), true),
        Value::Known {
            procedure,
            environment: Some(environment),
        } => (
            Callee::Inner {
                procedure,
                environment,
            },
            true,
        ),
        Value::Words { first, .. } => (
            Callee::Value {
                code: first,
                environment: first.wrapping_add(1),
            },
            false,
        ),
        Value::Nothing | Value::Word(_) | Value::At(_) => (
            Callee::Value {
                code: 0,
                environment: 0,
            },
            false,
        ),
    }
}

/// The checks that an object and its method at a place aren't NIL.
pub fn check_method<'m>(
    b: &mut Builder<'m, '_>,
    object: Operand,
    method: u32,
    pos: Pos,
    rest: Pending<'m>,
) -> Pending<'m> {
    let code = match object {
        Operand::Temp(object) => {
            let bound = b.temp(Kind::Number);
            let code = rest.after(not_nil(Operand::Temp(bound), pos));
            code.after(MidOp::MethodOf {
                to: bound,
                object,
                method,
            })
        }
        Operand::Number(_) => rest,
    };
    code.after(not_nil(object, pos))
}

/// What is done with a result behind a call.
struct Received<'m> {
    /// The temporary of a result of one word.
    word: Option<u32>,
    /// The temporary for the address at which a wider one is wanted, and the slot there.
    buffer: Option<(u32, u32)>,
    code: Pending<'m>,
}

/// The call itself, with what becomes of its result and of an exception.
pub fn call_with<'m>(
    b: &mut Builder<'m, '_>,
    around: Around,
    call: Call,
    passed: &Passed,
    rest: Pending<'m>,
) -> Pending<'m> {
    let Received { word, buffer, code } = receive(b, call.result, rest);
    let raised = if call.can_raise { Some(b.raised) } else { None };
    let code = match raised {
        Some(raised) => unless_raised(b, around, raised, code),
        None => code,
    };
    let code = passed.clear_values(b, code);
    let actuals = row_of_call(b, passed, buffer);
    let shown = b.shown(around);
    let code = code.after(MidOp::Call {
        callee: call.callee,
        actuals,
        result: word,
        raised,
        shown,
    });
    let code = match buffer {
        Some((to, slot)) => code.after(MidOp::SlotAddress { to, slot }),
        None => code,
    };
    passed.put_addresses(code)
}

/// The row of actuals of a call, with the address of a wide result behind them.
fn row_of_call<'m>(
    b: &mut Builder<'m, '_>,
    passed: &Passed,
    buffer: Option<(u32, u32)>,
) -> &'m [Actual] {
    let Some((address, _)) = buffer else {
        return b.actual_row(passed.row.as_slice());
    };
    let mut row = Vec::new(b.alloc);
    for actual in &passed.row {
        if row.push(*actual).is_err() {
            b.fail();
        }
    }
    if row.push(Actual::Word(Operand::Temp(address))).is_err() {
        b.fail();
    }
    b.actual_row(row.as_slice())
}

/// Goes on where no exception was raised.
fn unless_raised<'m>(
    b: &mut Builder<'m, '_>,
    around: Around,
    raised: Raised,
    rest: Pending<'m>,
) -> Pending<'m> {
    let next = b.seal(rest);
    choice(
        b,
        Relation::NotEqual,
        Operand::Temp(raised.exception),
        Operand::Number(0),
        around.raised,
        next,
    )
}

fn receive<'m>(b: &mut Builder<'m, '_>, wanted: TypedValue, rest: Pending<'m>) -> Received<'m> {
    match wanted.value {
        Value::Word(Operand::Temp(to)) => Received {
            word: Some(to),
            buffer: None,
            code: rest,
        },
        Value::Words { first, count } => {
            let slot = b.result_slots(count);
            let from = Place::plain(Location::Slots(slot));
            let code = load_words(b, first, count, from, rest);
            let address = b.temp(Kind::Number);
            Received {
                word: None,
                buffer: Some((address, slot)),
                code,
            }
        }
        Value::At(place) => receive_at(b, place, wanted.kind, rest),
        Value::Nothing | Value::Word(Operand::Number(_)) | Value::Known { .. } => Received {
            word: None,
            buffer: None,
            code: rest,
        },
    }
}

fn receive_at<'m>(
    b: &mut Builder<'m, '_>,
    place: Place,
    kind: Option<TypeId>,
    rest: Pending<'m>,
) -> Received<'m> {
    let words = match kind {
        Some(kind) => b.storage.words(kind),
        None => 0,
    };
    match (place.at, words) {
        (Location::Slots(slot), 1) => {
            let kind = b.slot_kind(slot);
            let to = b.temp(kind);
            let code = rest.after(MidOp::Store {
                at: MemoryWord::Slot(slot),
                from: Operand::Temp(to),
            });
            Received {
                word: Some(to),
                buffer: None,
                code,
            }
        }
        (Location::Slots(slot), 2..) => Received {
            word: None,
            buffer: Some((b.temp(Kind::Number), slot)),
            code: rest,
        },
        _ => Received {
            word: None,
            buffer: None,
            code: rest,
        },
    }
}
