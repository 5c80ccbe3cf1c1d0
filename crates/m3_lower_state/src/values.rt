use crate::builder::Builder;
use crate::places::{Location, Place};
use m3_core::CoreExpr;
use m3_lower_storage::Form;
use m3_mid::{Kind, Operand};
use m3_types::TypeId;

/// A value that code has made.
#[derive(Clone, Copy, PartialEq, Eq)]
pub enum Value {
    /// The call of a procedure without result.
    Nothing,
    /// One word.
    Word(Operand),
    /// So many words in temporaries in a row: a procedure (what it is, its environment), or a set.
    Words {
        first: u32,
        count: u32,
    },
    /// The words at a place.
    At(Place),
    /// A procedure of the program, with the temporary for the frame around it where it is an inner
    /// one.
    Known {
        procedure: u32,
        environment: Option<u32>,
    },
}

impl Value {
    /// The place of a value that is at one.
    pub fn place(self) -> Place {
        match self {
            Value::At(place) => place,
            Value::Nothing | Value::Word(_) | Value::Words { .. } | Value::Known { .. } => {
                Place::plain(Location::Slots(0))
            }
        }
    }

    /// A value of one word.
    pub fn word(self) -> Operand {
        match self {
            Value::Word(operand) => operand,
            Value::Words { first, .. } => Operand::Temp(first),
            Value::Nothing | Value::At(_) | Value::Known { .. } => Operand::Number(0),
        }
    }
}

/// The type of an expression; none of a call without result.
pub fn kind_of(e: &CoreExpr) -> Option<TypeId> {
    match e {
        CoreExpr::Number { kind, .. }
        | CoreExpr::Text { kind, .. }
        | CoreExpr::Nil { kind, .. }
        | CoreExpr::Procedure { kind, .. }
        | CoreExpr::InnerProcedure { kind, .. }
        | CoreExpr::Constant { kind, .. }
        | CoreExpr::Prefixed { kind, .. }
        | CoreExpr::SetOf { kind, .. }
        | CoreExpr::ArrayOf { kind, .. }
        | CoreExpr::RecordOf { kind, .. }
        | CoreExpr::New { kind, .. }
        | CoreExpr::Convert { kind, .. }
        | CoreExpr::TypeTest { kind, .. }
        | CoreExpr::ArrayLimit { kind, .. } => Some(*kind),
        CoreExpr::Chain(chain) => chain.kind,
        CoreExpr::Builtin(call) => call.kind,
        CoreExpr::Operations { rest, .. } => match rest.last() {
            Some(operation) => Some(operation.kind),
            None => None,
        },
    }
}

/// The form of the value of an expression.
pub fn form_of(b: &Builder, e: &CoreExpr) -> Form {
    match kind_of(e) {
        Some(kind) => b.storage.form(kind),
        None => Form::Structure(0),
    }
}

/// The kind of a word of a form.
pub fn kind_of_form(form: Form) -> Kind {
    match form {
        Form::Reference => Kind::Tidy,
        Form::Number | Form::Numbers(_) | Form::Structure(_) | Form::Open => Kind::Number,
    }
}
