use crate::variables::read_variable;
use m3_core::CoreExpr;
use m3_lower_arrays::code_of;
use m3_lower_state::{Builder, Pending, Value, form_of, kind_of_form, set};
use m3_lower_storage::Form;
use m3_mid::{MidOp, Operand};

/// The operand that has the value of an expression without any code: a number, or a variable of
/// the own procedure in a temporary, which no expression sets.
pub fn ready(b: &Builder, e: &CoreExpr) -> Option<Operand> {
    match e {
        CoreExpr::Number { value, .. } => Some(Operand::Number(*value)),
        CoreExpr::Nil { kind, .. } => match b.storage.form(*kind) {
            Form::Reference => Some(Operand::Number(0)),
            _ => None,
        },
        CoreExpr::Chain(chain) => match read_variable(b, chain) {
            Some(temp) => Some(Operand::Temp(temp)),
            None => None,
        },
        _ => None,
    }
}

/// The operand that is to hold the value of an expression of one word: a number, a variable that
/// nothing in the expression around it can set, or a new temporary.
pub fn source(b: &mut Builder, e: &CoreExpr) -> Operand {
    match ready(b, e) {
        Some(operand) => operand,
        None => {
            let kind = kind_of_form(form_of(b, e));
            Operand::Temp(b.temp(kind))
        }
    }
}

/// The words of a value in temporaries.
pub fn words_in(b: &Builder, e: &CoreExpr) -> u32 {
    match form_of(b, e) {
        Form::Numbers(count) => count,
        _ => 1,
    }
}

/// Moves the words of a value into temporaries in a row.
pub fn move_words<'m>(value: Value, first: u32, rest: Pending<'m>) -> Pending<'m> {
    match value {
        Value::Words { first: from, count } => {
            if from == first {
                return rest;
            }
            let mut code = rest;
            for word in 0..count {
                code = code.after(MidOp::Move {
                    to: first.wrapping_add(word),
                    from: from.wrapping_add(word),
                });
            }
            code
        }
        Value::Word(operand) => set(first, operand, rest),
        Value::Known {
            procedure,
            environment,
        } => {
            let to = first.wrapping_add(1);
            let code = match environment {
                Some(from) => rest.after(MidOp::Move { to, from }),
                None => rest.after(MidOp::Number { to, value: 0 }),
            };
            code.after(MidOp::Number {
                to: first,
                value: code_of(procedure),
            })
        }
        Value::Nothing | Value::At(_) => rest,
    }
}
