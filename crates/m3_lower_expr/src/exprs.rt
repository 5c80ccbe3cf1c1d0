use crate::chains::{array_limit, emit_chain};
use crate::conditions::short_condition;
use crate::new_cells::new_into;
use crate::rows::{builtin_into, operations_into, prefixed_into, set_into};
use crate::structures::emit_structure;
use m3_core::{Chain, CoreExpr, Step};
use m3_lower_actuals::plan_chain;
use m3_lower_arrays::{code_of, constant_words, set_word};
use m3_lower_operators::{
    CheckedConversion, TempRow, checked, is_short, not_nested, tested, zero_temps,
};
use m3_lower_places::{environment_of, move_words, ready, source, words_in};
use m3_lower_state::{Around, Builder, Pending, Value, cleared_value, load_word, set};
use m3_mid::{MidOp, Operand};
use m3_types::TypeId;

/// Code that gives an expression's value to the operand that was chosen for it.
#[cycle(expressions)]
pub fn fetch<'m>(
    b: &mut Builder<'m, '_>,
    around: Around,
    e: &CoreExpr,
    operand: Operand,
    rest: Pending<'m>,
) -> Pending<'m> {
    if ready(b, e).is_some() {
        return rest;
    }
    match operand {
        Operand::Temp(to) => into_temp(b, around, e, to, rest),
        Operand::Number(_) => rest,
    }
}

/// Code that makes the value of an expression where it was planned.
#[cycle(expressions)]
pub fn emit_value<'m>(
    b: &mut Builder<'m, '_>,
    around: Around,
    e: &CoreExpr,
    value: Value,
    rest: Pending<'m>,
) -> Pending<'m> {
    match value {
        Value::Word(operand) => fetch(b, around, e, operand, rest),
        Value::Words { first, .. } => into_temps(b, around, e, first, rest),
        Value::At(place) => emit_structure(b, around, e, place, rest),
        Value::Known { environment, .. } => match (e, environment) {
            (CoreExpr::InnerProcedure { procedure, .. }, Some(to)) => {
                environment_of(b, *procedure, to, rest)
            }
            _ => rest,
        },
        Value::Nothing => match e {
            CoreExpr::Chain(chain) => emit_chain(b, around, chain, rest),
            _ => rest,
        },
    }
}

/// Code that puts the value of an expression of one word into a temporary, which is set last of
/// all.
#[cycle(expressions)]
pub fn into_temp<'m>(
    b: &mut Builder<'m, '_>,
    around: Around,
    e: &CoreExpr,
    to: u32,
    rest: Pending<'m>,
) -> Pending<'m> {
    match e {
        CoreExpr::Number { value, .. } => rest.after(MidOp::Number { to, value: *value }),
        CoreExpr::Text { text, .. } => rest.after(MidOp::TextCell { to, text: *text }),
        CoreExpr::Constant { value, kind, .. } => {
            let value = set_word(b, *kind, *value, 0);
            rest.after(MidOp::Number { to, value })
        }
        CoreExpr::Chain(chain) => chain_into(b, around, chain, to, rest),
        CoreExpr::Builtin(call) => builtin_into(b, around, call, Some(to), rest),
        CoreExpr::Prefixed {
            operators,
            operand,
            ..
        } => prefixed_into(b, around, operators, operand, to, rest),
        CoreExpr::Operations { rest: row, .. } => {
            if is_short(row) {
                return condition_into(b, around, e, to, rest);
            }
            operations_into(b, around, e, Value::Word(Operand::Temp(to)), rest)
        }
        CoreExpr::SetOf { kind, elements, .. } => {
            let row = TempRow {
                first: to,
                count: 1,
            };
            set_into(b, around, *kind, elements, row, rest)
        }
        CoreExpr::New { .. } => new_into(b, around, e, to, rest),
        CoreExpr::Convert {
            pos,
            kind,
            check,
            operand,
        } => {
            let conversion = CheckedConversion {
                pos: *pos,
                kind: *kind,
                check: *check,
            };
            converted_into(b, around, conversion, operand, to, rest)
        }
        CoreExpr::TypeTest {
            operand,
            tested,
            ..
        } => type_test_into(b, around, operand, *tested, to, rest),
        CoreExpr::ArrayLimit { limit, array, .. } => array_limit(
            b, around, *limit, array, to, rest,
        ),
        CoreExpr::Nil { .. }
        | CoreExpr::Procedure { .. }
        | CoreExpr::InnerProcedure { .. }
        | CoreExpr::ArrayOf { .. }
        | CoreExpr::RecordOf { .. } => rest.after(MidOp::Number { to, value: 0 }),
    }
}

/// Code that puts the value of an expression of several words into temporaries in a row.
#[cycle(expressions)]
pub fn into_temps<'m>(
    b: &mut Builder<'m, '_>,
    around: Around,
    e: &CoreExpr,
    first: u32,
    rest: Pending<'m>,
) -> Pending<'m> {
    match e {
        CoreExpr::Procedure { procedure, .. } => {
            let code = set(first.wrapping_add(1), Operand::Number(0), rest);
            set(first, Operand::Number(code_of(*procedure)), code)
        }
        CoreExpr::InnerProcedure { procedure, .. } => {
            let code = environment_of(b, *procedure, first.wrapping_add(1), rest);
            set(first, Operand::Number(code_of(*procedure)), code)
        }
        CoreExpr::Chain(chain) => chain_into_temps(b, around, chain, first, rest),
        CoreExpr::Operations { .. } => {
            let count = words_in(b, e);
            operations_into(b, around, e, Value::Words { first, count }, rest)
        }
        CoreExpr::SetOf { kind, elements, .. } => {
            let row = TempRow {
                first,
                count: words_in(b, e),
            };
            set_into(b, around, *kind, elements, row, rest)
        }
        CoreExpr::Constant { value, kind, .. } => constant_words(b, *kind, *value, first, rest),
        CoreExpr::Convert {
            pos,
            kind,
            check,
            operand,
        } => {
            let conversion = CheckedConversion {
                pos: *pos,
                kind: *kind,
                check: *check,
            };
            let code = not_nested(conversion, first, rest);
            into_temps(b, around, operand, first, code)
        }
        _ => {
            let row = TempRow {
                first,
                count: words_in(b, e),
            };
            zero_temps(row, rest)
        }
    }
}

#[cycle(expressions)]
fn chain_into_temps<'m>(
    b: &mut Builder<'m, '_>,
    around: Around,
    chain: &Chain,
    first: u32,
    rest: Pending<'m>,
) -> Pending<'m> {
    let value = plan_chain(b, chain);
    let code = match value {
        // a NIL of one word, of the type NULL, where a procedure is wanted
        Value::Word(_) => set(first.wrapping_add(1), Operand::Number(0), rest),
        _ => rest,
    };
    let code = move_words(value, first, code);
    emit_chain(b, around, chain, code)
}

#[cycle(expressions)]
fn chain_into<'m>(
    b: &mut Builder<'m, '_>,
    around: Around,
    chain: &Chain,
    to: u32,
    rest: Pending<'m>,
) -> Pending<'m> {
    let value = plan_chain(b, chain);
    let is_loaded = match chain.steps.last() {
        Some(Step::Read { .. }) => b.is_loaded(),
        _ => false,
    };
    if is_loaded {
        b.pop_stage();
        b.push_stage(Value::Word(Operand::Temp(to)));
        return emit_chain(b, around, chain, rest);
    }
    let code = match value {
        Value::At(place) => {
            let code = cleared_value(b, place, rest);
            load_word(b, to, place, 0, code)
        }
        _ => set(to, value.word(), rest),
    };
    emit_chain(b, around, chain, code)
}

/// The value of AND and OR: 1 or 0 where the condition ends.
#[cycle(expressions)]
fn condition_into<'m>(
    b: &mut Builder<'m, '_>,
    around: Around,
    e: &CoreExpr,
    to: u32,
    rest: Pending<'m>,
) -> Pending<'m> {
    let join = b.seal(rest);
    let yes = b.goto(join).after(MidOp::Number { to, value: 1 });
    let yes = b.seal(yes);
    let no = b.goto(join).after(MidOp::Number { to, value: 0 });
    let no = b.seal(no);
    short_condition(b, around, e, yes, no)
}

#[cycle(expressions)]
fn converted_into<'m>(
    b: &mut Builder<'m, '_>,
    around: Around,
    conversion: CheckedConversion,
    operand: &CoreExpr,
    to: u32,
    rest: Pending<'m>,
) -> Pending<'m> {
    if let Some(value) = ready(b, operand) {
        let code = set(to, value, rest);
        return checked(b, conversion, operand, value, code);
    }
    let code = checked(b, conversion, operand, Operand::Temp(to), rest);
    into_temp(b, around, operand, to, code)
}

#[cycle(expressions)]
fn type_test_into<'m>(
    b: &mut Builder<'m, '_>,
    around: Around,
    operand: &CoreExpr,
    kind: TypeId,
    to: u32,
    rest: Pending<'m>,
) -> Pending<'m> {
    let join = b.seal(rest);
    let yes = b.goto(join).after(MidOp::Number { to, value: 1 });
    let yes = b.seal(yes);
    let no = b.goto(join).after(MidOp::Number { to, value: 0 });
    let no = b.seal(no);
    let value = source(b, operand);
    let code = tested(b, kind, value, yes, no);
    fetch(b, around, operand, value, code)
}
