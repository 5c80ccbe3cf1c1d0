use crate::chains::{PlannedStep, emit_chain};
use crate::exprs::emit_value;
use crate::structures::{emit_structure, structure_into, value_into};
use m3_core::{Actual as CoreActual, Chain};
use m3_lower_actuals::{
    Call, Method, Passed, PlannedActual, call_with, callee_of, check_method, kind_of_actual,
    places_of, plan_actuals, signature_of, signature_of_method,
};
use m3_lower_arrays::{check_shape, copy_into_cell};
use m3_lower_state::{Around, Builder, Pending, cleared_value, not_nil};
use m3_lower_storage::Form;
use m3_mid::Callee;
use m3_types::{Formal, TypeId};

/// Code for the call of a procedure value, which is evaluated already.
#[cycle(expressions)]
pub fn emit_call<'m>(
    b: &mut Builder<'m, '_>,
    around: Around,
    actuals: &[CoreActual],
    planned: PlannedStep,
    rest: Pending<'m>,
) -> Pending<'m> {
    let procedure = planned.before;
    let signature = signature_of(b, procedure.kind);
    let (callee, is_known) = callee_of(procedure.value);
    let passed = plan_actuals(b, signature.formals, actuals, None);
    let call = Call {
        callee,
        can_raise: signature.can_raise,
        result: planned.after,
    };
    let code = call_with(b, around, call, &passed, rest);
    let code = emit_actuals(b, around, actuals, signature.formals, &passed, code);
    if is_known {
        code
    } else {
        code.after(not_nil(procedure.value.word(), planned.pos))
    }
}

/// Code for the call of a method of an object, which is evaluated already.
#[cycle(expressions)]
pub fn emit_method<'m>(
    b: &mut Builder<'m, '_>,
    around: Around,
    method: Method,
    actuals: &[CoreActual],
    planned: PlannedStep,
    rest: Pending<'m>,
) -> Pending<'m> {
    let signature = signature_of_method(b, method);
    let place = b
        .storage
        .objects
        .method(b.storage.types, method.owner, method.place);
    let object = planned.before.value.word();
    let passed = plan_actuals(b, signature.formals, actuals, Some(object));
    let call = Call {
        callee: Callee::Method(place),
        can_raise: signature.can_raise,
        result: planned.after,
    };
    let code = call_with(b, around, call, &passed, rest);
    let code = emit_actuals(b, around, actuals, signature.formals, &passed, code);
    check_method(b, object, place, planned.pos, code)
}

/// Code for the actuals in the order of evaluation, and behind them the copies of open arrays in
/// the order of the formals.
#[cycle(expressions)]
fn emit_actuals<'m>(
    b: &mut Builder<'m, '_>,
    around: Around,
    actuals: &[CoreActual],
    formals: &[Formal],
    passed: &Passed,
    rest: Pending<'m>,
) -> Pending<'m> {
    let mut code = rest;
    let places = places_of(b, formals.len(), actuals);
    for place in places.iter().rev() {
        if let Some(actual) = actuals.get(*place as usize) {
            if let Some(PlannedActual::NewCell { from, cell, .. }) = passed
                .planned
                .get(*place as usize)
            {
                code = cleared_value(b, *from, code);
                code = copy_into_cell(b, around, kind_of_actual(actual), *from, *cell, code);
            }
        }
    }
    for place in (0..actuals.len()).rev() {
        if let (Some(actual), Some(planned)) = (actuals.get(place), passed.planned.get(place)) {
            code = emit_actual(b, around, actual, *planned, code);
        }
    }
    code
}

#[cycle(expressions)]
fn emit_actual<'m>(
    b: &mut Builder<'m, '_>,
    around: Around,
    actual: &CoreActual,
    planned: PlannedActual,
    rest: Pending<'m>,
) -> Pending<'m> {
    match actual {
        CoreActual::Place {
            kind,
            place,
            checks_shape,
            ..
        } => emit_place(b, around, *kind, place, *checks_shape, rest),
        CoreActual::Value { kind, value, .. } => match planned {
            PlannedActual::Scalar(planned) => emit_value(b, around, value, planned, rest),
            PlannedActual::Copied { at, is_made, .. } => {
                if is_made {
                    emit_structure(b, around, value, at, rest)
                } else {
                    structure_into(b, around, value, *kind, at, rest)
                }
            }
            PlannedActual::NewCell { made, .. } => emit_structure(b, around, value, made, rest),
            PlannedActual::Reference { place: made, .. }
            | PlannedActual::NewVariable { made, .. } => match b.storage.form(*kind) {
                Form::Open => emit_structure(b, around, value, made, rest),
                _ => value_into(b, around, value, *kind, made, rest),
            },
        },
    }
}

#[cycle(expressions)]
fn emit_place<'m>(
    b: &mut Builder<'m, '_>,
    around: Around,
    kind: TypeId,
    chain: &Chain,
    checks_shape: bool,
    rest: Pending<'m>,
) -> Pending<'m> {
    let at = b.top_stage().place();
    let code = if checks_shape {
        check_shape(b, chain.pos, kind, chain.kind, at, rest)
    } else {
        rest
    };
    emit_chain(b, around, chain, code)
}
