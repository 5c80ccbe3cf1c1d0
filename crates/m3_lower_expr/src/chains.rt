use crate::calls::{emit_call, emit_method};
use crate::exprs::{emit_value, fetch};
use m3_base::Pos;
use m3_core::{ArrayLimit, Base, Chain, CoreExpr, Step};
use m3_lower_actuals::{Method, plan_chain};
use m3_lower_arrays::{
    Subarray, check_index, check_subarray, index_of, indexed, known_distance, limit_of,
    subarray_address,
};
use m3_lower_operators::TypedValue;
use m3_lower_places::{
    emit_alias, emit_keep, emit_local, emit_read, emit_reference, kind_before, kind_of_step, source,
};
use m3_lower_state::{Around, Builder, Pending, Place, Value, cleared_value};

/// A step whose values are planned: the place of its chain, what it is applied to, and what it
/// gives.
#[derive(Clone, Copy)]
pub struct PlannedStep {
    pub pos: Pos,
    pub before: TypedValue,
    pub after: TypedValue,
}

/// Code for a chain that was planned, with what follows it.
#[cycle(expressions)]
pub fn emit_chain<'m>(
    b: &mut Builder<'m, '_>,
    around: Around,
    chain: &Chain,
    rest: Pending<'m>,
) -> Pending<'m> {
    let mut code = rest;
    let mut after = b.pop_stage();
    for place in (0..chain.steps.len()).rev() {
        let before = b.pop_stage();
        if let Some(step) = chain.steps.get(place) {
            let planned = PlannedStep {
                pos: chain.pos,
                before: TypedValue {
                    value: before,
                    kind: kind_before(chain, place),
                },
                after: TypedValue {
                    value: after,
                    kind: kind_of_step(step),
                },
            };
            code = emit_step(b, around, step, planned, code);
        }
        after = before;
    }
    emit_base(b, around, chain, after, code)
}

#[cycle(expressions)]
fn emit_step<'m>(
    b: &mut Builder<'m, '_>,
    around: Around,
    step: &Step,
    planned: PlannedStep,
    rest: Pending<'m>,
) -> Pending<'m> {
    let (before, after) = (planned.before.value, planned.after.value);
    match step {
        Step::Read { .. } => emit_read(b, before.place(), after, rest),
        Step::Keep { kind } => emit_keep(b, before, after, *kind, rest),
        Step::Field { .. } => rest,
        Step::Dereference { .. } | Step::ObjectField { .. } => {
            emit_reference(b, planned.pos, before, after, rest)
        }
        Step::Element { index, .. } => emit_element(b, around, index, planned, rest),
        Step::Call { actuals, .. } => emit_call(b, around, actuals, planned, rest),
        Step::MethodCall {
            owner,
            method,
            actuals,
            ..
        } => {
            let method = Method {
                owner: *owner,
                place: *method,
            };
            emit_method(b, around, method, actuals, planned, rest)
        }
    }
}

#[cycle(expressions)]
fn emit_base<'m>(
    b: &mut Builder<'m, '_>,
    around: Around,
    chain: &Chain,
    value: Value,
    rest: Pending<'m>,
) -> Pending<'m> {
    match chain.base {
        Base::Global { .. } => rest,
        Base::Local {
            level,
            variable,
            kind,
        } => emit_local(b, level, variable, kind, value.place(), rest),
        Base::Alias {
            level,
            variable,
            ..
        } => emit_alias(b, level, variable, value.place(), rest),
        Base::Inner(inner) => emit_chain(b, around, inner, rest),
        Base::Subarray { .. } => emit_subarray(b, around, chain, value.place(), rest),
        Base::Value(e) => emit_value(b, around, e, value, rest),
    }
}

/// Code for an element: its index, the check, and its address.
#[cycle(expressions)]
fn emit_element<'m>(
    b: &mut Builder<'m, '_>,
    around: Around,
    index: &CoreExpr,
    planned: PlannedStep,
    rest: Pending<'m>,
) -> Pending<'m> {
    let Some(kind) = planned.before.kind else {
        return rest;
    };
    let array = planned.before.value.place();
    let element = planned.after.value.place();
    let known = index_of(index);
    let is_known = known_distance(b, array, Some(kind), known).is_some();
    let operand = source(b, index);
    let code = if is_known {
        rest
    } else {
        indexed(b, array, kind, operand, element, rest)
    };
    let code = check_index(b, array, kind, known, operand, code);
    fetch(b, around, index, operand, code)
}

/// Code for a SUBARRAY: the array's place, start and count, and one check.
#[cycle(expressions)]
fn emit_subarray<'m>(
    b: &mut Builder<'m, '_>,
    around: Around,
    chain: &Chain,
    place: Place,
    rest: Pending<'m>,
) -> Pending<'m> {
    let Base::Subarray {
        array,
        start,
        count,
        ..
    } = chain.base
    else {
        return rest;
    };
    let from = b.top_stage().place();
    let operand = source(b, start);
    let length = b.size_at(place.sizes);
    let subarray = Subarray {
        from,
        kind: array.kind,
        start: operand,
        count: length,
    };
    let code = subarray_address(b, subarray, place, rest);
    let code = check_subarray(b, subarray, chain.pos, code);
    let code = fetch(b, around, count, length, code);
    let code = fetch(b, around, start, operand, code);
    emit_chain(b, around, array, code)
}

/// FIRST, LAST or NUMBER of an array whose place is fixed.
#[cycle(expressions)]
pub fn array_limit<'m>(
    b: &mut Builder<'m, '_>,
    around: Around,
    limit: ArrayLimit,
    array: &Chain,
    to: u32,
    rest: Pending<'m>,
) -> Pending<'m> {
    let place = plan_chain(b, array).place();
    let code = cleared_value(b, place, rest);
    let code = match array.kind {
        Some(kind) => limit_of(b, limit, kind, place, to, code),
        None => code,
    };
    emit_chain(b, around, array, code)
}
