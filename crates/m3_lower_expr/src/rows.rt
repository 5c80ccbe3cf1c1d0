use crate::exprs::{emit_value, fetch};
use m3_core::{BuiltinCall, CoreExpr, Prefix, SetElement};
use m3_lower_actuals::{Row, plan_operands, plan_row, plan_set_element};
use m3_lower_arrays::first_member;
use m3_lower_operators::{
    PlannedElement, TempRow, action, add_bits, check_operand, check_text, move_row, operand_at,
    operate, prefix_into, value_at, zero_temps,
};
use m3_lower_places::source;
use m3_lower_state::{Around, Builder, Pending, Value, temp_in};
use m3_mid::{Kind, Operand};
use m3_types::TypeId;

/// Code that puts the result of a row of operations where it is wanted; that is set last of all.
#[cycle(expressions)]
pub fn operations_into<'m>(
    b: &mut Builder<'m, '_>,
    around: Around,
    e: &CoreExpr,
    to: Value,
    rest: Pending<'m>,
) -> Pending<'m> {
    let CoreExpr::Operations {
        first,
        rest: row,
        ..
    } = e
    else {
        return rest;
    };
    let planned = plan_row(b, first, row, row.len(), Some(to));
    emit_row(b, around, e, row.len(), &planned, rest)
}

/// Code for so many operations of a row, from the first one on; for none it is that of the first
/// operand.
#[cycle(expressions)]
pub fn emit_row<'m>(
    b: &mut Builder<'m, '_>,
    around: Around,
    e: &CoreExpr,
    count: usize,
    planned: &Row,
    rest: Pending<'m>,
) -> Pending<'m> {
    let CoreExpr::Operations {
        first,
        rest: row,
        ..
    } = e
    else {
        return rest;
    };
    let mut code = rest;
    for place in (0..count).rev() {
        if let Some(operation) = row.get(place) {
            let operands = planned.operands_at(first, row, place);
            let (left, right) = (operands.left.value, operands.right.value);
            let result = value_at(&planned.results, place);
            code = operate(b, around, operation, operands, result, code);
            code = check_text(operation, operation.right, right, code);
            code = emit_value(b, around, operation.right, right, code);
            if place == 0 {
                code = check_text(operation, first, left, code);
            }
        }
    }
    emit_value(b, around, first, planned.left, code)
}

/// Code that puts the value of an operand behind operators into a temporary.
#[cycle(expressions)]
pub fn prefixed_into<'m>(
    b: &mut Builder<'m, '_>,
    around: Around,
    operators: &[Prefix],
    operand: &CoreExpr,
    to: u32,
    rest: Pending<'m>,
) -> Pending<'m> {
    let inner = source(b, operand);
    let mut code = rest;
    let mut target = to;
    for (place, prefix) in operators.iter().enumerate() {
        let is_last = place.saturating_add(1) == operators.len();
        let from = if is_last {
            inner
        } else {
            Operand::Temp(b.temp(Kind::Number))
        };
        code = prefix_into(b, *prefix, from, target, code);
        target = temp_in(from);
    }
    fetch(b, around, operand, inner, code)
}

/// Code that puts the set of some elements into temporaries in a row.
#[cycle(expressions)]
pub fn set_into<'m>(
    b: &mut Builder<'m, '_>,
    around: Around,
    kind: TypeId,
    elements: &[SetElement],
    to: TempRow,
    rest: Pending<'m>,
) -> Pending<'m> {
    let start = first_member(b, kind);
    let sum = TempRow {
        first: b.temps(Kind::Number, to.count),
        count: to.count,
    };
    let mut code = move_row(to.first, sum, rest);
    for place in (0..elements.len()).rev() {
        if let Some(element) = elements.get(place) {
            let planned = plan_set_element(b, element);
            code = add_bits(b, planned, start, sum, code);
            code = emit_set_element(b, around, element, planned, code);
        }
    }
    zero_temps(sum, code)
}

#[cycle(expressions)]
fn emit_set_element<'m>(
    b: &mut Builder<'m, '_>,
    around: Around,
    element: &SetElement,
    planned: PlannedElement,
    rest: Pending<'m>,
) -> Pending<'m> {
    match element {
        SetElement::One(e) => fetch(b, around, e, planned.first, rest),
        SetElement::Range(first, last) => {
            let code = match planned.last {
                Some(operand) => fetch(b, around, last, operand, rest),
                None => rest,
            };
            fetch(b, around, first, planned.first, code)
        }
    }
}

/// Code for the call of a routine, whose result goes into a temporary where one is wanted.
#[cycle(expressions)]
pub fn builtin_into<'m>(
    b: &mut Builder<'m, '_>,
    around: Around,
    call: &BuiltinCall,
    to: Option<u32>,
    rest: Pending<'m>,
) -> Pending<'m> {
    let operands = plan_operands(b, call.actuals);
    let code = action(b, around, call, operands.as_slice(), to, rest);
    emit_operands(b, around, call, operands.as_slice(), code)
}

/// Code for the actuals in the order of evaluation, each with the checks that come right behind
/// it.
#[cycle(expressions)]
fn emit_operands<'m>(
    b: &mut Builder<'m, '_>,
    around: Around,
    call: &BuiltinCall,
    operands: &[Operand],
    rest: Pending<'m>,
) -> Pending<'m> {
    let mut code = rest;
    for place in (0..call.order.len()).rev() {
        let actual = match call.order.get(place) {
            Some(actual) => *actual as usize,
            None => place,
        };
        if let Some(e) = call.actuals.get(actual) {
            let operand = operand_at(operands, actual);
            code = check_operand(b, call, actual, e, operand, code);
            code = fetch(b, around, e, operand, code);
        }
    }
    code
}
