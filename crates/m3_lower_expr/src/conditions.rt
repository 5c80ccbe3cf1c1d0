use crate::exprs::fetch;
use crate::rows::{emit_row, operations_into};
use m3_core::{Compared, CoreExpr, Operator};
use m3_lower_actuals::fold_before;
use m3_lower_operators::{is_short, is_turned, ordered, tested};
use m3_lower_places::source;
use m3_lower_state::{Around, Builder, Pending, Value, choice};
use m3_mid::{Kind, Operand, Relation};

/// Code that evaluates a BOOLEAN expression and goes on at one block where it is TRUE, else at
/// another.
#[cycle(expressions)]
pub fn condition<'m>(
    b: &mut Builder<'m, '_>,
    around: Around,
    e: &CoreExpr,
    yes: u32,
    no: u32,
) -> Pending<'m> {
    match e {
        CoreExpr::Number { value, .. } => { if *value != 0 { b.goto(yes) } else { b.goto(no) } }
        CoreExpr::Prefixed {
            operators,
            operand,
            ..
        } => {
            if is_turned(operators) {
                condition(b, around, operand, no, yes)
            } else {
                condition(b, around, operand, yes, no)
            }
        }
        CoreExpr::Operations { .. } => row_condition(b, around, e, yes, no),
        CoreExpr::TypeTest {
            operand,
            tested: kind,
            ..
        } => {
            let value = source(b, operand);
            let code = tested(b, *kind, value, yes, no);
            fetch(b, around, operand, value, code)
        }
        _ => word_condition(b, around, e, yes, no),
    }
}

#[cycle(expressions)]
fn word_condition<'m>(
    b: &mut Builder<'m, '_>,
    around: Around,
    e: &CoreExpr,
    yes: u32,
    no: u32,
) -> Pending<'m> {
    let value = source(b, e);
    let code = choice(b, Relation::NotEqual, value, Operand::Number(0), yes, no);
    fetch(b, around, e, value, code)
}

#[cycle(expressions)]
fn row_condition<'m>(
    b: &mut Builder<'m, '_>,
    around: Around,
    e: &CoreExpr,
    yes: u32,
    no: u32,
) -> Pending<'m> {
    let CoreExpr::Operations {
        first,
        rest: row,
        ..
    } = e
    else {
        return b.goto(no);
    };
    if is_short(row) {
        return short_condition(b, around, e, yes, no);
    }
    let count = row.len().saturating_sub(1);
    let Some(last) = row.get(count) else {
        return b.goto(no);
    };
    if let Operator::Compare(relation, Compared::Ordinals | Compared::References) = last.operator {
        let (left, planned) = fold_before(b, first, row, count);
        let right = source(b, last.right);
        let (relation, x, y) = ordered(relation, left, right);
        let code = choice(b, relation, x, y, yes, no);
        let code = fetch(b, around, last.right, right, code);
        return emit_row(b, around, e, count, &planned, code);
    }
    let value = Operand::Temp(b.temp(Kind::Number));
    let code = choice(b, Relation::NotEqual, value, Operand::Number(0), yes, no);
    operations_into(b, around, e, Value::Word(value), code)
}

/// A row of AND or OR: each operand is evaluated only where those before it haven't decided.
#[cycle(expressions)]
pub fn short_condition<'m>(
    b: &mut Builder<'m, '_>,
    around: Around,
    e: &CoreExpr,
    yes: u32,
    no: u32,
) -> Pending<'m> {
    let CoreExpr::Operations {
        first,
        rest: row,
        ..
    } = e
    else {
        return b.goto(no);
    };
    let mut next_yes = yes;
    let mut next_no = no;
    for place in (0..row.len()).rev() {
        if let Some(operation) = row.get(place) {
            let code = condition(b, around, operation.right, next_yes, next_no);
            let block = b.seal(code);
            if operation.operator == Operator::And {
                next_yes = block;
            } else {
                next_no = block;
            }
        }
    }
    condition(b, around, first, next_yes, next_no)
}
