use crate::comparisons::compare_into;
use crate::sets::{combine_words, member_into};
use m3_base::Pos;
use m3_core::{CoreExpr, Operation, Operator, Prefix, PrefixOperator};
use m3_lower_state::{
    Around, Builder, Pending, Value, choice, kind_of_form, not_nil, set_temp, temp_in,
};
use m3_lower_storage::Form;
use m3_mid::{CheckedOperator, Kind, MidOp, Operand, Relation, Service};
use m3_types::TypeId;

/// A value with its type, which is none of a call without result.
#[derive(Clone, Copy)]
pub struct TypedValue {
    pub value: Value,
    pub kind: Option<TypeId>,
}

/// The operands of an operation, which are evaluated already.
#[derive(Clone, Copy)]
pub struct Operands {
    pub left: TypedValue,
    pub right: TypedValue,
}

impl Operands {
    /// The same ones in the other order.
    pub fn swapped(self) -> Operands {
        Operands {
            left: self.right,
            right: self.left,
        }
    }
}

/// Code that puts the result of an operation where it is wanted.
pub fn operate<'m>(
    b: &mut Builder<'m, '_>,
    around: Around,
    operation: &Operation,
    operands: Operands,
    target: Value,
    rest: Pending<'m>,
) -> Pending<'m> {
    let (operator, pos) = (operation.operator, operation.pos);
    match operator {
        Operator::Plus => arithmetic(CheckedOperator::Add, operands, target, pos, rest),
        Operator::Minus => arithmetic(CheckedOperator::Subtract, operands, target, pos, rest),
        Operator::Times => arithmetic(CheckedOperator::Multiply, operands, target, pos, rest),
        Operator::Div => arithmetic(CheckedOperator::Div, operands, target, pos, rest),
        Operator::Mod => arithmetic(CheckedOperator::Mod, operands, target, pos, rest),
        Operator::Union
        | Operator::Difference
        | Operator::Intersection
        | Operator::SymmetricDifference => combine_words(b, operator, operands, target, rest),
        Operator::Concatenate => rest.after(concatenated(b, around, operands, target, pos)),
        Operator::In => member_into(b, operands, target.word(), rest),
        Operator::Compare(relation, compared) => {
            compare_into(b, relation, compared, operands, target.word(), rest)
        }
        Operator::Or | Operator::And => rest,
    }
}

fn arithmetic<'m>(
    operator: CheckedOperator,
    operands: Operands,
    target: Value,
    pos: Pos,
    rest: Pending<'m>,
) -> Pending<'m> {
    rest.after(MidOp::Checked {
        to: temp_in(target.word()),
        operator,
        left: operands.left.value.word(),
        right: operands.right.value.word(),
        pos,
    })
}

fn concatenated<'m>(
    b: &mut Builder<'m, '_>,
    around: Around,
    operands: Operands,
    target: Value,
    pos: Pos,
) -> MidOp<'m> {
    let operands = [operands.left.value.word(), operands.right.value.word()];
    let operands = b.operand_row(&operands);
    let shown = b.shown(around);
    MidOp::Service {
        service: Service::Concatenate,
        operands,
        to: Some(temp_in(target.word())),
        raised: None,
        pos,
        shown,
    }
}

/// The check that an operand of a concatenation isn't NIL.
pub fn check_text<'m>(
    operation: &Operation,
    operand: &CoreExpr,
    value: Value,
    rest: Pending<'m>,
) -> Pending<'m> {
    if operation.operator != Operator::Concatenate || is_made_text(operand) {
        return rest;
    }
    rest.after(not_nil(value.word(), operand.pos()))
}

/// Whether an expression is a text that is never NIL.
pub fn is_made_text(e: &CoreExpr) -> bool {
    match e {
        CoreExpr::Text { .. } => true,
        CoreExpr::Operations { rest, .. } => match rest.last() {
            Some(operation) => operation.operator == Operator::Concatenate,
            None => false,
        },
        _ => false,
    }
}

/// The value at a place of a row.
pub fn value_at(values: &[Value], place: usize) -> Value {
    match values.get(place) {
        Some(value) => *value,
        None => Value::Nothing,
    }
}

/// The value that is to hold the result of an operation.
pub fn result_of(b: &mut Builder, kind: TypeId) -> Value {
    match b.storage.form(kind) {
        Form::Numbers(count) => Value::Words {
            first: b.temps(Kind::Number, count),
            count,
        },
        form => Value::Word(Operand::Temp(b.temp(kind_of_form(form)))),
    }
}

/// Code that puts what an operator makes of its operand into a temporary.
pub fn prefix_into<'m>(
    b: &mut Builder<'m, '_>,
    prefix: Prefix,
    from: Operand,
    to: u32,
    rest: Pending<'m>,
) -> Pending<'m> {
    match prefix.operator {
        PrefixOperator::Not => rest.after(MidOp::Compare {
            to,
            relation: Relation::Equal,
            left: from,
            right: Operand::Number(0),
        }),
        PrefixOperator::Minus => rest.after(negated(from, to, prefix.pos)),
        PrefixOperator::Abs => {
            let join = b.seal(rest);
            let below = b.goto(join).after(negated(from, to, prefix.pos));
            let below = b.seal(below);
            let above = b.goto(join).after(set_temp(to, from));
            let above = b.seal(above);
            choice(b, Relation::Less, from, Operand::Number(0), below, above)
        }
    }
}

fn negated(from: Operand, to: u32, pos: Pos) -> MidOp<'static> {
    MidOp::Checked {
        to,
        operator: CheckedOperator::Subtract,
        left: Operand::Number(0),
        right: from,
        pos,
    }
}

/// Whether a row of operators is one of AND or OR.
pub fn is_short(row: &[Operation]) -> bool {
    match row.first() {
        Some(operation) => matches!(operation.operator, Operator::And | Operator::Or),
        None => false,
    }
}

/// Whether an odd number of NOTs stands before an operand.
pub fn is_turned(operators: &[Prefix]) -> bool {
    let mut turned = false;
    for prefix in operators {
        if prefix.operator == PrefixOperator::Not {
            turned = !turned;
        }
    }
    turned
}
