use crate::chains::plan_value;
use m3_core::{CoreExpr, Operation, SetElement};
use m3_lower_operators::{Operands, PlannedElement, TypedValue, result_of, value_at};
use m3_lower_places::source;
use m3_lower_state::{Builder, Value, kind_of};
use m3_mid::Operand;

/// What the operands of a row and its results will be: first the leftmost operand, and then for
/// each operation its right operand and its result.
#[derive(Drop)]
pub struct Row {
    pub left: Value,
    pub rights: Vec<Value>,
    pub results: Vec<Value>,
}

impl Row {
    /// The operands of an operation of the row that was planned, by its place.
    pub fn operands_at(&self, first: &CoreExpr, row: &[Operation], place: usize) -> Operands {
        let left = match place.checked_sub(1) {
            Some(before) => TypedValue {
                value: value_at(&self.results, before),
                kind: match row.get(before) {
                    Some(operation) => Some(operation.kind),
                    None => None,
                },
            },
            None => TypedValue {
                value: self.left,
                kind: kind_of(first),
            },
        };
        let right = TypedValue {
            value: value_at(&self.rights, place),
            kind: match row.get(place) {
                Some(operation) => kind_of(operation.right),
                None => None,
            },
        };
        Operands { left, right }
    }
}

/// Plans so many operations of a row, the last result of which goes where it is wanted.
pub fn plan_row<'m>(
    b: &mut Builder<'m, '_>,
    first: &CoreExpr,
    row: &[Operation],
    count: usize,
    to: Option<Value>,
) -> Row {
    let mut planned = Row {
        left: plan_value(b, first),
        rights: Vec::new(b.alloc),
        results: Vec::new(b.alloc),
    };
    for place in 0..count {
        if let Some(operation) = row.get(place) {
            let right = plan_value(b, operation.right);
            let is_last = place.saturating_add(1) == count;
            let result = match (is_last, to) {
                (true, Some(to)) => to,
                _ => result_of(b, operation.kind),
            };
            if planned.rights.push(right).is_err() || planned.results.push(result).is_err() {
                b.fail();
            }
        }
    }
    planned
}

/// Plans so many operations of a row, and tells the operand that holds their result.
pub fn fold_before<'m>(
    b: &mut Builder<'m, '_>,
    first: &CoreExpr,
    row: &[Operation],
    count: usize,
) -> (Operand, Row) {
    if count == 0 {
        let left = source(b, first);
        let planned = Row {
            left: Value::Word(left),
            rights: Vec::new(b.alloc),
            results: Vec::new(b.alloc),
        };
        return (left, planned);
    }
    let planned = plan_row(b, first, row, count, None);
    let left = value_at(&planned.results, count.saturating_sub(1)).word();
    (left, planned)
}

/// What the members of an element of a set constructor will be.
pub fn plan_set_element(b: &mut Builder, element: &SetElement) -> PlannedElement {
    match element {
        SetElement::One(e) => PlannedElement {
            first: source(b, e),
            last: None,
        },
        SetElement::Range(first, last) => PlannedElement {
            first: source(b, first),
            last: Some(source(b, last)),
        },
    }
}

/// What the actuals of a routine will be.
pub fn plan_operands<'m>(b: &mut Builder<'m, '_>, actuals: &[CoreExpr]) -> Vec<Operand> {
    let mut operands = Vec::new(b.alloc);
    for actual in actuals {
        let operand = source(b, actual);
        if operands.push(operand).is_err() {
            b.fail();
        }
    }
    operands
}

/// What the sizes of a new cell will be.
pub fn plan_sizes<'m>(b: &mut Builder<'m, '_>, sizes: &[CoreExpr]) -> Vec<Operand> {
    let mut counts = Vec::new(b.alloc);
    for size in sizes {
        let count = source(b, size);
        if counts.push(count).is_err() {
            b.fail();
        }
    }
    counts
}
