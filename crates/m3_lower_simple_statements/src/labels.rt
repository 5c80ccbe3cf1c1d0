use m3_core::LabelRange;
use m3_lower_operators::tested;
use m3_lower_state::{Builder, Pending, choice};
use m3_mid::{Operand, Relation};
use m3_types::TypeId;

/// The numbers of a branch of CASE, and its block.
#[derive(Clone, Copy, PartialEq, Eq, PartialOrd, Ord)]
pub struct Label {
    pub first: i64,
    pub last: i64,
    pub block: u32,
}

/// Goes to the block of the label that has a number, among so many labels from one on; all are in
/// order.
pub fn search<'m>(
    b: &mut Builder<'m, '_>,
    value: Operand,
    labels: &[Label],
    start: usize,
    count: usize,
    none: u32,
) -> Pending<'m> {
    let half = count / 2;
    let middle = start.saturating_add(half);
    let Some(label) = labels.get(middle) else {
        return b.goto(none);
    };
    if count <= 1 {
        return one_label(b, value, *label, none);
    }
    let before = search(b, value, labels, start, half, none);
    let before = b.seal(before);
    let behind = search(b, value, labels, middle, count - half, none);
    let behind = b.seal(behind);
    let first = Operand::Number(label.first);
    choice(b, Relation::Less, value, first, before, behind)
}

fn one_label<'m>(b: &mut Builder<'m, '_>, value: Operand, label: Label, none: u32) -> Pending<'m> {
    let first = Operand::Number(label.first);
    if label.first == label.last {
        return choice(b, Relation::Equal, value, first, label.block, none);
    }
    let last = Operand::Number(label.last);
    let code = choice(b, Relation::LessEqual, value, last, label.block, none);
    let inner = b.seal(code);
    choice(b, Relation::LessEqual, first, value, inner, none)
}

/// Adds the labels of a branch, without those that have no value.
pub fn add_labels(b: &mut Builder, ranges: &[LabelRange], block: u32, labels: &mut Vec<Label>) {
    for range in ranges {
        let label = Label {
            first: range.first,
            last: range.last,
            block,
        };
        if range.first <= range.last && labels.push(label).is_err() {
            b.fail();
        }
    }
}

/// Goes to a block where a reference is of one of some types.
pub fn test_types<'m>(
    b: &mut Builder<'m, '_>,
    types: &[TypeId],
    value: Operand,
    block: u32,
    rest: Pending<'m>,
) -> Pending<'m> {
    let mut code = rest;
    for kind in types.iter().rev() {
        let no = b.seal(code);
        code = tested(b, *kind, value, block, no);
    }
    code
}

/// Goes to a block where the exception that travels is one of some.
pub fn test_exceptions<'m>(
    b: &mut Builder<'m, '_>,
    exceptions: &[u32],
    block: u32,
    rest: Pending<'m>,
) -> Pending<'m> {
    let mut code = rest;
    for exception in exceptions.iter().rev() {
        let no = b.seal(code);
        let left = Operand::Temp(b.raised.exception);
        let right = Operand::Number(i64::from(*exception).wrapping_add(1));
        code = choice(b, Relation::Equal, left, right, block, no);
    }
    code
}
