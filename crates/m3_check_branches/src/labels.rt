use bumpalo::collections::into_bump_slice;
use m3_base::{NoMemory, rules};
use m3_check_state::{Checker, Valued};
use m3_check_types::share_base;
use m3_core::{LabelRange, Value};
use m3_exprs::expression;
use m3_syntax::{CaseBranch, Expr, Label};
use std::collections::BTreeMap;

/// The labels of a CASE so far, which don't overlap: the last of each by its first.
type Labels = BTreeMap<i64, i64>;

/// What a bound of a label is.
#[derive(Clone, Copy)]
enum Found {
    /// Something in it, or the value of the CASE, was refused.
    Refused,
    /// No constant of the base type of the CASE's value.
    Wrong,
    Number(i64),
}

/// The values of the labels of each branch. `value` is what the CASE tests, none where it was
/// refused.
pub fn all_ranges<'a>(
    checker: &mut Checker<'_, 'a>,
    branches: &[CaseBranch<'a>],
    value: Option<Valued<'a>>,
) -> Result<&'a [&'a [LabelRange]], NoMemory> {
    let mut labels: Labels = BTreeMap::new(checker.alloc);
    add_ranges(checker, &mut labels, branches, value)
}

fn add_ranges<'a>(
    checker: &mut Checker<'_, 'a>,
    labels: &mut Labels,
    branches: &[CaseBranch<'a>],
    value: Option<Valued<'a>>,
) -> Result<&'a [&'a [LabelRange]], NoMemory> {
    let mut all = Vec::new(checker.arena);
    for branch in branches {
        let ranges = label_ranges(checker, labels, branch.labels, value)?;
        all.push(ranges)?;
    }
    Ok(into_bump_slice(all))
}

/// The values of the labels of the branch at a place.
pub fn ranges_at<'a>(all: &[&'a [LabelRange]], place: usize) -> &'a [LabelRange] {
    match all.get(place) {
        Some(ranges) => *ranges,
        None => &[],
    }
}

/// The values of the labels of a branch.
fn label_ranges<'a>(
    checker: &mut Checker<'_, 'a>,
    labels: &mut Labels,
    written: &[Label<'a>],
    value: Option<Valued<'a>>,
) -> Result<&'a [LabelRange], NoMemory> {
    let mut ranges = Vec::new(checker.arena);
    for label in written {
        if let Some(range) = label_range(checker, labels, label, value)? {
            ranges.push(range)?;
        }
    }
    Ok(into_bump_slice(ranges))
}

/// The values of a label (rule 73), none of which another label has (rule 74).
fn label_range<'a>(
    checker: &mut Checker<'_, 'a>,
    labels: &mut Labels,
    label: &Label<'a>,
    value: Option<Valued<'a>>,
) -> Result<Option<LabelRange>, NoMemory> {
    let first = label_bound(checker, label.first, value)?;
    let last = match label.last {
        Some(last) => label_bound(checker, last, value)?,
        None => first,
    };
    match (first, last) {
        (Found::Number(first), Found::Number(last)) => {
            if !take(labels, first, last)? {
                checker.note(label.first.pos(), rules::LABELS_OVERLAP);
            }
            Ok(Some(LabelRange { first, last }))
        }
        (Found::Wrong, _) | (Found::Number(_), Found::Wrong) => {
            checker.note(label.first.pos(), rules::BAD_CASE_LABEL);
            Ok(None)
        }
        _ => Ok(None),
    }
}

/// Takes the numbers of a label; false where another label has one of them.
fn take(labels: &mut Labels, first: i64, last: i64) -> Result<bool, NoMemory> {
    if first > last {
        return Ok(true);
    }
    if let Some((_, end)) = labels.range(..=last).next_back() {
        if *end >= first {
            return Ok(false);
        }
    }
    labels.insert(first, last)?;
    Ok(true)
}

/// A bound of a label: a constant of the value's base type.
fn label_bound<'a>(
    checker: &mut Checker<'_, 'a>,
    label: &Expr<'a>,
    value: Option<Valued<'a>>,
) -> Result<Found, NoMemory> {
    checker.steps.clear();
    let (Some(label_value), Some(value)) = (expression(checker, label)?, value) else {
        return Ok(Found::Refused);
    };
    if !share_base(checker, label_value.kind, value.kind)? {
        return Ok(Found::Wrong);
    }
    Ok(constant(checker, label))
}

/// The number of a constant expression.
fn constant<'a>(checker: &Checker<'_, 'a>, label: &Expr<'a>) -> Found {
    let Some(constant) = checker.declared.constant_at(checker.unit, label.pos()) else {
        return Found::Wrong;
    };
    match checker.declared.values.get(constant.value.0 as usize) {
        Some(Value::Number(number)) => Found::Number(*number),
        _ => Found::Wrong,
    }
}
