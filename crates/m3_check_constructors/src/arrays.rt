use crate::parts::{Judged, Made, Part, Written};
use bumpalo::collections::into_bump_slice;
use m3_base::NoMemory;
use m3_check_assigning::{assigned, value_given};
use m3_check_state::{Checker, Valued};
use m3_core::CoreExpr;
use m3_source::KnownShape;
use m3_types::{TypeId, TypeNode};

/// An array: each part is an element.
pub fn array_of<'a>(
    checker: &mut Checker<'_, 'a>,
    written: Written,
    kind: TypeId,
    element: TypeId,
    parts: &[Part<'a>],
) -> Result<Made<'a>, NoMemory> {
    let mut row = Vec::new(checker.arena);
    let mut judged = Judged {
        is_wrong: !takes(checker, kind, parts.len(), written.is_filled),
        is_bad: false,
    };
    for part in parts {
        if part.first.name.is_some() || part.last.is_some() {
            judged.is_wrong = true;
        }
        match element_of(checker, element, part)? {
            Some(value) => row.push(*value.core())?,
            None => judged.is_bad = true,
        }
    }
    if !judged.is_bad && !has_known_rows(checker, element, &row) {
        judged.is_wrong = true;
    }
    Ok(judged.make(CoreExpr::ArrayOf {
        pos: written.pos,
        kind,
        elements: into_bump_slice(row),
        is_filled: written.is_filled,
    }))
}

fn element_of<'a>(
    checker: &mut Checker<'_, 'a>,
    element: TypeId,
    part: &Part<'a>,
) -> Result<Option<Valued<'a>>, NoMemory> {
    let first = assigned(checker, &part.first, element)?;
    match &part.last {
        Some(last) => value_given(checker, last),
        None => Ok(first),
    }
}

/// Whether constants fix the shape of each row, where rows are open arrays.
fn has_known_rows(checker: &Checker<'_, '_>, element: TypeId, rows: &[CoreExpr<'_>]) -> bool {
    if !matches!(checker.node(element), TypeNode::OpenArray(_)) {
        return true;
    }
    for row in rows {
        if !has_known_shape(checker, row) {
            return false;
        }
    }
    true
}

/// Whether a row is of a fixed array type, a constant or an array that is written out.
fn has_known_shape(checker: &Checker<'_, '_>, row: &CoreExpr<'_>) -> bool {
    match KnownShape::of(row) {
        KnownShape::Written { .. } | KnownShape::Constant { .. } => true,
        KnownShape::Typed(Some(kind)) => matches!(checker.node(kind), TypeNode::FixedArray(_, _)),
        KnownShape::Typed(None) => false,
    }
}

/// Whether an array of a type may have so many elements written.
fn takes(checker: &Checker<'_, '_>, kind: TypeId, written: usize, is_filled: bool) -> bool {
    let TypeNode::FixedArray(index, _) = checker.node(kind) else {
        return !is_filled;
    };
    let members = checker.declared.types.member_count(index);
    let written = written as u128;
    written == members || is_filled && written < members
}
