use crate::parts::{Judged, Made, Part, Written};
use bumpalo::collections::into_bump_slice;
use m3_base::NoMemory;
use m3_check_assigning::assigned;
use m3_check_state::Checker;
use m3_core::{CoreExpr, SetElement};
use m3_types::TypeId;

/// A set: each part is an element of its base type, or a range of such.
pub fn set_of<'a>(
    checker: &mut Checker<'_, 'a>,
    written: Written,
    kind: TypeId,
    base: TypeId,
    parts: &[Part<'a>],
) -> Result<Made<'a>, NoMemory> {
    let mut row = Vec::new(checker.arena);
    let mut judged = Judged {
        is_wrong: written.is_filled,
        is_bad: false,
    };
    for part in parts {
        if part.first.name.is_some() {
            judged.is_wrong = true;
        }
        match element(checker, base, part)? {
            Some(element) => row.push(element)?,
            None => judged.is_bad = true,
        }
    }
    Ok(judged.make(CoreExpr::SetOf {
        pos: written.pos,
        kind,
        elements: into_bump_slice(row),
    }))
}

fn element<'a>(
    checker: &mut Checker<'_, 'a>,
    base: TypeId,
    part: &Part<'a>,
) -> Result<Option<SetElement<'a>>, NoMemory> {
    let first = assigned(checker, &part.first, base)?;
    let Some(last) = &part.last else {
        return Ok(match first {
            Some(only) => Some(SetElement::One(only.core())),
            None => None,
        });
    };
    let last = assigned(checker, last, base)?;
    match (first, last) {
        (Some(first), Some(last)) => Ok(Some(SetElement::Range(first.core(), last.core()))),
        _ => Ok(None),
    }
}
