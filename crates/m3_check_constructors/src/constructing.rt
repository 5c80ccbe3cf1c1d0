use crate::arrays::array_of;
use crate::parts::{Made, Part, Written, judge_part};
use crate::records::record_of;
use crate::sets::set_of;
use m3_base::{NoMemory, rules};
use m3_check_state::{Checker, Thing};
use m3_types::{TypeId, TypeNode};

/// `T {..}`, by its type, which is none where it was refused (rule 63).
pub fn constructor<'a>(
    checker: &mut Checker<'_, 'a>,
    written: Written,
    kind: Option<TypeId>,
    parts: &[Part<'a>],
) -> Result<Thing<'a>, NoMemory> {
    let Some(kind) = kind else {
        judge_parts(checker, parts)?;
        return Ok(Thing::Bad);
    };
    let made = match checker.node(kind) {
        TypeNode::SetOf(base) => set_of(checker, written, kind, base, parts)?,
        TypeNode::Fields(_) => record_of(checker, written, kind, parts)?,
        TypeNode::FixedArray(_, element) | TypeNode::OpenArray(element) => {
            array_of(checker, written, kind, element, parts)?
        }
        _ => {
            judge_parts(checker, parts)?;
            Made::Wrong
        }
    };
    match made {
        Made::Wrong => Ok(checker.bad(written.brace, rules::BAD_CONSTRUCTOR)),
        Made::Bad => Ok(Thing::Bad),
        Made::Value(expr) => checker.value(expr, kind),
    }
}

/// Judges the parts of a constructor without a type.
fn judge_parts<'a>(checker: &mut Checker<'_, 'a>, parts: &[Part<'a>]) -> Result<(), NoMemory> {
    for part in parts {
        judge_part(checker, part)?;
    }
    Ok(())
}
