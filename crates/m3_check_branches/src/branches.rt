use bumpalo::collections::into_bump_slice;
use m3_base::{NoMemory, Pos, rules};
use m3_check_bodies::{Body, bound_variable};
use m3_check_names::type_of;
use m3_check_state::{Checker, Valued};
use m3_check_types::{is_reference, is_subtype};
use m3_core::Role;
use m3_syntax::{Name, TypeExp};
use m3_types::TypeId;

/// The types of a branch that were not refused.
pub fn branch_types<'a>(
    checker: &mut Checker<'_, 'a>,
    kinds: &[TypeExp<'a>],
    value: Option<Valued<'a>>,
) -> Result<&'a [TypeId], NoMemory> {
    let mut types = Vec::new(checker.arena);
    for kind in kinds {
        if let Some(found) = type_of(checker, kind) {
            judge_type(checker, kind.pos(), found, value)?;
            types.push(found)?;
        }
    }
    Ok(into_bump_slice(types))
}

fn judge_type<'a>(
    checker: &mut Checker<'_, 'a>,
    pos: Pos,
    kind: TypeId,
    value: Option<Valued<'a>>,
) -> Result<(), NoMemory> {
    let Some(value) = value else {
        return Ok(());
    };
    if !is_reference(checker, value.kind) || !is_subtype(checker, kind, value.kind)? {
        checker.note(pos, rules::BAD_TYPECASE_TYPE);
    }
    Ok(())
}

/// The variable of a branch: of the branch's type where that is the only one, else of the value's.
pub fn branch_variable<'a>(
    checker: &mut Checker<'_, 'a>,
    body: &mut Body<'a>,
    name: Option<Name<'a>>,
    types: (&[TypeId], usize),
    value: Option<Valued<'a>>,
) -> Result<Option<u32>, NoMemory> {
    let kind = match (types.0, types.1, value) {
        ([only], 1, _) => Some(*only),
        (_, 1, _) => None,
        (_, _, Some(value)) => Some(value.kind),
        _ => None,
    };
    match name {
        Some(name) => bound_variable(checker, body, name, Role::TypeCase, kind),
        None => Ok(None),
    }
}
