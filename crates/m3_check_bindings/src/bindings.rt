use bumpalo::collections::into_bump_slice;
use m3_base::NoMemory;
use m3_check_assigning::{finished, value_of};
use m3_check_bodies::{Body, NewVariable};
use m3_check_state::{Checker, State, Thing};
use m3_core::{Bound, Role, VarKind, WithBinding};
use m3_exprs::operand;
use m3_syntax::{Binding, Expr, Name};

/// What a name is bound to, and how it stands for it.
#[derive(Clone, Copy)]
pub struct Target<'a> {
    pub bound: Bound<'a>,
    pub kind: VarKind,
    pub is_read_only: bool,
}

/// What a name is bound to: the place of a designator, else a value.
pub fn target_of<'a>(
    checker: &mut Checker<'_, 'a>,
    value: &Expr<'a>,
) -> Result<Option<Target<'a>>, NoMemory> {
    checker.steps.clear();
    let thing = operand(checker, value)?;
    if let Thing::Chain(draft) = thing {
        if let State::Place {
            is_writable,
            is_designator: true,
        } = draft.state
        {
            return Ok(Some(Target {
                bound: Bound::Place(finished(checker, &draft, Some(draft.kind))?),
                kind: VarKind::Alias(draft.kind),
                is_read_only: !is_writable,
            }));
        }
    }
    match value_of(checker, value.pos(), &thing)? {
        Some(value) => Ok(Some(Target {
            bound: Bound::Value(value.core()),
            kind: VarKind::Variable(value.kind),
            is_read_only: true,
        })),
        None => Ok(None),
    }
}

/// Binds a name to what it stands for.
pub fn bind<'a>(
    checker: &mut Checker<'_, 'a>,
    body: &mut Body<'a>,
    name: Name<'a>,
    role: Role,
    target: &Target<'a>,
) -> Result<WithBinding<'a>, NoMemory> {
    let variable = body.add(
        checker,
        NewVariable {
            name,
            role,
            kind: target.kind,
            is_read_only: target.is_read_only,
        },
    )?;
    Ok(WithBinding {
        variable,
        bound: target.bound,
    })
}

/// Binds the names of a WITH in order, each seeing those before it.
pub fn bind_all<'a>(
    checker: &mut Checker<'_, 'a>,
    body: &mut Body<'a>,
    bindings: &[Binding<'a>],
) -> Result<&'a [WithBinding<'a>], NoMemory> {
    let mut bound = Vec::new(checker.arena);
    for binding in bindings {
        if let Some(target) = target_of(checker, binding.value)? {
            let made = bind(checker, body, binding.name, Role::With, &target)?;
            bound.push(made)?;
        }
    }
    Ok(into_bump_slice(bound))
}
