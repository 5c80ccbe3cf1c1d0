use crate::bodies::{Body, NewVariable};
use bumpalo::Bump;
use bumpalo::collections::into_bump_slice;
use m3_base::NoMemory;
use m3_check_state::Checker;
use m3_check_types::formals_of;
use m3_core::{Role, VarKind};
use m3_syntax::{Decl, Formal, Mode, Name, Signature, VarDecl};
use m3_types::TypeId;

/// The variables that a block declares, by their places.
pub fn declare_locals<'a>(
    checker: &mut Checker<'_, 'a>,
    body: &mut Body<'a>,
    declarations: &[Decl<'a>],
) -> Result<&'a [u32], NoMemory> {
    let mut variables = Vec::new(checker.arena);
    for declaration in declarations {
        if let Decl::Var {
            variables: rows,
            ..
        } = declaration
        {
            declare_rows(checker, body, &mut variables, rows)?;
        }
    }
    Ok(into_bump_slice(variables))
}

fn declare_rows<'a>(
    checker: &mut Checker<'_, 'a>,
    body: &mut Body<'a>,
    variables: &mut Vec<u32, &'a Bump>,
    rows: &[VarDecl<'a>],
) -> Result<(), NoMemory> {
    for row in rows {
        for name in row.names {
            declare_local(checker, body, variables, *name)?;
        }
    }
    Ok(())
}

/// Declares a variable, if its type is known.
fn declare_local<'a>(
    checker: &mut Checker<'_, 'a>,
    body: &mut Body<'a>,
    variables: &mut Vec<u32, &'a Bump>,
    name: Name<'a>,
) -> Result<(), NoMemory> {
    let Some(kind) = checker.kind_of_variable(name) else {
        return Ok(());
    };
    let place = body.add(
        checker,
        NewVariable {
            name,
            role: Role::Local,
            kind: VarKind::Variable(kind),
            is_read_only: false,
        },
    )?;
    variables.push(place)?;
    Ok(())
}

/// Makes the variable that a loop, a handler or a branch binds, if its type is known, and gives its
/// place. That of a loop is read only.
pub fn bound_variable<'a>(
    checker: &mut Checker<'_, 'a>,
    body: &mut Body<'a>,
    name: Name<'a>,
    role: Role,
    kind: Option<TypeId>,
) -> Result<Option<u32>, NoMemory> {
    let Some(kind) = kind else {
        return Ok(None);
    };
    let variable = NewVariable {
        name,
        role,
        kind: VarKind::Variable(kind),
        is_read_only: matches!(role, Role::For),
    };
    Ok(Some(body.add(checker, variable)?))
}

/// Makes the formals of a procedure, whose type is known.
pub fn declare_formals<'a>(
    checker: &mut Checker<'_, 'a>,
    body: &mut Body<'a>,
    signature: &Signature<'a>,
    kind: TypeId,
) -> Result<(), NoMemory> {
    for group in signature.formals {
        declare_group(checker, body, group, kind)?;
    }
    Ok(())
}

fn declare_group<'a>(
    checker: &mut Checker<'_, 'a>,
    body: &mut Body<'a>,
    group: &Formal<'a>,
    kind: TypeId,
) -> Result<(), NoMemory> {
    for name in group.names {
        let place = body.formals.len();
        let Some(formal) = formals_of(checker, kind).get(place) else {
            return Ok(());
        };
        let kind = match group.mode {
            Mode::Value => VarKind::ByValue(formal.kind),
            Mode::Var => VarKind::ByVar(formal.kind),
            Mode::Readonly => VarKind::ByReadonly(formal.kind),
        };
        body.add(
            checker,
            NewVariable {
                name: *name,
                role: Role::Formal,
                kind,
                is_read_only: group.mode == Mode::Readonly,
            },
        )?;
    }
    Ok(())
}
