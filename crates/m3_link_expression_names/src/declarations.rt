use crate::expressions::walk_expression;
use crate::types::{walk_init, walk_type};
use m3_base::{NoMemory, Pos, rules};
use m3_link_scopes::{Declaration, Entity, EntityId, EntityKind, Linker, Revealed};
use m3_syntax::{ConstDecl, Decl, ExceptionDecl, Name, Revelation, Signature, TypeDecl, VarDecl};

/// Declares the names of declarations in the innermost scope, which is that of a unit itself where
/// `is_outermost`.
pub fn declare_all<'a>(
    linker: &mut Linker<'a>,
    declarations: &'a [Decl<'a>],
    is_outermost: bool,
) -> Result<(), NoMemory> {
    for declaration in declarations {
        declare_row(linker, declaration, is_outermost)?;
    }
    Ok(())
}

fn declare_one<'a>(
    linker: &mut Linker<'a>,
    is_outermost: bool,
    name: Name<'a>,
    kind: EntityKind,
    declaration: Declaration<'a>,
) -> Result<(), NoMemory> {
    let declaration = linker.keep(declaration)?;
    let entity = Entity {
        declaration: Some(declaration),
        is_outermost,
        ..linker.entity(name, kind)
    };
    linker.declare(name, entity)
}

fn declare_row<'a>(
    linker: &mut Linker<'a>,
    declaration: &'a Decl<'a>,
    is_outermost: bool,
) -> Result<(), NoMemory> {
    match declaration {
        Decl::Const { constants, .. } => declare_constants(linker, constants, is_outermost),
        Decl::Type { types, .. } => declare_types(linker, types, is_outermost),
        Decl::Exception { exceptions, .. } => declare_exceptions(linker, exceptions, is_outermost),
        Decl::Var { variables, .. } => declare_variables(linker, variables, is_outermost),
        Decl::Procedure {
            pos,
            name,
            signature,
            body,
        } => {
            let declaration = linker.keep(Declaration::Procedure {
                pos: *pos,
                signature,
            })?;
            let entity = Entity {
                declaration: Some(declaration),
                has_body: body.is_some(),
                is_outermost,
                ..linker.entity(*name, EntityKind::Procedure)
            };
            linker.declare(*name, entity)
        }
        Decl::Reveal { .. } => Ok(()),
    }
}

fn declare_constants<'a>(
    linker: &mut Linker<'a>,
    constants: &'a [ConstDecl<'a>],
    is_outermost: bool,
) -> Result<(), NoMemory> {
    for constant in constants {
        let declaration = Declaration::Constant(constant);
        let kind = EntityKind::Constant;
        declare_one(linker, is_outermost, constant.name, kind, declaration)?;
    }
    Ok(())
}

fn declare_types<'a>(
    linker: &mut Linker<'a>,
    types: &'a [TypeDecl<'a>],
    is_outermost: bool,
) -> Result<(), NoMemory> {
    for declared in types {
        let kind = if declared.is_opaque {
            EntityKind::Opaque
        } else {
            EntityKind::Type
        };
        let declaration = Declaration::Type(declared);
        declare_one(linker, is_outermost, declared.name, kind, declaration)?;
    }
    Ok(())
}

fn declare_exceptions<'a>(
    linker: &mut Linker<'a>,
    exceptions: &'a [ExceptionDecl<'a>],
    is_outermost: bool,
) -> Result<(), NoMemory> {
    for exception in exceptions {
        let declaration = Declaration::Exception(exception);
        let kind = EntityKind::Exception;
        declare_one(linker, is_outermost, exception.name, kind, declaration)?;
    }
    Ok(())
}

fn declare_variables<'a>(
    linker: &mut Linker<'a>,
    variables: &'a [VarDecl<'a>],
    is_outermost: bool,
) -> Result<(), NoMemory> {
    for row in variables {
        declare_row_of_variables(linker, row, is_outermost)?;
    }
    Ok(())
}

fn declare_row_of_variables<'a>(
    linker: &mut Linker<'a>,
    row: &'a VarDecl<'a>,
    is_outermost: bool,
) -> Result<(), NoMemory> {
    for name in row.names {
        let declaration = Declaration::Variable(&row.init);
        declare_one(
            linker,
            is_outermost,
            *name,
            EntityKind::Variable,
            declaration,
        )?;
    }
    Ok(())
}

/// Declares the formals of a procedure in the innermost scope. What their names break is judged
/// where the signature is walked.
pub fn declare_formals<'a>(
    linker: &mut Linker<'a>,
    procedure: Pos,
    signature: &'a Signature<'a>,
) -> Result<(), NoMemory> {
    for formal in signature.formals {
        let declaration = Declaration::Formal {
            init: &formal.init,
            procedure,
            signature,
        };
        for name in formal.names {
            declare_formal(linker, declaration, *name)?;
        }
    }
    Ok(())
}

fn declare_formal<'a>(
    linker: &mut Linker<'a>,
    declaration: Declaration<'a>,
    name: Name<'a>,
) -> Result<(), NoMemory> {
    let declaration = linker.keep(declaration)?;
    let entity = Entity {
        declaration: Some(declaration),
        ..linker.entity(name, EntityKind::Formal)
    };
    let id = linker.binds.add(entity)?;
    linker.binds.bind(linker.unit, name.pos, id)?;
    if linker.scopes.look_up_here(name.text).is_none() {
        linker.scopes.declare(name.text, id, Some(name.pos))?;
    }
    Ok(())
}

/// The names in the constants of a row.
pub fn walk_constants<'a>(
    linker: &mut Linker<'a>,
    constants: &[ConstDecl<'a>],
) -> Result<(), NoMemory> {
    for constant in constants {
        if let Some(kind) = constant.kind {
            walk_type(linker, kind)?;
        }
        walk_expression(linker, constant.value)?;
    }
    Ok(())
}

/// The names in the types of a row.
pub fn walk_types<'a>(linker: &mut Linker<'a>, types: &[TypeDecl<'a>]) -> Result<(), NoMemory> {
    for declared in types {
        walk_type(linker, declared.kind)?;
    }
    Ok(())
}

/// The names in the types of exceptions' arguments.
pub fn walk_exceptions<'a>(
    linker: &mut Linker<'a>,
    exceptions: &[ExceptionDecl<'a>],
) -> Result<(), NoMemory> {
    for exception in exceptions {
        if let Some(argument) = exception.argument {
            walk_type(linker, argument)?;
        }
    }
    Ok(())
}

/// The names in what a row gives its variables.
pub fn walk_variables<'a>(
    linker: &mut Linker<'a>,
    variables: &[VarDecl<'a>],
) -> Result<(), NoMemory> {
    for variable in variables {
        walk_init(linker, &variable.init)?;
    }
    Ok(())
}

/// The names in the revelations of one row. A revelation stands in the outermost scope (rule 34)
/// and reveals an opaque type of a given unit (rule 35).
pub fn walk_reveals<'a>(
    linker: &mut Linker<'a>,
    reveals: &'a [Revelation<'a>],
    is_outermost: bool,
) -> Result<(), NoMemory> {
    for reveal in reveals {
        walk_type(linker, reveal.kind)?;
        linker.qualid(&reveal.name)?;
        let pos = reveal.name.first.pos;
        if is_outermost {
            let declaration = linker.keep(Declaration::Reveal(reveal))?;
            linker.reveals.push(Revealed {
                unit: linker.unit,
                declaration,
                opaque: EntityId(0),
                is_partial: reveal.is_partial,
                pos,
            })?;
        } else {
            linker.note(pos, rules::BODY_IN_INTERFACE);
        }
    }
    Ok(())
}
