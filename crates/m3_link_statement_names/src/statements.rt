use m3_base::{NoMemory, rules};
use m3_link_expression_names::{
    declare_all, declare_formals, walk_actuals, walk_constants, walk_exceptions, walk_expression,
    walk_reveals, walk_signature, walk_type, walk_types, walk_variables,
};
use m3_link_scopes::{EntityKind, Linker};
use m3_syntax::{
    Binding, Block, Decl, Handler, Label, Name, ProcedureBody, Signature, Stmt, TypeBranch,
};

/// The names in declarations, which are declared already.
#[cycle(statements)]
pub fn walk_declarations<'a>(
    linker: &mut Linker<'a>,
    declarations: &'a [Decl<'a>],
    is_outermost: bool,
) -> Result<(), NoMemory> {
    for declaration in declarations {
        match declaration {
            Decl::Const { constants, .. } => walk_constants(linker, constants)?,
            Decl::Type { types, .. } => walk_types(linker, types)?,
            Decl::Exception { exceptions, .. } => walk_exceptions(linker, exceptions)?,
            Decl::Var { variables, .. } => walk_variables(linker, variables)?,
            Decl::Reveal { reveals, .. } => walk_reveals(linker, reveals, is_outermost)?,
            Decl::Procedure {
                name,
                signature,
                body,
                ..
            } => {
                walk_signature(linker, signature)?;
                judge_place_of_body(linker, *name, body.is_some(), is_outermost);
                if let Some(body) = body {
                    walk_body(linker, body, *name, signature)?;
                }
            }
        }
    }
    Ok(())
}

/// Refuses a body in an interface (rule 34), and a head without a body elsewhere (rule 32).
fn judge_place_of_body<'a>(
    linker: &mut Linker<'a>,
    name: Name<'a>,
    has_body: bool,
    is_outermost: bool,
) {
    let is_head = is_outermost && linker.is_in_interface();
    if is_head && has_body {
        linker.note(name.pos, rules::BODY_IN_INTERFACE);
    }
    if !is_head && !has_body {
        linker.note(name.pos, rules::PROCEDURE_WITHOUT_BODY);
    }
}

/// The names in a procedure's body, whose scope lies inside that of its formals.
#[cycle(statements)]
fn walk_body<'a>(
    linker: &mut Linker<'a>,
    body: &'a ProcedureBody<'a>,
    name: Name<'a>,
    signature: &'a Signature<'a>,
) -> Result<(), NoMemory> {
    let around = linker.procedure;
    linker.procedure = linker.binds.at(linker.unit, name.pos);
    linker.scopes.enter()?;
    declare_formals(linker, name.pos, signature)?;
    walk_block(linker, &body.block)?;
    linker.scopes.leave();
    linker.procedure = around;
    Ok(())
}

#[cycle(statements)]
fn walk_block<'a>(linker: &mut Linker<'a>, block: &'a Block<'a>) -> Result<(), NoMemory> {
    linker.scopes.enter()?;
    declare_all(linker, block.declarations, false)?;
    walk_declarations(linker, block.declarations, false)?;
    walk_statements(linker, block.body)?;
    linker.scopes.leave();
    Ok(())
}

/// The names in a row of statements.
#[cycle(statements)]
pub fn walk_statements<'a>(
    linker: &mut Linker<'a>,
    statements: &'a [Stmt<'a>],
) -> Result<(), NoMemory> {
    for statement in statements {
        walk_statement(linker, statement)?;
    }
    Ok(())
}

/// A row of statements in a scope that one name makes.
#[cycle(statements)]
fn walk_named<'a>(
    linker: &mut Linker<'a>,
    name: Option<Name<'a>>,
    kind: EntityKind,
    body: &'a [Stmt<'a>],
) -> Result<(), NoMemory> {
    linker.scopes.enter()?;
    if let Some(name) = name {
        let entity = linker.entity(name, kind);
        linker.declare(name, entity)?;
    }
    walk_statements(linker, body)?;
    linker.scopes.leave();
    Ok(())
}

#[cycle(statements)]
fn walk_statement<'a>(linker: &mut Linker<'a>, statement: &'a Stmt<'a>) -> Result<(), NoMemory> {
    match statement {
        Stmt::Assign { target, value, .. } => {
            walk_expression(linker, target)?;
            walk_expression(linker, value)
        }
        Stmt::Call {
            callee,
            actuals,
            ..
        } => {
            walk_expression(linker, callee)?;
            walk_actuals(linker, actuals)
        }
        Stmt::Exit { .. } => Ok(()),
        Stmt::Eval { value, .. } => walk_expression(linker, value),
        Stmt::Raise {
            exception,
            argument,
            ..
        } => {
            linker.qualid(exception)?;
            match argument {
                Some(argument) => walk_expression(linker, argument),
                None => Ok(()),
            }
        }
        Stmt::Return {
            value: Some(value),
            ..
        } => walk_expression(linker, value),
        Stmt::Return { value: None, .. } => Ok(()),
        Stmt::Block(block) => walk_block(linker, block),
        Stmt::Case { .. } => walk_case(linker, statement),
        Stmt::For { .. } => walk_for(linker, statement),
        Stmt::If { .. } => walk_if(linker, statement),
        Stmt::Lock { mutex, body, .. } => {
            walk_expression(linker, mutex)?;
            walk_statements(linker, body)
        }
        Stmt::Loop { body, .. } => walk_statements(linker, body),
        Stmt::Repeat {
            body,
            condition,
            ..
        } => {
            walk_statements(linker, body)?;
            walk_expression(linker, condition)
        }
        Stmt::TryExcept { .. } => walk_try(linker, statement),
        Stmt::TryFinally { body, last, .. } => {
            walk_statements(linker, body)?;
            walk_statements(linker, last)
        }
        Stmt::TypeCase { .. } => walk_typecase(linker, statement),
        Stmt::While {
            condition,
            body,
            ..
        } => {
            walk_expression(linker, condition)?;
            walk_statements(linker, body)
        }
        Stmt::With { .. } => walk_with(linker, statement),
    }
}

fn walk_labels<'a>(linker: &mut Linker<'a>, labels: &[Label<'a>]) -> Result<(), NoMemory> {
    for label in labels {
        walk_expression(linker, label.first)?;
        if let Some(last) = label.last {
            walk_expression(linker, last)?;
        }
    }
    Ok(())
}

#[cycle(statements)]
fn walk_case<'a>(linker: &mut Linker<'a>, statement: &'a Stmt<'a>) -> Result<(), NoMemory> {
    match statement {
        Stmt::Case {
            value,
            branches,
            otherwise,
            ..
        } => {
            walk_expression(linker, value)?;
            for branch in *branches {
                walk_labels(linker, branch.labels)?;
                walk_statements(linker, branch.body)?;
            }
            walk_statements(linker, otherwise.body)
        }
        _ => Ok(()),
    }
}

#[cycle(statements)]
fn walk_for<'a>(linker: &mut Linker<'a>, statement: &'a Stmt<'a>) -> Result<(), NoMemory> {
    match statement {
        Stmt::For {
            name,
            first,
            last,
            step,
            body,
            ..
        } => {
            walk_expression(linker, first)?;
            walk_expression(linker, last)?;
            if let Some(step) = step {
                walk_expression(linker, step)?;
            }
            walk_named(linker, Some(*name), EntityKind::For, body)
        }
        _ => Ok(()),
    }
}

#[cycle(statements)]
fn walk_if<'a>(linker: &mut Linker<'a>, statement: &'a Stmt<'a>) -> Result<(), NoMemory> {
    match statement {
        Stmt::If {
            arms,
            otherwise,
            ..
        } => {
            for arm in *arms {
                walk_expression(linker, arm.condition)?;
                walk_statements(linker, arm.body)?;
            }
            walk_statements(linker, otherwise.body)
        }
        _ => Ok(()),
    }
}

#[cycle(statements)]
fn walk_handler<'a>(linker: &mut Linker<'a>, handler: &'a Handler<'a>) -> Result<(), NoMemory> {
    for exception in handler.exceptions {
        linker.qualid(exception)?;
    }
    walk_named(linker, handler.argument, EntityKind::Handler, handler.body)
}

#[cycle(statements)]
fn walk_try<'a>(linker: &mut Linker<'a>, statement: &'a Stmt<'a>) -> Result<(), NoMemory> {
    match statement {
        Stmt::TryExcept {
            body,
            handlers,
            otherwise,
            ..
        } => {
            walk_statements(linker, body)?;
            for handler in *handlers {
                walk_handler(linker, handler)?;
            }
            walk_statements(linker, otherwise.body)
        }
        _ => Ok(()),
    }
}

#[cycle(statements)]
fn walk_typecase<'a>(linker: &mut Linker<'a>, statement: &'a Stmt<'a>) -> Result<(), NoMemory> {
    match statement {
        Stmt::TypeCase {
            value,
            branches,
            otherwise,
            ..
        } => {
            walk_expression(linker, value)?;
            for branch in *branches {
                walk_type_branch(linker, branch)?;
            }
            walk_statements(linker, otherwise.body)
        }
        _ => Ok(()),
    }
}

#[cycle(statements)]
fn walk_type_branch<'a>(
    linker: &mut Linker<'a>,
    branch: &'a TypeBranch<'a>,
) -> Result<(), NoMemory> {
    for kind in branch.kinds {
        walk_type(linker, kind)?;
    }
    walk_named(linker, branch.name, EntityKind::TypeCase, branch.body)
}

/// The names of a WITH, each in a scope of its own inside that of the one before.
fn bind_with<'a>(linker: &mut Linker<'a>, bindings: &[Binding<'a>]) -> Result<(), NoMemory> {
    for binding in bindings {
        walk_expression(linker, binding.value)?;
        linker.scopes.enter()?;
        let entity = linker.entity(binding.name, EntityKind::With);
        linker.declare(binding.name, entity)?;
    }
    Ok(())
}

#[cycle(statements)]
fn walk_with<'a>(linker: &mut Linker<'a>, statement: &'a Stmt<'a>) -> Result<(), NoMemory> {
    match statement {
        Stmt::With { bindings, body, .. } => {
            bind_with(linker, bindings)?;
            walk_statements(linker, body)?;
            for _ in *bindings {
                linker.scopes.leave();
            }
            Ok(())
        }
        _ => Ok(()),
    }
}
