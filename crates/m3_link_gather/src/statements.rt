use crate::declarations::{
    gather_constants, gather_exceptions, gather_reveals, gather_types, gather_variables,
};
use crate::expressions::{gather_actuals, gather_expression};
use crate::gathered::{Bound, Gathered, Gatherer};
use crate::types::{gather_signature, gather_type};
use m3_base::{NoMemory, place_number};
use m3_link_scopes::Linked;
use m3_syntax::{Binding, Block, Decl, Handler, Label, Stmt, TypeBranch};
use std::alloc::Global;

/// What the texts of all units have.
pub fn gather<'a>(alloc: Global, linked: &Linked<'a>) -> Result<Gathered<'a>, NoMemory> {
    let mut gatherer = Gatherer::new(alloc, &linked.program);
    for (place, unit) in linked.units.iter().enumerate() {
        gatherer.unit = place_number(place)?;
        gather_declarations(&mut gatherer, unit.declarations());
        gather_statements(&mut gatherer, unit.statements());
    }
    if gatherer.is_whole {
        Ok(gatherer.found)
    } else {
        Err(NoMemory)
    }
}

#[cycle(statements)]
fn gather_declarations<'a>(gatherer: &mut Gatherer<'_, 'a>, declarations: &'a [Decl<'a>]) {
    for declaration in declarations {
        match declaration {
            Decl::Const { constants, .. } => gather_constants(gatherer, constants),
            Decl::Type { types, .. } => gather_types(gatherer, types),
            Decl::Exception { exceptions, .. } => gather_exceptions(gatherer, exceptions),
            Decl::Var { variables, .. } => gather_variables(gatherer, variables),
            Decl::Reveal { reveals, .. } => gather_reveals(gatherer, reveals),
            Decl::Procedure {
                signature,
                body,
                ..
            } => {
                gather_signature(gatherer, signature);
                if let Some(body) = body {
                    gather_block(gatherer, &body.block);
                }
            }
        }
    }
}

#[cycle(statements)]
fn gather_block<'a>(gatherer: &mut Gatherer<'_, 'a>, block: &'a Block<'a>) {
    gather_declarations(gatherer, block.declarations);
    gather_statements(gatherer, block.body);
}

#[cycle(statements)]
fn gather_statements<'a>(gatherer: &mut Gatherer<'_, 'a>, statements: &'a [Stmt<'a>]) {
    for statement in statements {
        gather_statement(gatherer, statement);
    }
}

#[cycle(statements)]
fn gather_statement<'a>(gatherer: &mut Gatherer<'_, 'a>, statement: &'a Stmt<'a>) {
    match statement {
        Stmt::Assign { target, value, .. } => {
            gather_expression(gatherer, target);
            gather_expression(gatherer, value);
        }
        Stmt::Call {
            callee,
            actuals,
            ..
        } => {
            gather_expression(gatherer, callee);
            gather_actuals(gatherer, actuals);
        }
        Stmt::Exit { .. } => {}
        Stmt::Eval { value, .. } => gather_expression(gatherer, value),
        Stmt::Raise { argument, .. } => {
            if let Some(argument) = argument {
                gather_expression(gatherer, argument);
            }
        }
        Stmt::Return {
            value: Some(value),
            ..
        } => gather_expression(gatherer, value),
        Stmt::Return { value: None, .. } => {}
        Stmt::Block(block) => gather_block(gatherer, block),
        Stmt::Case { .. } => gather_case(gatherer, statement),
        Stmt::For { .. } => gather_for(gatherer, statement),
        Stmt::If { .. } => gather_if(gatherer, statement),
        Stmt::Lock { mutex, body, .. } => {
            gather_expression(gatherer, mutex);
            gather_statements(gatherer, body);
        }
        Stmt::Loop { body, .. } => gather_statements(gatherer, body),
        Stmt::Repeat {
            body,
            condition,
            ..
        } => {
            gather_statements(gatherer, body);
            gather_expression(gatherer, condition);
        }
        Stmt::TryExcept { .. } => gather_try(gatherer, statement),
        Stmt::TryFinally { body, last, .. } => {
            gather_statements(gatherer, body);
            gather_statements(gatherer, last);
        }
        Stmt::TypeCase { .. } => gather_typecase(gatherer, statement),
        Stmt::While {
            condition,
            body,
            ..
        } => {
            gather_expression(gatherer, condition);
            gather_statements(gatherer, body);
        }
        Stmt::With { bindings, body, .. } => {
            gather_bindings(gatherer, bindings);
            gather_statements(gatherer, body);
        }
    }
}

fn gather_labels<'a>(gatherer: &mut Gatherer<'_, 'a>, labels: &'a [Label<'a>]) {
    for label in labels {
        gatherer.label(label.first);
        gather_expression(gatherer, label.first);
        if let Some(last) = label.last {
            gatherer.label(last);
            gather_expression(gatherer, last);
        }
    }
}

#[cycle(statements)]
fn gather_case<'a>(gatherer: &mut Gatherer<'_, 'a>, statement: &'a Stmt<'a>) {
    match statement {
        Stmt::Case {
            value,
            branches,
            otherwise,
            ..
        } => {
            gather_expression(gatherer, value);
            for branch in *branches {
                gather_labels(gatherer, branch.labels);
                gather_statements(gatherer, branch.body);
            }
            gather_statements(gatherer, otherwise.body);
        }
        _ => {}
    }
}

#[cycle(statements)]
fn gather_for<'a>(gatherer: &mut Gatherer<'_, 'a>, statement: &'a Stmt<'a>) {
    match statement {
        Stmt::For {
            name,
            first,
            last,
            step,
            body,
            ..
        } => {
            gather_expression(gatherer, first);
            gather_expression(gatherer, last);
            if let Some(step) = step {
                gather_expression(gatherer, step);
            }
            gatherer.bind(*name, Bound::Range(first, last));
            gather_statements(gatherer, body);
        }
        _ => {}
    }
}

#[cycle(statements)]
fn gather_if<'a>(gatherer: &mut Gatherer<'_, 'a>, statement: &'a Stmt<'a>) {
    match statement {
        Stmt::If {
            arms,
            otherwise,
            ..
        } => {
            for arm in *arms {
                gather_expression(gatherer, arm.condition);
                gather_statements(gatherer, arm.body);
            }
            gather_statements(gatherer, otherwise.body);
        }
        _ => {}
    }
}

#[cycle(statements)]
fn gather_handler<'a>(gatherer: &mut Gatherer<'_, 'a>, handler: &'a Handler<'a>) {
    if let (Some(name), Some(exception)) = (handler.argument, handler.exceptions.first()) {
        gatherer.bind(name, Bound::Exception(*exception));
    }
    gather_statements(gatherer, handler.body);
}

#[cycle(statements)]
fn gather_try<'a>(gatherer: &mut Gatherer<'_, 'a>, statement: &'a Stmt<'a>) {
    match statement {
        Stmt::TryExcept {
            body,
            handlers,
            otherwise,
            ..
        } => {
            gather_statements(gatherer, body);
            for handler in *handlers {
                gather_handler(gatherer, handler);
            }
            gather_statements(gatherer, otherwise.body);
        }
        _ => {}
    }
}

/// The types of a branch of TYPECASE, and the type of its variable.
fn gather_branch_types<'a>(gatherer: &mut Gatherer<'_, 'a>, branch: &'a TypeBranch<'a>) {
    for kind in branch.kinds {
        gather_type(gatherer, kind);
    }
    if let (Some(name), [kind]) = (branch.name, branch.kinds) {
        gatherer.bind(name, Bound::Type(kind));
    }
}

#[cycle(statements)]
fn gather_typecase<'a>(gatherer: &mut Gatherer<'_, 'a>, statement: &'a Stmt<'a>) {
    match statement {
        Stmt::TypeCase {
            value,
            branches,
            otherwise,
            ..
        } => {
            gather_expression(gatherer, value);
            for branch in *branches {
                if let Some(name) = branch.name {
                    gatherer.bind(name, Bound::Value(value));
                }
                gather_branch_types(gatherer, branch);
                gather_statements(gatherer, branch.body);
            }
            gather_statements(gatherer, otherwise.body);
        }
        _ => {}
    }
}

/// The values of a WITH and the names that they are bound to.
fn gather_bindings<'a>(gatherer: &mut Gatherer<'_, 'a>, bindings: &'a [Binding<'a>]) {
    for binding in bindings {
        gather_expression(gatherer, binding.value);
        gatherer.bind(binding.name, Bound::Value(binding.value));
    }
}
