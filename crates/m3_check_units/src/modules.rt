use bumpalo::collections::into_bump_slice;
use m3_base::{NoMemory, Pos};
use m3_check_bodies::Body;
use m3_check_state::Checker;
use m3_check_statement_parts::{initial, put_block};
use m3_check_statement_state::Walk;
use m3_core::{CoreStmt, ProcDef};
use m3_stmts::statements;
use m3_syntax::{Block, Name};
use m3_types::{Formal, Raises, TypeNode};

/// What is known of a module beside its block.
#[derive(Clone, Copy)]
pub struct ModuleHeading<'a> {
    pub name: Name<'a>,
    pub pos: Pos,
    pub end: Pos,
}

/// Checks a module's body.
pub fn check_module<'a>(
    walk: &mut Walk<'_, 'a>,
    heading: ModuleHeading<'a>,
    block: &Block<'a>,
) -> Result<(), NoMemory> {
    let Some(number) = walk.checker.declared.module_number(walk.checker.unit) else {
        return Ok(());
    };
    walk.enter(number, None);
    let marks = walk.marks();
    module_block(walk, block);
    let row = walk.close(&marks);
    let body = walk.leave();
    let module = module_of(&mut walk.checker, body, heading, row)?;
    walk.procedures.push((number, module))?;
    Ok(())
}

fn module_block<'a>(walk: &mut Walk<'_, 'a>, block: &Block<'a>) {
    let initial = initial(walk, block.declarations);
    let body = statements(walk, block.body);
    put_block(walk, block.pos, no_variables(), initial, body);
}

fn no_variables<'a>() -> &'a [u32] {
    &[]
}

fn no_formals<'a>() -> &'a [Formal<'a>] {
    &[]
}

/// The body of a module as a procedure. `row` has its block.
fn module_of<'a>(
    checker: &mut Checker<'_, 'a>,
    body: Body<'a>,
    heading: ModuleHeading<'a>,
    row: &'a [CoreStmt<'a>],
) -> Result<ProcDef<'a>, NoMemory> {
    let Body {
        formals,
        locals,
        ..
    } = body;
    Ok(ProcDef {
        name: heading.name.text,
        unit: checker.unit,
        kind: checker
            .declared
            .types
            .push(TypeNode::Procedure(no_formals(), None, Raises::Any))?,
        formals: into_bump_slice(formals),
        result: None,
        raises: None,
        locals: into_bump_slice(locals),
        level: 0,
        outer: None,
        body: row,
        pos: heading.pos,
        name_pos: heading.name.pos,
        end: heading.end,
        is_module: true,
    })
}
