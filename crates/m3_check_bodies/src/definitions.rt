use crate::bodies::Body;
use bumpalo::collections::into_bump_slice;
use m3_base::{NoMemory, Pos};
use m3_check_state::Checker;
use m3_core::{CoreStmt, ProcDef};
use m3_syntax::Name;
use m3_types::{Raises, TypeId, TypeNode};

/// The type and the number of a procedure.
pub fn known<'a>(checker: &Checker<'_, 'a>, name: Name<'a>) -> Option<(TypeId, u32)> {
    let id = checker.program.binds.at(checker.unit, name.pos)?;
    Some((
        checker.declared.kind_of(id)?,
        checker.declared.procedure_number(id)?,
    ))
}

/// What is known of a procedure beside its body.
#[derive(Clone, Copy)]
pub struct Heading<'a> {
    pub name: Name<'a>,
    pub kind: TypeId,
    /// The procedure around it.
    pub around: Option<u32>,
    pub pos: Pos,
    pub end: Pos,
}

/// The procedures that were checked, each with its number.
pub type Procedures<'a> = Vec<(u32, ProcDef<'a>)>;

/// Adds a checked procedure. `row` has its block.
pub fn define<'a>(
    checker: &Checker<'_, 'a>,
    procedures: &mut Procedures<'a>,
    body: Body<'a>,
    heading: &Heading<'a>,
    row: &'a [CoreStmt<'a>],
) -> Result<(), NoMemory> {
    let Body {
        formals,
        locals,
        level,
        number,
        result,
        ..
    } = body;
    let definition = ProcDef {
        name: heading.name.text,
        unit: checker.unit,
        kind: heading.kind,
        result,
        raises: raises_in(checker.node(heading.kind)),
        level,
        outer: heading.around,
        formals: into_bump_slice(formals),
        locals: into_bump_slice(locals),
        body: row,
        pos: heading.pos,
        name_pos: heading.name.pos,
        end: heading.end,
        is_module: false,
    };
    procedures.push((number, definition))?;
    Ok(())
}

fn raises_in<'a>(node: TypeNode<'a>) -> Option<&'a [u32]> {
    match node {
        TypeNode::Procedure(_, _, Raises::Only(exceptions)) => Some(exceptions),
        _ => None,
    }
}
