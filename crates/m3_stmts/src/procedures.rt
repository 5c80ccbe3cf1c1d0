use crate::sequences::statements;
use m3_check_bodies::Heading;
use m3_check_names::judge_declaration;
use m3_check_statement_parts::{enter, initial, leave, locals, put_block};
use m3_check_statement_state::Walk;
use m3_syntax::{Block, Decl};

/// Checks the procedure that a declaration declares with a body, and those inside it. `around`
/// is the procedure around it.
#[cycle(statements)]
pub fn procedure<'a>(walk: &mut Walk<'_, 'a>, around: Option<u32>, declaration: &Decl<'a>) {
    let Decl::Procedure {
        pos,
        name,
        signature,
        body: Some(declared),
    } = declaration
    else {
        return;
    };
    let Some(kind) = enter(walk, *name, signature) else {
        return;
    };
    let marks = walk.marks();
    block(walk, &declared.block);
    let row = walk.close(&marks);
    let heading = Heading {
        name: *name,
        kind,
        around,
        pos: *pos,
        end: declared.block.end,
    };
    leave(walk, &heading, row);
}

/// A block: its variables, the procedures inside it, the initial values and the statements.
#[cycle(statements)]
pub fn block<'a>(walk: &mut Walk<'_, 'a>, block: &Block<'a>) {
    let variables = locals(walk, block.declarations);
    let level = walk.checker.level;
    let around = Some(walk.body.number);
    for declaration in block.declarations {
        judge_declaration(&mut walk.checker, declaration);
        walk.checker.level = level.saturating_add(1);
        procedure(walk, around, declaration);
        walk.checker.level = level;
    }
    let initial = initial(walk, block.declarations);
    let body = statements(walk, block.body);
    put_block(walk, block.pos, variables, initial, body);
}
