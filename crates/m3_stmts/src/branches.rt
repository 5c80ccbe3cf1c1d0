use crate::sequences::statements;
use m3_check_statement_parts::{
    add_arm, add_case, add_handler, add_type_branch, condition, handler, put_case, put_if, put_try,
    put_type_case, ranges, tested, type_head,
};
use m3_check_statement_state::Walk;
use m3_core::Else;
use m3_syntax::Stmt;

/// IF with its ELSIFs.
#[cycle(statements)]
pub fn alternatives<'a>(walk: &mut Walk<'_, 'a>, statement: &Stmt<'a>) {
    let Stmt::If {
        pos,
        arms,
        otherwise,
    } = statement
    else {
        return;
    };
    let marks = walk.marks();
    for arm in *arms {
        let condition = condition(walk, arm.condition);
        let body = statements(walk, arm.body);
        add_arm(walk, condition, body);
    }
    let otherwise = behind_else(walk, otherwise);
    put_if(walk, *pos, &marks, otherwise);
}

/// CASE.
#[cycle(statements)]
pub fn choice<'a>(walk: &mut Walk<'_, 'a>, statement: &Stmt<'a>) {
    let Stmt::Case {
        pos,
        value,
        branches,
        otherwise,
    } = statement
    else {
        return;
    };
    let value = tested(walk, value);
    let ranges = ranges(walk, branches, value);
    let marks = walk.marks();
    for (place, branch) in branches.iter().enumerate() {
        let body = statements(walk, branch.body);
        add_case(walk, ranges, place, body);
    }
    let otherwise = behind_else(walk, otherwise);
    put_case(walk, *pos, value, &marks, otherwise);
}

/// TYPECASE.
#[cycle(statements)]
pub fn type_choice<'a>(walk: &mut Walk<'_, 'a>, statement: &Stmt<'a>) {
    let Stmt::TypeCase {
        pos,
        value,
        branches,
        otherwise,
    } = statement
    else {
        return;
    };
    let value = tested(walk, value);
    let marks = walk.marks();
    for branch in *branches {
        let head = type_head(walk, branch.kinds, branch.name, value);
        let body = statements(walk, branch.body);
        add_type_branch(walk, &head, body);
    }
    let otherwise = behind_else(walk, otherwise);
    put_type_case(walk, *pos, value, &marks, otherwise);
}

/// TRY EXCEPT.
#[cycle(statements)]
pub fn handled<'a>(walk: &mut Walk<'_, 'a>, statement: &Stmt<'a>) {
    let Stmt::TryExcept {
        pos,
        body: row,
        handlers,
        otherwise,
    } = statement
    else {
        return;
    };
    let row = statements(walk, row);
    let marks = walk.marks();
    for one in *handlers {
        let head = handler(walk, one.exceptions, one.argument);
        let body = statements(walk, one.body);
        add_handler(walk, head, body);
    }
    let otherwise = behind_else(walk, otherwise);
    put_try(walk, *pos, row, &marks, otherwise);
}

/// The statements behind ELSE.
#[cycle(statements)]
fn behind_else<'a>(walk: &mut Walk<'_, 'a>, otherwise: &m3_syntax::Else<'a>) -> Else<'a> {
    Else {
        is_written: otherwise.is_written,
        body: statements(walk, otherwise.body),
    }
}
