use crate::branches::TypeHead;
use m3_base::Pos;
use m3_check_branches::{HandlerHead, ranges_at};
use m3_check_state::Valued;
use m3_check_statement_state::{Marks, Walk};
use m3_core::{Arm, CaseBranch, CoreExpr, CoreStmt, Else, Handler, LabelRange, TypeBranch};

/// Adds an arm of an IF, unless its condition was refused.
pub fn add_arm<'a>(
    walk: &mut Walk<'_, 'a>,
    condition: Option<&'a CoreExpr<'a>>,
    body: &'a [CoreStmt<'a>],
) {
    if let Some(condition) = condition {
        let arm = Arm { condition, body };
        walk.rows.arms.add(&mut walk.memory, arm);
    }
}

/// Adds the branch of a CASE whose labels stand at a place.
pub fn add_case<'a>(
    walk: &mut Walk<'_, 'a>,
    ranges: &[&'a [LabelRange]],
    place: usize,
    body: &'a [CoreStmt<'a>],
) {
    let ranges = ranges_at(ranges, place);
    let branch = CaseBranch { ranges, body };
    walk.rows.cases.add(&mut walk.memory, branch);
}

/// Adds a branch of a TYPECASE.
pub fn add_type_branch<'a>(walk: &mut Walk<'_, 'a>, head: &TypeHead<'a>, body: &'a [CoreStmt<'a>]) {
    let branch = TypeBranch {
        types: head.types,
        variable: head.variable,
        body,
    };
    walk.rows.types.add(&mut walk.memory, branch);
}

/// Adds a handler, if there was memory for its head.
pub fn add_handler<'a>(
    walk: &mut Walk<'_, 'a>,
    head: Option<HandlerHead<'a>>,
    body: &'a [CoreStmt<'a>],
) {
    if let Some(head) = head {
        let handler = Handler {
            exceptions: head.exceptions,
            variable: head.variable,
            body,
        };
        walk.rows.handlers.add(&mut walk.memory, handler);
    }
}

/// Puts the IF of the arms that were added.
pub fn put_if<'a>(walk: &mut Walk<'_, 'a>, pos: Pos, marks: &Marks, otherwise: Else<'a>) {
    let arms = walk.rows.arms.close(&mut walk.memory, marks.arms);
    walk.put(CoreStmt::If {
        pos,
        arms,
        otherwise,
    });
}

/// Puts the CASE of the branches that were added, unless its value was refused.
pub fn put_case<'a>(
    walk: &mut Walk<'_, 'a>,
    pos: Pos,
    value: Option<Valued<'a>>,
    marks: &Marks,
    otherwise: Else<'a>,
) {
    let branches = walk.rows.cases.close(&mut walk.memory, marks.cases);
    if let Some(value) = value {
        walk.put(CoreStmt::Case {
            pos,
            value: value.core(),
            branches,
            otherwise,
        });
    }
}

/// Puts the TYPECASE of the branches that were added, unless its value was refused.
pub fn put_type_case<'a>(
    walk: &mut Walk<'_, 'a>,
    pos: Pos,
    value: Option<Valued<'a>>,
    marks: &Marks,
    otherwise: Else<'a>,
) {
    let branches = walk.rows.types.close(&mut walk.memory, marks.types);
    if let Some(value) = value {
        walk.put(CoreStmt::TypeCase {
            pos,
            value: value.core(),
            branches,
            otherwise,
        });
    }
}

/// Puts the TRY EXCEPT of the handlers that were added.
pub fn put_try<'a>(
    walk: &mut Walk<'_, 'a>,
    pos: Pos,
    body: &'a [CoreStmt<'a>],
    marks: &Marks,
    otherwise: Else<'a>,
) {
    let handlers = walk.rows.handlers.close(&mut walk.memory, marks.handlers);
    walk.put(CoreStmt::TryExcept {
        pos,
        body,
        handlers,
        otherwise,
    });
}
