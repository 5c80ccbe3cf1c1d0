use m3_check_branches::{HandlerHead, all_ranges, branch_types, branch_variable, handler_head};
use m3_check_state::Valued;
use m3_check_statement_state::Walk;
use m3_core::{CoreExpr, LabelRange};
use m3_exprs::expression;
use m3_syntax::{CaseBranch, Expr, Name, Qualid, TypeExp};
use m3_types::TypeId;

/// The condition of an arm or of a loop (rule 76). None where it was refused.
pub fn condition<'a>(walk: &mut Walk<'_, 'a>, value: &Expr<'a>) -> Option<&'a CoreExpr<'a>> {
    let value = m3_check_branches::condition(&mut walk.checker, value);
    walk.memory.found(value)
}

/// What CASE or TYPECASE tests. None where it was refused.
pub fn tested<'a>(walk: &mut Walk<'_, 'a>, value: &Expr<'a>) -> Option<Valued<'a>> {
    let value = expression(&mut walk.checker, value);
    walk.memory.found(value)
}

/// The values of the labels of each branch of a CASE (rules 73 and 74).
pub fn ranges<'a>(
    walk: &mut Walk<'_, 'a>,
    branches: &[CaseBranch<'a>],
    value: Option<Valued<'a>>,
) -> &'a [&'a [LabelRange]] {
    let ranges = all_ranges(&mut walk.checker, branches, value);
    walk.memory.row(ranges)
}

/// The types of a branch of TYPECASE, and the variable that gets the value.
#[derive(Clone, Copy)]
pub struct TypeHead<'a> {
    pub types: &'a [TypeId],
    pub variable: Option<u32>,
}

/// The head of a branch of TYPECASE: each type is a subtype of the value's (rule 81).
pub fn type_head<'a>(
    walk: &mut Walk<'_, 'a>,
    kinds: &[TypeExp<'a>],
    name: Option<Name<'a>>,
    value: Option<Valued<'a>>,
) -> TypeHead<'a> {
    let types = branch_types(&mut walk.checker, kinds, value);
    let types = walk.memory.row(types);
    let written = (types, kinds.len());
    let variable = branch_variable(&mut walk.checker, &mut walk.body, name, written, value);
    let variable = walk.memory.found(variable);
    TypeHead { types, variable }
}

/// The head of a handler (rules 78 and 80). None where memory was wanting.
pub fn handler<'a>(
    walk: &mut Walk<'_, 'a>,
    exceptions: &[Qualid<'a>],
    argument: Option<Name<'a>>,
) -> Option<HandlerHead<'a>> {
    let head = handler_head(&mut walk.checker, &mut walk.body, exceptions, argument);
    walk.memory.made(head)
}
