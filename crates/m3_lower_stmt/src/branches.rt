use crate::statements::statements;
use m3_base::FaultKind;
use m3_core::{CaseBranch, CoreStmt, TypeBranch};
use m3_lower_exits::{Exits, clear_variables, place_of, showing};
use m3_lower_expr::{condition, fetch};
use m3_lower_places::source;
use m3_lower_simple_statements::{Label, add_labels, search, test_types};
use m3_lower_state::{Builder, Pending, store_word};
use m3_mid::Operand;

/// IF with its ELSIFs.
#[cycle(statements)]
pub fn if_arms<'m>(
    b: &mut Builder<'m, '_>,
    exits: Exits,
    s: &CoreStmt,
    rest: Pending<'m>,
) -> Pending<'m> {
    let CoreStmt::If {
        arms,
        otherwise,
        ..
    } = s
    else {
        return rest;
    };
    let join = b.seal(rest);
    let code = b.goto(join);
    let mut code = statements(b, exits, otherwise.body, code);
    for arm in arms.iter().rev() {
        let no = b.seal(code);
        let body = b.goto(join);
        let body = statements(b, exits, arm.body, body);
        let yes = b.seal(body);
        code = condition(b, exits.around, arm.condition, yes, no);
    }
    code
}

/// CASE: the branch is found by halving the labels.
#[cycle(statements)]
pub fn case_of<'m>(
    b: &mut Builder<'m, '_>,
    exits: Exits,
    s: &CoreStmt,
    rest: Pending<'m>,
) -> Pending<'m> {
    let CoreStmt::Case {
        pos,
        value,
        branches,
        otherwise,
    } = s
    else {
        return rest;
    };
    let join = b.seal(rest);
    let code = if otherwise.is_written {
        let code = b.goto(join);
        statements(b, exits, otherwise.body, code)
    } else {
        b.fault(FaultKind::NoCase, *pos)
    };
    let none = b.seal(code);
    let labels = labels_of(b, exits, branches, join);
    let operand = source(b, value);
    let code = search(b, operand, labels.as_slice(), 0, labels.len(), none);
    fetch(b, exits.around, value, operand, code)
}

/// The labels of branches, in order, with the blocks of these.
#[cycle(statements)]
fn labels_of<'m>(
    b: &mut Builder<'m, '_>,
    exits: Exits,
    branches: &[CaseBranch],
    join: u32,
) -> Vec<Label> {
    let mut labels = Vec::new(b.alloc);
    for branch in branches {
        let body = b.goto(join);
        let body = statements(b, exits, branch.body, body);
        let block = b.seal(body);
        add_labels(b, branch.ranges, block, &mut labels);
    }
    if labels.sort().is_err() {
        b.fail();
    }
    labels
}

/// TYPECASE: the first branch with a type of the value.
#[cycle(statements)]
pub fn type_case<'m>(
    b: &mut Builder<'m, '_>,
    exits: Exits,
    s: &CoreStmt,
    rest: Pending<'m>,
) -> Pending<'m> {
    let CoreStmt::TypeCase {
        pos,
        value,
        branches,
        otherwise,
    } = s
    else {
        return rest;
    };
    let join = b.seal(rest);
    let mut code = if otherwise.is_written {
        let code = b.goto(join);
        statements(b, exits, otherwise.body, code)
    } else {
        b.fault(FaultKind::NoTypecase, *pos)
    };
    let operand = source(b, value);
    for branch in branches.iter().rev() {
        let block = type_branch(b, exits, branch, operand, join);
        code = test_types(b, branch.types, operand, block, code);
    }
    fetch(b, exits.around, value, operand, code)
}

/// The block of a branch of TYPECASE, whose variable gets the value.
#[cycle(statements)]
fn type_branch<'m>(
    b: &mut Builder<'m, '_>,
    exits: Exits,
    branch: &TypeBranch,
    value: Operand,
    join: u32,
) -> u32 {
    let body = b.goto(join);
    let code = match branch.variable {
        Some(variable) => {
            let inside = showing(b, exits, &[variable]);
            let body = clear_variables(b, &[variable], body);
            let code = statements(b, inside, branch.body, body);
            let place = place_of(b, variable);
            store_word(b, place, 0, value, code)
        }
        None => statements(b, exits, branch.body, body),
    };
    b.seal(code)
}
