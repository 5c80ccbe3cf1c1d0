use crate::statements::statements;
use m3_core::CoreStmt;
use m3_lower_exits::{Exits, clear_variables, defaults, showing};
use m3_lower_simple_statements::{bind_all, clear_bindings, scopes_of};
use m3_lower_state::{Builder, Pending};

/// A block: its variables with their defaults, their initial values, and its body.
#[cycle(statements)]
pub fn block<'m>(
    b: &mut Builder<'m, '_>,
    exits: Exits,
    s: &CoreStmt,
    rest: Pending<'m>,
) -> Pending<'m> {
    let CoreStmt::Block {
        variables,
        initial,
        body,
        ..
    } = s
    else {
        return rest;
    };
    let inside = showing(b, exits, variables);
    let code = clear_variables(b, variables, rest);
    let code = statements(b, inside, body, code);
    let code = statements(b, inside, initial, code);
    defaults(b, variables, code)
}

/// WITH: the names are bound in order, each seeing those before it.
#[cycle(statements)]
pub fn with<'m>(
    b: &mut Builder<'m, '_>,
    exits: Exits,
    s: &CoreStmt,
    rest: Pending<'m>,
) -> Pending<'m> {
    let CoreStmt::With { bindings, body, .. } = s else {
        return rest;
    };
    let (scopes, inside) = scopes_of(b, exits, bindings);
    let code = clear_bindings(b, bindings, rest);
    let code = statements(b, inside, body, code);
    bind_all(b, scopes.as_slice(), bindings, code)
}
