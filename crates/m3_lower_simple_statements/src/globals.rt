use m3_core::{Chain, CoreExpr, VarDef};
use m3_lower_actuals::{plan_chain, plan_value, store_value};
use m3_lower_arrays::store_default;
use m3_lower_exits::{Exits, global_place};
use m3_lower_expr::{emit_chain, emit_value};
use m3_lower_operators::TypedValue;
use m3_lower_state::{Around, Builder, Location, Pending, Place, kind_of};
use m3_lower_storage::number_of;

/// Gives all global variables their defaults, and interface variables their constants.
pub fn init_globals<'m>(
    b: &mut Builder<'m, '_>,
    around: Around,
    globals: &[VarDef],
    rest: Pending<'m>,
) -> Pending<'m> {
    let mut code = rest;
    for (variable, global) in globals.iter().enumerate().rev() {
        if let Some(initial) = global.initial {
            let place = global_place(b, number_of(variable));
            code = stored(b, around, initial, place, code);
        }
    }
    global_defaults(b, code)
}

fn global_defaults<'m>(b: &mut Builder<'m, '_>, rest: Pending<'m>) -> Pending<'m> {
    let mut code = rest;
    for global in b.storage.globals().iter().rev() {
        let place = Place::plain(Location::Globals(global.word));
        code = store_default(b, global.kind, place, true, code);
    }
    code
}

fn stored<'m>(
    b: &mut Builder<'m, '_>,
    around: Around,
    e: &CoreExpr,
    to: Place,
    rest: Pending<'m>,
) -> Pending<'m> {
    let planned = plan_value(b, e);
    let stored = TypedValue {
        value: planned,
        kind: kind_of(e),
    };
    let code = store_value(b, stored, to, rest);
    emit_value(b, around, e, planned, code)
}

/// A call as a statement.
pub fn called<'m>(
    b: &mut Builder<'m, '_>,
    exits: Exits,
    call: &Chain,
    rest: Pending<'m>,
) -> Pending<'m> {
    plan_chain(b, call);
    emit_chain(b, exits.around, call, rest)
}
