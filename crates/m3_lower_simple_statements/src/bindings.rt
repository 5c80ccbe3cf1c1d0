use crate::assignments::word_into;
use m3_core::{Bound, Chain, CoreExpr, WithBinding};
use m3_lower_actuals::{plan_chain, plan_structure};
use m3_lower_arrays::fitted;
use m3_lower_exits::{Exits, clear_variables, place_of, showing, type_of};
use m3_lower_expr::{emit_chain, emit_structure, fetch, into_temps, structure_into};
use m3_lower_places::{alias_in_temps, source};
use m3_lower_state::{
    Builder, Location, Pending, Place, address_kind, arith, kind_of, set, store_word, store_words,
    take_address,
};
use m3_lower_storage::{Form, VarPlace};
use m3_mid::{Kind, Operand, WordOperator};

/// The exits of the scope in which each name of WITH is bound, and those inside all of them.
pub fn scopes_of<'m>(
    b: &mut Builder<'m, '_>,
    exits: Exits,
    bindings: &[WithBinding],
) -> (Vec<Exits>, Exits) {
    let mut inside = exits;
    let mut scopes = Vec::new(b.alloc);
    for binding in bindings {
        if scopes.push(inside).is_err() {
            b.fail();
        }
        inside = showing(b, inside, &[binding.variable]);
    }
    (scopes, inside)
}

/// Clears what the names of WITH hold, where their scope ends.
pub fn clear_bindings<'m>(
    b: &mut Builder<'m, '_>,
    bindings: &[WithBinding],
    rest: Pending<'m>,
) -> Pending<'m> {
    let mut code = rest;
    for binding in bindings {
        code = clear_variables(b, &[binding.variable], code);
    }
    code
}

/// Binds the names of WITH in order, each in its scope.
pub fn bind_all<'m>(
    b: &mut Builder<'m, '_>,
    scopes: &[Exits],
    bindings: &[WithBinding],
    rest: Pending<'m>,
) -> Pending<'m> {
    let mut code = rest;
    for place in (0..bindings.len()).rev() {
        if let (Some(binding), Some(scope)) = (bindings.get(place), scopes.get(place)) {
            code = bind(b, *scope, binding, code);
        }
    }
    code
}

fn bind<'m>(
    b: &mut Builder<'m, '_>,
    exits: Exits,
    binding: &WithBinding,
    rest: Pending<'m>,
) -> Pending<'m> {
    match binding.bound {
        Bound::Place(chain) => bind_place(b, exits, binding.variable, chain, rest),
        Bound::Value(value) => bind_value(b, exits, binding.variable, value, rest),
    }
}

fn bind_place<'m>(
    b: &mut Builder<'m, '_>,
    exits: Exits,
    variable: u32,
    chain: &Chain,
    rest: Pending<'m>,
) -> Pending<'m> {
    let place = plan_chain(b, chain).place();
    let code = alias_to(b, variable, place, rest);
    emit_chain(b, exits.around, chain, code)
}

/// Makes an alias of a place.
fn alias_to<'m>(
    b: &mut Builder<'m, '_>,
    variable: u32,
    place: Place,
    rest: Pending<'m>,
) -> Pending<'m> {
    match b.storage.place(b.number, variable) {
        VarPlace::Temps(first) => {
            let alias = alias_in_temps(b, first, place.dims);
            let mut code = rest;
            for dim in 0..place.dims {
                let size = b.size_at(place.sizes.wrapping_add(dim));
                if let Operand::Temp(to) = b.size_at(alias.sizes.wrapping_add(dim)) {
                    code = set(to, size, code);
                }
            }
            let code = set(first.wrapping_add(1), place.base, code);
            take_address(first, place, code)
        }
        VarPlace::Slots(first) => alias_to_slots(b, first, place, rest),
    }
}

/// Keeps an alias in slots: its base, the distance from it, and the sizes.
fn alias_to_slots<'m>(
    b: &mut Builder<'m, '_>,
    first: u32,
    place: Place,
    rest: Pending<'m>,
) -> Pending<'m> {
    let at = Place::plain(Location::Slots(first));
    let mut code = rest;
    for dim in 0..place.dims {
        let size = b.size_at(place.sizes.wrapping_add(dim));
        code = store_word(b, at, u64::from(dim).wrapping_add(2), size, code);
    }
    let kind = address_kind(b, place);
    let address = b.temp(kind);
    let distance = b.temp(Kind::Number);
    let code = store_word(b, at, 1, Operand::Temp(distance), code);
    let code = store_word(b, at, 0, place.base, code);
    let code = code.after(arith(
        distance,
        WordOperator::Subtract,
        Operand::Temp(address),
        place.base,
    ));
    take_address(address, place, code)
}

fn bind_value<'m>(
    b: &mut Builder<'m, '_>,
    exits: Exits,
    variable: u32,
    value: &CoreExpr,
    rest: Pending<'m>,
) -> Pending<'m> {
    let Some(kind) = type_of(b, variable) else {
        return rest;
    };
    let to = place_of(b, variable);
    match b.storage.form(kind) {
        Form::Open => {
            let from = plan_structure(b, value);
            let from = fitted(b, from, kind_of(value), kind);
            let code = alias_to(b, variable, from, rest);
            emit_structure(b, exits.around, value, from, code)
        }
        Form::Structure(_) => structure_into(b, exits.around, value, kind, to, rest),
        Form::Numbers(count) => match to.at {
            Location::Temps(first) => into_temps(b, exits.around, value, first, rest),
            _ => {
                let first = b.temps(Kind::Number, count);
                let code = store_words(b, to, first, count, rest);
                into_temps(b, exits.around, value, first, code)
            }
        },
        Form::Number | Form::Reference => match to.at {
            Location::Temps(temp) => word_into(b, exits, value, temp, rest),
            _ => {
                let operand = source(b, value);
                let code = store_word(b, to, 0, operand, rest);
                fetch(b, exits.around, value, operand, code)
            }
        },
    }
}
