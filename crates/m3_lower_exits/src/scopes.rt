use crate::exits::Exits;
use m3_lower_arrays::store_default;
use m3_lower_state::{Builder, Location, Pending, Place};
use m3_lower_storage::{VarPlace, type_of_variable};
use m3_mid::{Held, Shown};
use m3_types::TypeId;

/// The exits of a scope in which more variables are shown.
pub fn showing<'m>(b: &mut Builder<'m, '_>, exits: Exits, variables: &[u32]) -> Exits {
    let mut row = Vec::new(b.alloc);
    for variable in variables {
        if let Some(place) = b.storage.shown(b.number, *variable) {
            let at = match b.storage.place(b.number, *variable) {
                VarPlace::Temps(temp) => Held::Temp(temp),
                VarPlace::Slots(slot) => Held::Slot(slot),
            };
            if row.push(Shown { var: place, at }).is_err() {
                b.fail();
            }
        }
    }
    if row.is_empty() {
        return exits;
    }
    let around = b.scope(exits.around, row.as_slice());
    exits.showing(around)
}

/// Where a variable of the own procedure is.
pub fn place_of(b: &Builder, variable: u32) -> Place {
    match b.storage.place(b.number, variable) {
        VarPlace::Temps(first) => Place::plain(Location::Temps(first)),
        VarPlace::Slots(first) => Place::plain(Location::Slots(first)),
    }
}

/// The type of a variable of the own procedure.
pub fn type_of(b: &Builder, variable: u32) -> Option<TypeId> {
    match b.storage.kind_of_variable(b.number, variable) {
        Some(kind) => Some(type_of_variable(kind)),
        None => None,
    }
}

/// Gives variables their defaults.
pub fn defaults<'m>(b: &mut Builder<'m, '_>, variables: &[u32], rest: Pending<'m>) -> Pending<'m> {
    let mut code = rest;
    for variable in variables.iter().rev() {
        if let Some(kind) = type_of(b, *variable) {
            let place = place_of(b, *variable);
            code = store_default(b, kind, place, false, code);
        }
    }
    code
}
