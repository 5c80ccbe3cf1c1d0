use crate::heads::Variable;
use m3_base::NoMemory;
use m3_core::{Role, VarDef, VarKind};
use m3_lower_objects::{Form, form_of, node_of};
use m3_types::{TypeId, TypeNode};
use m3_types_sizes::SizedTypes;
use std::alloc::Global;

/// Where a variable of a procedure is kept: in temporaries or in slots in a row, from the one that
/// is named.
///
/// A variable has the words of its value. What a VAR or READONLY formal stands for is kept in slots
/// as its address, the tidy pointer that the address was made from (0 where it is none of the
/// heap), and the sizes of an open array. What WITH binds to a place is kept so too where
/// temporaries hold it; slots hold the tidy pointer, the distance from it to the address, and the
/// sizes. A variable of an open array type, which WITH makes of a value, is kept as such an alias
/// of that value.
#[derive(Clone, Copy, PartialEq, Eq)]
pub enum VarPlace {
    Temps(u32),
    Slots(u32),
}

/// The dimensions of an open array type, and 0 for any other type.
pub fn open_dims(types: &SizedTypes, t: TypeId) -> u32 {
    let mut dims = 0u32;
    let mut at = t;
    for _ in 0..types.graph.nodes.len() {
        match node_of(types, at) {
            TypeNode::OpenArray(element) => {
                dims = dims.saturating_add(1);
                at = element;
            }
            _ => break,
        }
    }
    dims
}

/// The type of a variable or of what an alias stands for.
pub fn type_of_variable(kind: VarKind) -> TypeId {
    match kind {
        VarKind::Variable(t)
        | VarKind::ByValue(t)
        | VarKind::ByVar(t)
        | VarKind::ByReadonly(t)
        | VarKind::Alias(t) => t,
    }
}

/// The words in which a variable is kept.
pub fn words_of_variable(types: &SizedTypes, kind: VarKind) -> u64 {
    match kind {
        VarKind::Variable(t) => match form_of(types, t) {
            Form::Open => u64::from(open_dims(types, t)).saturating_add(2),
            form => form.words(),
        },
        VarKind::ByValue(t) => match form_of(types, t) {
            Form::Open => 1,
            form => form.words(),
        },
        VarKind::ByVar(t) | VarKind::ByReadonly(t) | VarKind::Alias(t) => {
            u64::from(open_dims(types, t)).saturating_add(2)
        }
    }
}

/// Whether slots keep a variable, and not temporaries.
fn needs_slots(types: &SizedTypes, variable: &Variable) -> bool {
    match variable.kind {
        VarKind::Alias(_) => variable.is_shared,
        VarKind::ByVar(_) | VarKind::ByReadonly(_) => true,
        VarKind::ByValue(t) => {
            let form = form_of(types, t);
            let is_moved = form == Form::Reference && variable.is_written;
            variable.is_shared || is_moved || !form.is_scalar()
        }
        VarKind::Variable(t) => match form_of(types, t) {
            Form::Open => variable.is_shared,
            form => variable.is_shared || !form.is_scalar(),
        },
    }
}

/// How many slots and temporaries the variables of a procedure take.
#[derive(Clone, Copy, PartialEq, Eq)]
pub struct Room {
    /// The slots of the formals' words, with the one for the address of a result of two words or
    /// more.
    pub formals: u32,
    pub slots: u32,
    pub temps: u32,
}

impl Room {
    /// No slots and no temporaries.
    pub fn none() -> Room {
        Room {
            formals: 0,
            slots: 0,
            temps: 0,
        }
    }
}

/// Whether a procedure with a result of a type stores it at an address that its caller gives.
pub fn stores_result(types: &SizedTypes, kind: Option<TypeId>) -> bool {
    match kind {
        Some(t) => form_of(types, t).words() >= 2,
        None => false,
    }
}

fn further(at: u32, words: u64) -> Result<u32, NoMemory> {
    match u32::try_from(u64::from(at).saturating_add(words)) {
        Ok(next) => Ok(next),
        Err(_) => Err(NoMemory),
    }
}

/// Gives a formal its place behind those before it.
pub fn place_formal(
    types: &SizedTypes,
    formal: &mut Variable,
    room: &mut Room,
) -> Result<(), NoMemory> {
    let words = words_of_variable(types, formal.kind);
    let slot = room.slots;
    room.slots = further(slot, words)?;
    if needs_slots(types, formal) {
        formal.place = VarPlace::Slots(slot);
    } else {
        formal.place = VarPlace::Temps(room.temps);
        room.temps = further(room.temps, words)?;
    }
    Ok(())
}

/// Keeps room for the address of a result behind the formals, where there is one.
pub fn place_result(
    types: &SizedTypes,
    kind: Option<TypeId>,
    room: &mut Room,
) -> Result<(), NoMemory> {
    if stores_result(types, kind) {
        room.slots = further(room.slots, 1)?;
    }
    room.formals = room.slots;
    Ok(())
}

/// Gives a variable that is no formal its place behind those before it.
pub fn place_local(
    types: &SizedTypes,
    local: &mut Variable,
    room: &mut Room,
) -> Result<(), NoMemory> {
    let words = words_of_variable(types, local.kind);
    if needs_slots(types, local) {
        local.place = VarPlace::Slots(room.slots);
        room.slots = further(room.slots, words)?;
    } else {
        local.place = VarPlace::Temps(room.temps);
        room.temps = further(room.temps, words)?;
    }
    Ok(())
}

/// A global variable: the first of its words, counted from the start of the globals, and its type.
#[derive(Clone, Copy, PartialEq, Eq)]
pub struct GlobalPlace {
    pub word: u32,
    pub kind: TypeId,
}

/// The places of the global variables, and the words of all.
pub fn place_globals(
    alloc: Global,
    types: &SizedTypes,
    globals: &[VarDef],
) -> Result<(Vec<GlobalPlace>, u32), NoMemory> {
    let mut places = Vec::new(alloc);
    let mut next = 4u32;
    for global in globals {
        places.push(GlobalPlace {
            word: next,
            kind: type_of_variable(global.kind),
        })?;
        next = further(next, words_of_variable(types, global.kind))?;
    }
    Ok((places, next))
}

/// Whether the value of a variable is shown: it is of an ordinal or reference type, stands for no
/// place, and isn't the hidden name of a LOCK.
pub fn is_shown(types: &SizedTypes, kind: VarKind, role: Role) -> bool {
    match kind {
        VarKind::Variable(t) | VarKind::ByValue(t) => {
            role != Role::Lock && is_ordinal_or_reference(types, t)
        }
        VarKind::ByVar(_) | VarKind::ByReadonly(_) | VarKind::Alias(_) => false,
    }
}

fn is_ordinal_or_reference(types: &SizedTypes, t: TypeId) -> bool {
    match node_of(types, t) {
        TypeNode::SetOf(_) => false,
        _ => match form_of(types, t) {
            Form::Number | Form::Reference => true,
            Form::Numbers(_) | Form::Structure(_) | Form::Open => false,
        },
    }
}
