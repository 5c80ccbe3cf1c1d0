use crate::aliases::{emit_alias, load_sizes, plan_alias};
use crate::frames::{frame_of, outer_word};
use m3_core::{Base, Chain, Step, VarKind};
use m3_lower_arrays::{dims_of, new_sizes};
use m3_lower_state::{Builder, Location, Pending, Place, load_at};
use m3_lower_storage::{Form, VarPlace};
use m3_mid::{Kind, MemoryWord, MidOp, Operand};
use m3_types::TypeId;

/// The variable of the own procedure that a chain reads and does no more: its temporary.
pub fn read_variable(b: &Builder, chain: &Chain) -> Option<u32> {
    let Base::Local {
        level,
        variable,
        kind,
    } = chain.base
    else {
        return None;
    };
    if level != b.level {
        return None;
    }
    match (chain.steps, b.storage.place(b.number, variable)) {
        ([Step::Read { .. }], VarPlace::Temps(first)) => match b.storage.form(kind) {
            Form::Number | Form::Reference => Some(first),
            Form::Numbers(_) | Form::Structure(_) | Form::Open => None,
        },
        _ => None,
    }
}

/// The place of a variable; of an outer procedure's one behind the frame of its activation.
pub fn plan_local(b: &mut Builder, level: u32, variable: u32, kind: TypeId) -> Place {
    let owner = b.storage.owner(b.number, level);
    let at = if level == b.level {
        match b.storage.place(owner, variable) {
            VarPlace::Temps(first) => Location::Temps(first),
            VarPlace::Slots(first) => Location::Slots(first),
        }
    } else {
        let frame = b.temp(Kind::Number);
        Location::Address {
            temp: frame,
            offset: outer_word(b, owner, variable),
        }
    };
    match (b.storage.form(kind), is_copied(b, owner, variable)) {
        (Form::Open, true) => copied_array(b, kind),
        (Form::Open, false) => plan_alias(b, level, variable, kind),
        _ => Place::plain(at),
    }
}

/// Whether a variable of an open array type is a VALUE formal, whose cell was made for it.
fn is_copied(b: &Builder, owner: u32, variable: u32) -> bool {
    matches!(
        b.storage.kind_of_variable(owner, variable),
        Some(VarKind::ByValue(_))
    )
}

/// The place behind the cell of an open array that was copied for a VALUE formal.
fn copied_array(b: &mut Builder, kind: TypeId) -> Place {
    let cell = b.temp(Kind::Tidy);
    let dims = dims_of(b, kind);
    Place {
        at: Location::Address {
            temp: cell,
            offset: i64::from(dims).wrapping_add(1),
        },
        base: Operand::Temp(cell),
        sizes: new_sizes(b, dims),
        dims,
    }
}

/// Code that finds a variable: none for one of the own procedure in temporaries or slots.
pub fn emit_local<'m>(
    b: &mut Builder<'m, '_>,
    level: u32,
    variable: u32,
    kind: TypeId,
    place: Place,
    rest: Pending<'m>,
) -> Pending<'m> {
    if b.storage.form(kind) == Form::Open {
        let owner = b.storage.owner(b.number, level);
        return if is_copied(b, owner, variable) {
            emit_copied_array(b, level, variable, place, rest)
        } else {
            emit_alias(b, level, variable, place, rest)
        };
    }
    match place.at {
        Location::Address { temp, .. } if level != b.level => frame_of(b, level, temp, rest),
        _ => rest,
    }
}

/// Loads the cell of an open array that was copied for a VALUE formal, and its sizes.
fn emit_copied_array<'m>(
    b: &mut Builder<'m, '_>,
    level: u32,
    variable: u32,
    place: Place,
    rest: Pending<'m>,
) -> Pending<'m> {
    let Location::Address { temp: cell, .. } = place.at else {
        return rest;
    };
    let code = load_sizes(b, cell, 1, place, rest);
    let owner = b.storage.owner(b.number, level);
    match b.storage.place(owner, variable) {
        VarPlace::Temps(from) => code.after(MidOp::Move { to: cell, from }),
        VarPlace::Slots(slot) if level == b.level => code.after(MidOp::Load {
            to: cell,
            from: MemoryWord::Slot(slot),
        }),
        VarPlace::Slots(slot) => {
            let frame = b.temp(Kind::Number);
            let word = i64::from(slot).wrapping_add(3);
            let code = load_at(b, cell, frame, word, code);
            frame_of(b, level, frame, code)
        }
    }
}
