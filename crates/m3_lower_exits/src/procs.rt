use crate::exits::{Exits, Outcome, Returning};
use crate::scopes::showing;
use m3_base::FaultKind;
use m3_core::VarKind;
use m3_lower_arrays::dims_of;
use m3_lower_state::{Around, Builder, Location, Pending, Place, choice, kind_of_form};
use m3_lower_storage::{
    Form, Head, VarPlace, stores_result, type_of_variable, word_number, words_of_variable,
};
use m3_mid::{End, Kind, MemoryWord, MidOp, Operand, Raised, Relation};
use m3_types::TypeId;

/// Whether the one word of a record or array is a reference.
pub fn is_reference_word(b: &mut Builder, kind: TypeId) -> bool {
    match b.storage.form(kind) {
        Form::Reference => true,
        Form::Structure(_) => match b.storage.shape(b.alloc, kind) {
            Ok(shape) => !shape.pointers.is_empty(),
            Err(_) => {
                b.fail();
                false
            }
        },
        _ => false,
    }
}

/// What stands behind the body: a function's END is a fault.
pub fn ending<'m>(b: &Builder<'m, '_>, head: &Head) -> Pending<'m> {
    match head.result {
        Some(_) => b.fault(FaultKind::NoReturn, head.end),
        None => Pending::bare(b.alloc, End::Return { value: None }),
    }
}

/// The temporaries and slots of the variables, in the order of their places.
pub fn declare(b: &mut Builder, head: &Head) {
    for variable in 0..head.formals {
        if let Some(kind) = b.storage.kind_of_variable(b.number, variable) {
            add_formal(b, variable, kind);
        }
    }
    if stores_result(b.storage.types, head.result) {
        b.slot(Kind::Number, false);
    }
    for variable in head.formals..head.variables {
        if let Some(kind) = b.storage.kind_of_variable(b.number, variable) {
            add_local(b, variable, kind);
        }
    }
    b.raised = Raised {
        exception: b.temp(Kind::Number),
        number: b.temp(Kind::Number),
        tidy: b.temp(Kind::Tidy),
    };
}

fn add_formal(b: &mut Builder, variable: u32, kind: VarKind) {
    let is_shared = b.storage.is_shared(b.number, variable);
    match kind {
        VarKind::ByVar(t) | VarKind::ByReadonly(t) => {
            b.slot(Kind::Address, is_shared);
            b.slot(Kind::Tidy, is_shared);
            for _ in 0..dims_of(b, t) {
                b.slot(Kind::Number, is_shared);
            }
        }
        VarKind::ByValue(t) | VarKind::Variable(t) | VarKind::Alias(t) => {
            match b.storage.form(t) {
                Form::Open => {
                    b.slot(Kind::Tidy, is_shared);
                }
                Form::Structure(_) => b.add_value(t),
                form => add_slots(b, form, is_shared),
            }
        }
    }
    if let VarPlace::Temps(_) = b.storage.place(b.number, variable) {
        add_temps(b, kind);
    }
}

fn add_slots(b: &mut Builder, form: Form, is_shared: bool) {
    for _ in 0..form.words() {
        b.slot(kind_of_form(form), is_shared);
    }
}

fn add_local(b: &mut Builder, variable: u32, kind: VarKind) {
    match b.storage.place(b.number, variable) {
        VarPlace::Temps(_) => add_temps(b, kind),
        VarPlace::Slots(_) => {
            let t = type_of_variable(kind);
            match (kind, b.storage.form(t)) {
                (VarKind::Alias(_), _) | (_, Form::Open) => {
                    b.slot(Kind::Tidy, true);
                    b.slot(Kind::Number, true);
                    for _ in 0..dims_of(b, t) {
                        b.slot(Kind::Number, true);
                    }
                }
                (_, Form::Structure(_)) => b.add_value(t),
                (_, form) => add_slots(b, form, true),
            }
        }
    }
}

fn add_temps(b: &mut Builder, kind: VarKind) {
    let t = type_of_variable(kind);
    let form = b.storage.form(t);
    let is_alias = matches!(kind, VarKind::Alias(_));
    if is_alias || form == Form::Open {
        b.temp(Kind::Address);
        b.temp(Kind::Tidy);
        for _ in 0..dims_of(b, t) {
            b.temp(Kind::Number);
        }
        return;
    }
    for _ in 0..form.words() {
        b.temp(kind_of_form(form));
    }
}

/// Loads the formals that temporaries keep.
pub fn first_moves<'m>(b: &Builder<'m, '_>, head: &Head, rest: Pending<'m>) -> Pending<'m> {
    let mut code = rest;
    let mut slot = 0u32;
    for variable in 0..head.formals {
        let words = words_kept(b, variable);
        if let VarPlace::Temps(first) = b.storage.place(b.number, variable) {
            for word in 0..words {
                code = code.after(MidOp::Load {
                    to: first.wrapping_add(word),
                    from: MemoryWord::Slot(slot.wrapping_add(word)),
                });
            }
        }
        slot = slot.wrapping_add(words);
    }
    code
}

/// The words in which a variable is kept.
fn words_kept(b: &Builder, variable: u32) -> u32 {
    match b.storage.kind_of_variable(b.number, variable) {
        Some(kind) => word_number(words_of_variable(b.storage.types, kind)),
        None => 0,
    }
}

/// The exits of a procedure's body.
pub fn exits_of<'m>(b: &mut Builder<'m, '_>, head: &Head) -> Exits {
    let outcome = outcome_of(b, head.result);
    let raised = left_by_exception(b, head);
    let exits = Exits {
        around: Around {
            scope: None,
            raised,
        },
        exit: None,
        returning: Returning::Ends,
        outcome,
    };
    let mut formals = Vec::new(b.alloc);
    for variable in 0..head.formals {
        if formals.push(variable).is_err() {
            b.fail();
        }
    }
    showing(b, exits, formals.as_slice())
}

fn outcome_of(b: &mut Builder, kind: Option<TypeId>) -> Outcome {
    let Some(kind) = kind else {
        return Outcome::Nothing;
    };
    let form = b.storage.form(kind);
    match form.words() {
        0 => Outcome::Nothing,
        1 => {
            let is_tidy = is_reference_word(b, kind);
            let word = if is_tidy { Kind::Tidy } else { Kind::Number };
            Outcome::Word {
                temp: b.temp(word),
                kind,
            }
        }
        _ => Outcome::Wide {
            slot: b.storage.room(b.number).formals.saturating_sub(1),
            kind,
        },
    }
}

/// The block that leaves the procedure by an exception, or faults where its heading lacks it.
fn left_by_exception(b: &mut Builder, head: &Head) -> u32 {
    let travels = b.raised;
    let leaving = Pending::bare(
        b.alloc,
        End::Raise {
            exception: Operand::Temp(travels.exception),
            number: Operand::Temp(travels.number),
            tidy: Operand::Temp(travels.tidy),
        },
    );
    let Some(raises) = head.raises else {
        return b.seal(leaving);
    };
    let leave = b.seal(leaving);
    let mut code = b.fault(FaultKind::Raises, head.pos);
    for exception in raises.iter().rev() {
        let no = b.seal(code);
        code = choice(
            b,
            Relation::Equal,
            Operand::Temp(travels.exception),
            Operand::Number(i64::from(*exception).wrapping_add(1)),
            leave,
            no,
        );
    }
    b.seal(code)
}

/// Where a global variable is.
pub fn global_place(b: &Builder, variable: u32) -> Place {
    Place::plain(Location::Globals(b.storage.global(variable)))
}
