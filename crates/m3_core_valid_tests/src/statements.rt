use crate::chains::chain_of;
use crate::types::{FUNCTION, INTEGER, OPEN, RECORD, REFERENCE};
use crate::words::Words;
use bumpalo::Bump;
use bumpalo::collections::into_bump_slice;
use m3_base::{NoMemory, Pos};
use m3_core::{
    Base, BuiltinCall, Chain, Conversion, CoreExpr, CoreStmt, FieldValue, Routine, Step, ValueId,
};
use m3_types::TypeId;

/// No place of a source, since none is told.
pub const POS: Pos = Pos {
    file: 0,
    line: 1,
    col: 1,
};

/// The statement of a form:
///
/// - `give CHAIN` (EVAL of what it gives), `assign CHAIN`;
/// - `exit`, `loop`, `for PLACE` (these two with an EXIT in them), `return [1]`, `raise PLACE
///   [1]`;
/// - `max COUNT COUNT PLACE .. [gives]` or `put-int ..`: a call with so many actuals, and their
///   places in order, a statement of its own unless it gives a number;
/// - EVAL of a value: `text PLACE`, `constant PLACE`, `procedure PLACE`, `inner PLACE`, `record
///   TYPE PLACE PLACE` (a number for each of two fields), `new TYPE COUNT` (with so many sizes) or
///   `array TYPE ROW` (of one row, which is `written`, `constant`, either of these `checked`, or a
///   variable of a type).
pub fn statement_of<'a>(arena: &'a Bump, form: &str) -> Result<CoreStmt<'a>, NoMemory> {
    let (name, rest) = form.split_once(" ").unwrap_or((form, ""));
    let words = Words::of(rest);
    match name {
        "give" => evaluated(arena, CoreExpr::Chain(chain_of(arena, rest)?)),
        "assign" => assignment(arena, chain_of(arena, rest)?),
        "exit" => Ok(CoreStmt::Exit { pos: POS }),
        "loop" => Ok(CoreStmt::Loop {
            pos: POS,
            body: exit_alone(arena)?,
        }),
        "for" => counted(arena, words),
        "return" => returned(arena, words),
        "raise" => raised(arena, words),
        "max" => call_of(arena, Routine::Max, words),
        "put-int" => call_of(arena, Routine::PutInt, words),
        _ => evaluated(arena, value_of(arena, name, words)?),
    }
}

/// A number.
pub fn number<'a>(arena: &'a Bump) -> Result<&'a CoreExpr<'a>, NoMemory> {
    Ok(&*arena.try_alloc(CoreExpr::Number {
        pos: POS,
        kind: INTEGER,
        value: 1,
    })?)
}

/// A number where there is a next word.
fn optional<'a>(
    arena: &'a Bump,
    words: &mut Words<'_>,
) -> Result<Option<&'a CoreExpr<'a>>, NoMemory> {
    match words.take_optional() {
        Some(_) => Ok(Some(number(arena)?)),
        None => Ok(None),
    }
}

/// So many numbers.
fn numbers<'a>(arena: &'a Bump, count: u32) -> Result<&'a [CoreExpr<'a>], NoMemory> {
    let mut row = Vec::new(arena);
    for _ in 0..count {
        row.push(*number(arena)?)?;
    }
    Ok(into_bump_slice(row))
}

fn evaluated<'a>(arena: &'a Bump, value: CoreExpr<'a>) -> Result<CoreStmt<'a>, NoMemory> {
    Ok(CoreStmt::Eval {
        pos: POS,
        value: &*arena.try_alloc(value)?,
    })
}

fn assignment<'a>(arena: &'a Bump, target: &'a Chain<'a>) -> Result<CoreStmt<'a>, NoMemory> {
    Ok(CoreStmt::Assign {
        pos: POS,
        target,
        value: number(arena)?,
        checks_shape: false,
    })
}

fn exit_alone<'a>(arena: &'a Bump) -> Result<&'a [CoreStmt<'a>], NoMemory> {
    Ok(&*arena.try_alloc_slice_copy(&[CoreStmt::Exit { pos: POS }])?)
}

fn counted<'a>(arena: &'a Bump, mut words: Words<'_>) -> Result<CoreStmt<'a>, NoMemory> {
    Ok(CoreStmt::For {
        pos: POS,
        variable: words.take_number(),
        first: number(arena)?,
        last: number(arena)?,
        step: None,
        body: exit_alone(arena)?,
    })
}

fn returned<'a>(arena: &'a Bump, mut words: Words<'_>) -> Result<CoreStmt<'a>, NoMemory> {
    Ok(CoreStmt::Return {
        pos: POS,
        value: optional(arena, &mut words)?,
    })
}

fn raised<'a>(arena: &'a Bump, mut words: Words<'_>) -> Result<CoreStmt<'a>, NoMemory> {
    Ok(CoreStmt::Raise {
        pos: POS,
        exception: words.take_number(),
        argument: optional(arena, &mut words)?,
    })
}

fn call_of<'a>(
    arena: &'a Bump,
    routine: Routine,
    mut words: Words<'_>,
) -> Result<CoreStmt<'a>, NoMemory> {
    let actuals = numbers(arena, words.take_number())?;
    let mut order = Vec::new(arena);
    for _ in 0..words.take_number() {
        order.push(words.take_number())?;
    }
    let kind = if words.take() == "gives" {
        Some(INTEGER)
    } else {
        None
    };
    let call = &*arena.try_alloc(BuiltinCall {
        pos: POS,
        routine,
        actuals,
        order: into_bump_slice(order),
        kind,
    })?;
    called(arena, call)
}

/// A call as a value, or as a statement where it gives none.
fn called<'a>(arena: &'a Bump, call: &'a BuiltinCall<'a>) -> Result<CoreStmt<'a>, NoMemory> {
    match call.kind {
        Some(_) => evaluated(arena, CoreExpr::Builtin(call)),
        None => Ok(CoreStmt::Builtin { pos: POS, call }),
    }
}

fn value_of<'a>(
    arena: &'a Bump,
    name: &str,
    mut words: Words<'_>,
) -> Result<CoreExpr<'a>, NoMemory> {
    match name {
        "record" => record_of(arena, words),
        "new" => new_of(arena, words),
        "array" => array_of(arena, words),
        _ => Ok(constant_of(name, words.take_number())),
    }
}

/// What stands at a place of one of the program's lists.
fn constant_of<'a>(name: &str, place: u32) -> CoreExpr<'a> {
    match name {
        "text" => CoreExpr::Text {
            pos: POS,
            kind: REFERENCE,
            text: place,
        },
        "constant" => CoreExpr::Constant {
            pos: POS,
            kind: RECORD,
            value: ValueId(place),
        },
        "inner" => CoreExpr::InnerProcedure {
            pos: POS,
            kind: FUNCTION,
            procedure: place,
        },
        _ => CoreExpr::Procedure {
            pos: POS,
            kind: FUNCTION,
            procedure: place,
        },
    }
}

/// A number for the field at a place.
fn field_value<'a>(arena: &'a Bump, field: u32) -> Result<FieldValue<'a>, NoMemory> {
    let value = number(arena)?;
    Ok(FieldValue { field, value })
}

fn record_of<'a>(arena: &'a Bump, mut words: Words<'_>) -> Result<CoreExpr<'a>, NoMemory> {
    let kind = words.take_type();
    let first = field_value(arena, words.take_number())?;
    let second = field_value(arena, words.take_number())?;
    Ok(CoreExpr::RecordOf {
        pos: POS,
        kind,
        fields: &*arena.try_alloc_slice_copy(&[first, second])?,
    })
}

fn new_of<'a>(arena: &'a Bump, mut words: Words<'_>) -> Result<CoreExpr<'a>, NoMemory> {
    let made: TypeId = words.take_type();
    Ok(CoreExpr::New {
        pos: POS,
        kind: made,
        made,
        sizes: numbers(arena, words.take_number())?,
        bindings: &[],
    })
}

fn array_of<'a>(arena: &'a Bump, mut words: Words<'_>) -> Result<CoreExpr<'a>, NoMemory> {
    let kind = words.take_type();
    let row = row_of(arena, words)?;
    Ok(CoreExpr::ArrayOf {
        pos: POS,
        kind,
        elements: &*arena.try_alloc_slice_copy(&[row])?,
        is_filled: false,
    })
}

fn row_of<'a>(arena: &'a Bump, mut words: Words<'_>) -> Result<CoreExpr<'a>, NoMemory> {
    match words.take() {
        "checked" => Ok(CoreExpr::Convert {
            pos: POS,
            kind: OPEN,
            check: Conversion::Shape,
            operand: &*arena.try_alloc(known_row_of(arena, words.take())?)?,
        }),
        "variable" => variable_of(arena, words.take_type()),
        name => known_row_of(arena, name),
    }
}

/// A row that is written out, or a constant.
fn known_row_of<'a>(arena: &'a Bump, name: &str) -> Result<CoreExpr<'a>, NoMemory> {
    match name {
        "written" => Ok(CoreExpr::ArrayOf {
            pos: POS,
            kind: OPEN,
            elements: numbers(arena, 1)?,
            is_filled: false,
        }),
        _ => Ok(CoreExpr::Constant {
            pos: POS,
            kind: OPEN,
            value: ValueId(0),
        }),
    }
}

/// What the variable at place 0 holds, as a value of a type.
fn variable_of<'a>(arena: &'a Bump, kind: TypeId) -> Result<CoreExpr<'a>, NoMemory> {
    let base = Base::Local {
        level: 0,
        variable: 0,
        kind,
    };
    let steps = &*arena.try_alloc_slice_copy(&[Step::Read { kind }])?;
    Ok(CoreExpr::Chain(&*arena.try_alloc(Chain {
        pos: POS,
        base,
        steps,
        kind: Some(kind),
    })?))
}
