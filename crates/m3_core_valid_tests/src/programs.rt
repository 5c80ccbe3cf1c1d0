//! Small checked programs, made by hand.
use crate::statements::{POS, statement_of};
use crate::types::{FUNCTION, INTEGER, OBJECT, OPEN_REFERENCE, PLAIN, REFERENCE, types_of};
use crate::words::Words;
use bumpalo::Bump;
use m3_base::NoMemory;
use m3_core::{Core, CoreStmt, ExcDef, ProcDef, Role, Text, Value, ValueId, VarDef, VarKind};
use m3_types::TypeId;
use std::alloc::Global;

/// What programs differ in: their procedures, the order of the bodies, the texts, the constants,
/// and the place of the exception of alerts.
#[derive(Clone, Copy)]
struct Rows<'a> {
    procs: &'a [ProcDef<'a>],
    order: &'a [u32],
    texts: &'a [Text<'a>],
    values: &'a [Value<'a>],
    alerted: u32,
}

/// The text of a program.
const TEXT: Text<'static> = Text::Literal(b"text");

static TEXTS: [Text<'static>; 1] = [TEXT];

/// The program of a form:
///
/// - `program order PLACE` or `program alerted PLACE`: with that body in its order, or that place
///   of the exception of alerts, in place of those that it ought to have; `program` alone with
///   both;
/// - `program joined LEFT RIGHT LENGTH` with one text more, which is made of two and has a length;
/// - `procedure-alone CHANGE` with nothing but one procedure, which is changed: `typed TYPE`,
///   `level NUMBER`, `inside PLACE`, `raises PLACE`, `bare` (without its formal) or nothing;
/// - the statement of the procedure, in any other form.
pub fn program_of<'a>(alloc: Global, arena: &'a Bump, form: &str) -> Result<Core<'a>, NoMemory> {
    let mut words = Words::of(form);
    let rows = match words.take() {
        "program" => changed_program(arena, words)?,
        "procedure-alone" => procedure_alone(arena, words)?,
        _ => program_around(arena, &[statement_of(arena, form)?])?,
    };
    program_by(alloc, arena, rows)
}

/// The program of these rows. It has an INTEGER as its global variable, an exception without an
/// argument and one with an INTEGER, and a text.
fn program_by<'a>(alloc: Global, arena: &'a Bump, rows: Rows<'a>) -> Result<Core<'a>, NoMemory> {
    let global = variable(VarKind::Variable(INTEGER), Role::Global);
    let globals = &*arena.try_alloc_slice_copy(&[global])?;
    let exceptions = [exception(None), exception(Some(INTEGER))];
    let exceptions = &*arena.try_alloc_slice_copy(&exceptions)?;
    let types = types_of(alloc, arena)?;
    Ok(Core {
        types,
        procs: rows.procs,
        globals,
        exceptions,
        texts: rows.texts,
        order: rows.order,
        values: rows.values,
        files: &[b"Main.m3"],
        alerted: rows.alerted,
    })
}

/// A program whose procedure 0 has this body, and whose module body is procedure 1. It has the
/// constants 7 and a record of two of these.
fn program_around<'a>(arena: &'a Bump, body: &[CoreStmt<'a>]) -> Result<Rows<'a>, NoMemory> {
    let body = &*arena.try_alloc_slice_copy(body)?;
    let parts = &*arena.try_alloc_slice_copy(&[ValueId(0), ValueId(0)])?;
    let values = &*arena.try_alloc_slice_copy(&[Value::Number(7), Value::Record(parts)])?;
    let function = function(arena, body)?;
    let procs = &*arena.try_alloc_slice_copy(&[function, module()])?;
    Ok(Rows {
        procs,
        order: &[1],
        texts: &TEXTS,
        values,
        alerted: 0,
    })
}

fn changed_program<'a>(arena: &'a Bump, mut words: Words<'_>) -> Result<Rows<'a>, NoMemory> {
    let rows = program_around(arena, &[])?;
    match words.take() {
        "order" => ordered(arena, rows, words.take_number()),
        "joined" => joined(arena, rows, words),
        "alerted" => Ok(Rows {
            alerted: words.take_number(),
            ..rows
        }),
        _ => Ok(rows),
    }
}

fn ordered<'a>(arena: &'a Bump, rows: Rows<'a>, place: u32) -> Result<Rows<'a>, NoMemory> {
    let order = &*arena.try_alloc_slice_copy(&[place])?;
    Ok(Rows { order, ..rows })
}

fn joined<'a>(arena: &'a Bump, rows: Rows<'a>, mut words: Words<'_>) -> Result<Rows<'a>, NoMemory> {
    let left = words.take_number();
    let right = words.take_number();
    let length = u64::from(words.take_number());
    let joined = Text::Joined {
        left,
        right,
        length,
    };
    let texts = &*arena.try_alloc_slice_copy(&[TEXT, joined])?;
    Ok(Rows { texts, ..rows })
}

fn procedure_alone<'a>(arena: &'a Bump, mut words: Words<'_>) -> Result<Rows<'a>, NoMemory> {
    let proc = function(arena, &[])?;
    let proc = match words.take() {
        "raises" => raising(arena, proc, words.take_number())?,
        change => changed_procedure(proc, change, words),
    };
    let procs = &*arena.try_alloc_slice_copy(&[proc])?;
    Ok(Rows {
        procs,
        order: &[],
        texts: &TEXTS,
        values: &[],
        alerted: 0,
    })
}

fn raising<'a>(
    arena: &'a Bump,
    proc: ProcDef<'a>,
    exception: u32,
) -> Result<ProcDef<'a>, NoMemory> {
    let raises = &*arena.try_alloc_slice_copy(&[exception])?;
    Ok(ProcDef {
        raises: Some(raises),
        ..proc
    })
}

fn changed_procedure<'a>(proc: ProcDef<'a>, change: &str, words: Words<'_>) -> ProcDef<'a> {
    let mut proc = proc;
    change_procedure(&mut proc, change, words);
    proc
}

fn change_procedure(proc: &mut ProcDef<'_>, change: &str, mut words: Words<'_>) {
    match change {
        "typed" => proc.kind = words.take_type(),
        "level" => proc.level = words.take_number(),
        "inside" => proc.outer = words.take_optional(),
        "bare" => proc.formals = &[],
        _ => {}
    }
}

fn variable<'a>(kind: VarKind, role: Role) -> VarDef<'a> {
    VarDef {
        unit: b"Main",
        name: b"v",
        kind,
        role,
        pos: POS,
        initial: None,
    }
}

fn local<'a>(kind: TypeId) -> VarDef<'a> {
    variable(VarKind::Variable(kind), Role::Local)
}

fn exception<'a>(argument: Option<TypeId>) -> ExcDef<'a> {
    ExcDef {
        unit: b"Main",
        name: b"E",
        argument,
    }
}

fn formals_of<'a>(arena: &'a Bump) -> Result<&'a [VarDef<'a>], NoMemory> {
    let formal = variable(VarKind::ByValue(INTEGER), Role::Formal);
    Ok(&*arena.try_alloc_slice_copy(&[formal])?)
}

fn locals_of<'a>(arena: &'a Bump) -> Result<&'a [VarDef<'a>], NoMemory> {
    let alias = variable(VarKind::Alias(INTEGER), Role::With);
    let locals = [
        local(REFERENCE),
        local(OBJECT),
        local(OPEN_REFERENCE),
        local(FUNCTION),
        alias,
    ];
    Ok(&*arena.try_alloc_slice_copy(&locals)?)
}

/// The procedure F(x: INTEGER): INTEGER with the locals r: REF of the record, o: the object, q:
/// REF of the array, f: a function and an alias of an INTEGER, at places 1 to 5.
fn function<'a>(arena: &'a Bump, body: &'a [CoreStmt<'a>]) -> Result<ProcDef<'a>, NoMemory> {
    let formals = formals_of(arena)?;
    let locals = locals_of(arena)?;
    Ok(ProcDef {
        name: b"F",
        unit: 0,
        kind: FUNCTION,
        formals,
        result: Some(INTEGER),
        raises: None,
        locals,
        level: 0,
        outer: None,
        body,
        pos: POS,
        name_pos: POS,
        end: POS,
        is_module: false,
    })
}

/// The body of the module.
fn module<'a>() -> ProcDef<'a> {
    ProcDef {
        name: b"Main",
        unit: 0,
        kind: PLAIN,
        formals: &[],
        result: None,
        raises: None,
        locals: &[],
        level: 0,
        outer: None,
        body: &[],
        pos: POS,
        name_pos: POS,
        end: POS,
        is_module: true,
    }
}
