use crate::statements::{POS, number};
use crate::types::INTEGER;
use crate::words::Words;
use bumpalo::Bump;
use bumpalo::collections::into_bump_slice;
use m3_base::NoMemory;
use m3_core::{Actual, Base, Chain, Step};

/// The chain of a base and steps with commas between them:
///
/// - `global PLACE`, `local PLACE TYPE`, `outer PLACE TYPE` (of a procedure around it) or `alias
///   PLACE`;
/// - `read TYPE`, `keep TYPE`, `to TYPE` (a dereference), `field PLACE`, `object-field TYPE
///   PLACE`, `element`, `call COUNT FORMAL .. [gives]` or `method TYPE PLACE`.
pub fn chain_of<'a>(arena: &'a Bump, form: &str) -> Result<&'a Chain<'a>, NoMemory> {
    let mut steps = Vec::new(arena);
    for part in form.split(", ").skip(1) {
        steps.push(step_of(arena, part)?)?;
    }
    let (first, _) = form.split_once(", ").unwrap_or((form, ""));
    Ok(&*arena.try_alloc(Chain {
        pos: POS,
        base: base_of(first),
        steps: into_bump_slice(steps),
        kind: Some(INTEGER),
    })?)
}

fn base_of<'a>(form: &str) -> Base<'a> {
    let mut words = Words::of(form);
    let name = words.take();
    let variable = words.take_number();
    match name {
        "global" => Base::Global {
            variable,
            kind: INTEGER,
        },
        "alias" => Base::Alias {
            level: 0,
            variable,
            kind: INTEGER,
        },
        "outer" => Base::Local {
            level: 1,
            variable,
            kind: words.take_type(),
        },
        _ => Base::Local {
            level: 0,
            variable,
            kind: words.take_type(),
        },
    }
}

fn step_of<'a>(arena: &'a Bump, form: &str) -> Result<Step<'a>, NoMemory> {
    let mut words = Words::of(form);
    match words.take() {
        "call" => call_of(arena, words),
        "method" => method_call_of(arena, words),
        "element" => Ok(Step::Element {
            index: number(arena)?,
            kind: INTEGER,
        }),
        name => Ok(simple_step_of(name, words)),
    }
}

/// A step without other expressions in it.
fn simple_step_of<'a>(name: &str, mut words: Words<'_>) -> Step<'a> {
    match name {
        "field" => Step::Field {
            field: words.take_number(),
            kind: INTEGER,
        },
        "object-field" => Step::ObjectField {
            owner: words.take_type(),
            field: words.take_number(),
            kind: INTEGER,
        },
        "to" => Step::Dereference {
            kind: words.take_type(),
        },
        "keep" => Step::Keep {
            kind: words.take_type(),
        },
        _ => Step::Read {
            kind: words.take_type(),
        },
    }
}

/// A number for a formal.
fn actual<'a>(arena: &'a Bump, formal: u32) -> Result<Actual<'a>, NoMemory> {
    Ok(Actual::Value {
        formal,
        kind: INTEGER,
        value: number(arena)?,
    })
}

fn call_of<'a>(arena: &'a Bump, mut words: Words<'_>) -> Result<Step<'a>, NoMemory> {
    let mut actuals = Vec::new(arena);
    for _ in 0..words.take_number() {
        actuals.push(actual(arena, words.take_number())?)?;
    }
    let gives = words.take() == "gives";
    Ok(Step::Call {
        actuals: into_bump_slice(actuals),
        kind: if gives { Some(INTEGER) } else { None },
    })
}

fn method_call_of<'a>(arena: &'a Bump, mut words: Words<'_>) -> Result<Step<'a>, NoMemory> {
    Ok(Step::MethodCall {
        owner: words.take_type(),
        method: words.take_number(),
        actuals: &*arena.try_alloc_slice_copy(&[actual(arena, 0)?])?,
        kind: Some(INTEGER),
    })
}
