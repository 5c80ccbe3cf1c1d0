use crate::elements::{actual_given, named, one, range};
use crate::leaves::{leaf, type_thing};
use bumpalo::collections::into_bump_slice;
use m3_base::{NoMemory, Pos};
use m3_check_assigning::{parenthesized, value_of};
use m3_check_calls::call;
use m3_check_constructors::{Part, Written, constructor};
use m3_check_names::{inner_name, type_of};
use m3_check_operators::{Index, combined, dereference, dot, indexed, nots, signed};
use m3_check_state::{Checker, Given, Thing, Valued};
use m3_syntax::{Actual, Element, Expr, Selector};

/// An expression as a value; none where something in it was refused.
pub fn expression<'a>(
    checker: &mut Checker<'_, 'a>,
    value: &Expr<'a>,
) -> Result<Option<Valued<'a>>, NoMemory> {
    let thing = operand(checker, value)?;
    value_of(checker, value.pos(), &thing)
}

/// An expression that is assigned, returned, bound or given to something.
pub fn given<'a>(checker: &mut Checker<'_, 'a>, value: &Expr<'a>) -> Result<Given<'a>, NoMemory> {
    Ok(Given {
        pos: value.pos(),
        name: None,
        inner: inner_name(checker, value),
        thing: operand(checker, value)?,
    })
}

/// What an expression is.
#[cycle(expressions)]
pub fn operand<'a>(checker: &mut Checker<'_, 'a>, value: &Expr<'a>) -> Result<Thing<'a>, NoMemory> {
    match value {
        Expr::Parenthesis { pos, inner } => {
            let thing = operand(checker, inner)?;
            parenthesized(checker, *pos, &thing)
        }
        Expr::Not {
            pos,
            words,
            operand: inner,
        } => {
            let thing = operand(checker, inner)?;
            nots(checker, *pos, words, inner.pos(), &thing)
        }
        Expr::Signed {
            pos,
            signs,
            operand: inner,
        } => {
            let thing = operand(checker, inner)?;
            signed(checker, *pos, signs, inner.pos(), &thing)
        }
        Expr::Operations { .. } => operations(checker, value),
        Expr::Selected { .. } => selected(checker, value),
        Expr::Constructor { .. } => constructed(checker, value),
        _ => leaf(checker, value),
    }
}

/// Operands with operators of one level, which group to the left.
#[cycle(expressions)]
fn operations<'a>(checker: &mut Checker<'_, 'a>, value: &Expr<'a>) -> Result<Thing<'a>, NoMemory> {
    let Expr::Operations { pos, first, rest } = value else {
        return Ok(Thing::Bad);
    };
    let thing = operand(checker, first)?;
    let first = value_of(checker, first.pos(), &thing)?;
    let mut rights = Vec::new(checker.arena);
    for operation in *rest {
        let thing = operand(checker, operation.right)?;
        let value = value_of(checker, operation.right.pos(), &thing)?;
        rights.push(value)?;
    }
    combined(checker, *pos, first, rest, into_bump_slice(rights))
}

/// An operand with selectors and calls behind it.
#[cycle(expressions)]
fn selected<'a>(checker: &mut Checker<'_, 'a>, value: &Expr<'a>) -> Result<Thing<'a>, NoMemory> {
    let Expr::Selected {
        pos,
        operand: inner,
        selectors,
    } = value
    else {
        return Ok(Thing::Bad);
    };
    let mut thing = operand(checker, inner)?;
    for selector in *selectors {
        thing = select(checker, selector, *pos, thing)?;
    }
    Ok(thing)
}

/// What a selector makes of what stands before it.
#[cycle(expressions)]
fn select<'a>(
    checker: &mut Checker<'_, 'a>,
    selector: &Selector<'a>,
    pos: Pos,
    thing: Thing<'a>,
) -> Result<Thing<'a>, NoMemory> {
    match selector {
        Selector::Dereference(_) => dereference(checker, pos, &thing),
        Selector::Member(name) => dot(checker, pos, &thing, *name),
        Selector::Index(_, indexes) => {
            let row = index_row(checker, indexes)?;
            indexed(checker, pos, &thing, row)
        }
        Selector::Call(parenthesis, actuals) => {
            let row = call_actuals(checker, actuals)?;
            call(checker, pos, *parenthesis, &thing, row)
        }
    }
}

/// The values of indexes.
#[cycle(expressions)]
fn index_row<'a>(
    checker: &mut Checker<'_, 'a>,
    indexes: &[Expr<'a>],
) -> Result<&'a [Index<'a>], NoMemory> {
    let mut row = Vec::new(checker.arena);
    for index in indexes {
        let thing = operand(checker, index)?;
        let pos = index.pos();
        let value = value_of(checker, pos, &thing)?;
        row.push(Index { pos, value })?;
    }
    Ok(into_bump_slice(row))
}

/// What the actuals of a call are.
#[cycle(expressions)]
pub fn call_actuals<'a>(
    checker: &mut Checker<'_, 'a>,
    actuals: &[Actual<'a>],
) -> Result<&'a [Given<'a>], NoMemory> {
    let mut row = Vec::new(checker.arena);
    for actual in actuals {
        let thing = match actual {
            Actual::Value(value) | Actual::Named(_, value) => operand(checker, value)?,
            Actual::Type(kind) => type_thing(checker, kind),
        };
        row.push(actual_given(checker, actual, thing))?;
    }
    Ok(into_bump_slice(row))
}

/// `T {..}`.
#[cycle(expressions)]
fn constructed<'a>(checker: &mut Checker<'_, 'a>, value: &Expr<'a>) -> Result<Thing<'a>, NoMemory> {
    let Expr::Constructor {
        pos,
        kind,
        brace,
        elements,
        is_filled,
    } = value
    else {
        return Ok(Thing::Bad);
    };
    let mut parts = Vec::new(checker.arena);
    for element in *elements {
        let part = part(checker, element)?;
        parts.push(part)?;
    }
    let kind = type_of(checker, kind);
    let written = Written {
        pos: *pos,
        brace: *brace,
        is_filled: *is_filled,
    };
    constructor(checker, written, kind, into_bump_slice(parts))
}

/// What an element of a constructor is.
#[cycle(expressions)]
fn part<'a>(checker: &mut Checker<'_, 'a>, element: &Element<'a>) -> Result<Part<'a>, NoMemory> {
    match element {
        Element::Value(value) => {
            let thing = operand(checker, value)?;
            Ok(one(checker, value, thing))
        }
        Element::Named(name, value) => {
            let thing = operand(checker, value)?;
            Ok(named(checker, *name, value, thing))
        }
        Element::Range(first, last) => {
            let from = operand(checker, first)?;
            let to = operand(checker, last)?;
            Ok(range(checker, first, from, last, to))
        }
    }
}
