use crate::parts::{Origin, Part, Parts, add_part, parts_for, whole};
use m3_base::{NoMemory, Pos};
use m3_const_calls::{Called, begun, given_by, with_actual};
use m3_const_operators::{denied, operated, signs_applied, thing_of};
use m3_const_selectors::{Index, dereference, dot, element};
use m3_const_values::{Evaluator, Thing, Worth, thing_named, type_of};
use m3_core::Value;
use m3_syntax::{Actual, Element, Expr, Selector, TypeExp};

/// What an expression is worth as a value.
#[cycle(expressions)]
pub fn expression<'a>(
    eval: &mut Evaluator<'_, 'a>,
    value: &Expr<'a>,
) -> Result<Option<Worth<'a>>, NoMemory> {
    let thing = operand_thing(eval, value)?;
    Ok(eval.value_of(value.pos(), thing))
}

/// What an expression is.
#[cycle(expressions)]
fn operand_thing<'a>(
    eval: &mut Evaluator<'_, 'a>,
    value: &Expr<'a>,
) -> Result<Thing<'a>, NoMemory> {
    match value {
        Expr::Name(name) => thing_named(eval, *name),
        Expr::Number { value, .. } => Ok(eval.number(eval.declared.basic.integer, *value)),
        Expr::CharLit { value, .. } => {
            Ok(eval.number(eval.declared.basic.character, i64::from(*value)))
        }
        Expr::TextLit { pos, .. } => Ok(text_at(eval, *pos)),
        Expr::Parenthesis { inner, .. } => operand_thing(eval, inner),
        Expr::Operations { .. } => operations(eval, value),
        Expr::Not { words, operand, .. } => {
            let worth = expression(eval, operand)?;
            denied(eval, words.len(), worth)
        }
        Expr::Signed { signs, operand, .. } => {
            let worth = expression(eval, operand)?;
            signs_applied(eval, signs, worth)
        }
        Expr::Selected { .. } => selected(eval, value),
        Expr::Constructor { .. } => constructor(eval, value),
        Expr::Missing { .. } => Ok(Thing::Bad),
    }
}

/// A text literal, by its place.
fn text_at<'a>(eval: &Evaluator<'_, 'a>, pos: Pos) -> Thing<'a> {
    match eval.declared.text_at(eval.unit, pos) {
        Some(cell) => eval.known(eval.declared.basic.text, Value::Text(cell)),
        None => Thing::Bad,
    }
}

/// Operands with operators of one level, which group to the left.
#[cycle(expressions)]
fn operations<'a>(eval: &mut Evaluator<'_, 'a>, value: &Expr<'a>) -> Result<Thing<'a>, NoMemory> {
    let Expr::Operations { pos, first, rest } = value else {
        return Ok(Thing::Bad);
    };
    let mut result = expression(eval, first)?;
    'operands: for operation in *rest {
        let right = expression(eval, operation.right)?;
        let right_pos = operation.right.pos();
        result = operated(eval, *pos, result, operation.operator, right, right_pos)?;
    }
    Ok(thing_of(result))
}

/// An operand with selectors and calls behind it.
#[cycle(expressions)]
fn selected<'a>(eval: &mut Evaluator<'_, 'a>, value: &Expr<'a>) -> Result<Thing<'a>, NoMemory> {
    let Expr::Selected {
        pos,
        operand,
        selectors,
    } = value
    else {
        return Ok(Thing::Bad);
    };
    let mut thing = operand_thing(eval, operand)?;
    'selectors: for selector in *selectors {
        thing = select(eval, selector, *pos, thing)?;
    }
    Ok(thing)
}

#[cycle(expressions)]
fn select<'a>(
    eval: &mut Evaluator<'_, 'a>,
    selector: &Selector<'a>,
    pos: Pos,
    thing: Thing<'a>,
) -> Result<Thing<'a>, NoMemory> {
    match selector {
        Selector::Dereference(_) => dereference(eval, pos, thing),
        Selector::Member(name) => dot(eval, pos, thing, *name),
        Selector::Index(_, _) => indexed(eval, selector, pos, thing),
        Selector::Call(_, _) => call(eval, selector, pos, thing),
    }
}

/// An element of an array, or of arrays in arrays.
#[cycle(expressions)]
fn indexed<'a>(
    eval: &mut Evaluator<'_, 'a>,
    selector: &Selector<'a>,
    pos: Pos,
    thing: Thing<'a>,
) -> Result<Thing<'a>, NoMemory> {
    let Selector::Index(_, indexes) = selector else {
        return Ok(Thing::Bad);
    };
    let mut array = eval.value_of(pos, thing);
    'indexes: for index in *indexes {
        let worth = expression(eval, index)?;
        let index = Index {
            pos: index.pos(),
            worth,
        };
        array = element(eval, pos, array, index)?;
    }
    Ok(thing_of(array))
}

/// A call of what stands before the parenthesis.
#[cycle(expressions)]
fn call<'a>(
    eval: &mut Evaluator<'_, 'a>,
    selector: &Selector<'a>,
    pos: Pos,
    thing: Thing<'a>,
) -> Result<Thing<'a>, NoMemory> {
    let Selector::Call(_, actuals) = selector else {
        return Ok(Thing::Bad);
    };
    let mut called = begun(eval, pos, thing, actuals)?;
    if let Called::Wrong = called {
        return Ok(Thing::Bad);
    }
    'actuals: for (place, actual) in actuals.iter().enumerate() {
        let thing = match actual {
            Actual::Value(value) | Actual::Named(_, value) => operand_thing(eval, value)?,
            Actual::Type(kind) => type_thing(eval, kind),
        };
        called = with_actual(eval, called, place, actual, thing)?;
    }
    given_by(eval, pos, called, actuals)
}

fn type_thing<'a>(eval: &Evaluator<'_, 'a>, kind: &TypeExp<'a>) -> Thing<'a> {
    match type_of(eval, kind) {
        Some(kind) => Thing::Type(kind),
        None => Thing::Bad,
    }
}

/// `T {..}`: a set, record or array.
#[cycle(expressions)]
fn constructor<'a>(eval: &mut Evaluator<'_, 'a>, value: &Expr<'a>) -> Result<Thing<'a>, NoMemory> {
    let Expr::Constructor {
        kind,
        elements,
        is_filled,
        ..
    } = value
    else {
        return Ok(Thing::Bad);
    };
    let kind = match type_of(eval, kind) {
        Some(kind) => kind,
        None => eval.declared.basic.refused,
    };
    let mut parts = parts_for(eval, kind)?;
    fill(eval, value, &mut parts)?;
    whole(eval, &mut parts, elements.len(), *is_filled)
}

/// Adds the elements of a constructor to the parts of what it makes.
#[cycle(expressions)]
fn fill<'a>(
    eval: &mut Evaluator<'_, 'a>,
    value: &Expr<'a>,
    parts: &mut Parts<'a>,
) -> Result<(), NoMemory> {
    let Expr::Constructor { elements, .. } = value else {
        return Ok(());
    };
    'elements: for element in *elements {
        let part = part_worth(eval, element)?;
        add_part(eval, parts, part)?;
    }
    Ok(())
}

/// What an element of a constructor is worth.
#[cycle(expressions)]
fn part_worth<'a>(
    eval: &mut Evaluator<'_, 'a>,
    element: &Element<'a>,
) -> Result<Part<'a>, NoMemory> {
    match element {
        Element::Value(value) => {
            let worth = expression(eval, value)?;
            Ok(Part::One(value.pos(), worth, origin_of(value)))
        }
        Element::Range(first, last) => {
            let from = expression(eval, first)?;
            let to = expression(eval, last)?;
            Ok(Part::Range(first.pos(), from, last.pos(), to))
        }
        Element::Named(name, value) => {
            let worth = expression(eval, value)?;
            Ok(Part::Named(*name, value.pos(), worth))
        }
    }
}

/// Whether an element is a name, also of another unit, a constructor, or anything else.
fn origin_of(value: &Expr<'_>) -> Origin {
    match value {
        Expr::Parenthesis { inner, .. } => origin_of(inner),
        Expr::Constructor { .. } => Origin::Written,
        Expr::Name(_) => Origin::Named,
        Expr::Selected { selectors, .. } => match selectors {
            [Selector::Member(_)] => Origin::Named,
            _ => Origin::Computed,
        },
        _ => Origin::Computed,
    }
}
