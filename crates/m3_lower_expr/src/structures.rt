use crate::chains::emit_chain;
use crate::exprs::{fetch, into_temps};
use m3_core::{Conversion, CoreExpr, FieldValue};
use m3_lower_actuals::plan_structure;
use m3_lower_arrays::{
    Element, check_equal, check_shape, element_of, field_type, filled, shape_of,
};
use m3_lower_places::source;
use m3_lower_state::{
    Around, Builder, Location, Pending, Place, cleared_value, copy_words, form_of, kind_of,
    store_word, store_words,
};
use m3_lower_storage::Form;
use m3_mid::{Kind, MidOp};
use m3_types::{TypeId, TypeNode};

/// Code that makes the value of a record or array at the place that was planned for it.
#[cycle(expressions)]
pub fn emit_structure<'m>(
    b: &mut Builder<'m, '_>,
    around: Around,
    e: &CoreExpr,
    place: Place,
    rest: Pending<'m>,
) -> Pending<'m> {
    match e {
        CoreExpr::Chain(chain) => emit_chain(b, around, chain, rest),
        CoreExpr::Constant { value, .. } => match place.at {
            Location::Address { temp, .. } => rest.after(MidOp::ConstantAddress {
                to: temp,
                constant: value.0,
            }),
            Location::Temps(_) | Location::Slots(_) | Location::Globals(_) => rest,
        },
        CoreExpr::Convert {
            pos,
            kind,
            check,
            operand,
        } => {
            let code = if *check == Conversion::Shape {
                check_shape(b, *pos, *kind, kind_of(operand), place, rest)
            } else {
                rest
            };
            emit_structure(b, around, operand, place, code)
        }
        CoreExpr::ArrayOf { .. } => elements_into(b, around, e, place, rest),
        CoreExpr::RecordOf { kind, fields, .. } => {
            fields_into(b, around, *kind, fields, place, rest)
        }
        _ => rest,
    }
}

/// Code that puts the value of a record or array at a place, which nothing else reads meanwhile.
#[cycle(expressions)]
pub fn structure_into<'m>(
    b: &mut Builder<'m, '_>,
    around: Around,
    e: &CoreExpr,
    kind: TypeId,
    to: Place,
    rest: Pending<'m>,
) -> Pending<'m> {
    match e {
        CoreExpr::ArrayOf { kind: own, .. }
            if !matches!(b.storage.node(*own), TypeNode::OpenArray(_)) => {
            elements_into(b, around, e, to, rest)
        }
        CoreExpr::RecordOf { kind, fields, .. } => fields_into(b, around, *kind, fields, to, rest),
        _ => {
            let from = plan_structure(b, e);
            let code = cleared_value(b, from, rest);
            let words = b.storage.words(kind);
            let code = copy_words(b, to, from, words, code);
            emit_structure(b, around, e, from, code)
        }
    }
}

/// Code that puts a value of any type at a place, which nothing else reads meanwhile.
#[cycle(expressions)]
pub fn value_into<'m>(
    b: &mut Builder<'m, '_>,
    around: Around,
    e: &CoreExpr,
    kind: TypeId,
    to: Place,
    rest: Pending<'m>,
) -> Pending<'m> {
    let form = match b.storage.form(kind) {
        Form::Numbers(count) => Form::Numbers(count),
        _ => form_of(b, e),
    };
    match form {
        Form::Number | Form::Reference => {
            let operand = source(b, e);
            let code = store_word(b, to, 0, operand, rest);
            fetch(b, around, e, operand, code)
        }
        Form::Numbers(count) => {
            let first = b.temps(Kind::Number, count);
            let code = store_words(b, to, first, count, rest);
            into_temps(b, around, e, first, code)
        }
        Form::Structure(_) | Form::Open => structure_into(b, around, e, kind, to, rest),
    }
}

#[cycle(expressions)]
fn fields_into<'m>(
    b: &mut Builder<'m, '_>,
    around: Around,
    kind: TypeId,
    fields: &[FieldValue],
    to: Place,
    rest: Pending<'m>,
) -> Pending<'m> {
    let mut code = rest;
    for place in (0..fields.len()).rev() {
        if let Some(field) = fields.get(place) {
            let offset = b.storage.objects.field(kind, field.field);
            let at = to.further(offset);
            let field_kind = field_type(b, kind, field.field);
            code = value_into(b, around, field.value, field_kind, at, code);
        }
    }
    code
}

/// Code that puts the elements of an array constructor at a place.
#[cycle(expressions)]
fn elements_into<'m>(
    b: &mut Builder<'m, '_>,
    around: Around,
    e: &CoreExpr,
    to: Place,
    rest: Pending<'m>,
) -> Pending<'m> {
    let CoreExpr::ArrayOf {
        kind,
        elements,
        is_filled,
        ..
    } = e
    else {
        return rest;
    };
    let element = element_of(b, *kind, to);
    let mut code = if *is_filled {
        filled(b, *kind, elements.len(), element.words, to, rest)
    } else {
        rest
    };
    for place in (0..elements.len()).rev() {
        if let Some(listed) = elements.get(place) {
            let at = Place {
                sizes: to.sizes.wrapping_add(1),
                dims: element.dims,
                ..to.further(element.words.wrapping_mul(place as u64))
            };
            code = if element.dims == 0 {
                value_into(b, around, listed, element.kind, at, code)
            } else {
                row_into(b, around, listed, element, at, code)
            };
        }
    }
    code
}

/// A row of an open constructor, checked for the shape of the first one.
#[cycle(expressions)]
fn row_into<'m>(
    b: &mut Builder<'m, '_>,
    around: Around,
    e: &CoreExpr,
    row: Element,
    to: Place,
    rest: Pending<'m>,
) -> Pending<'m> {
    let from = plan_structure(b, e);
    let code = cleared_value(b, from, rest);
    let code = copy_words(b, to.without_sizes(), from.without_sizes(), row.words, code);
    let kind = match kind_of(e) {
        Some(kind) => kind,
        None => row.kind,
    };
    let wanted = shape_of(b, to, row.kind, to.dims);
    let found = shape_of(b, from, kind, to.dims);
    let code = check_equal(e.pos(), wanted.as_slice(), found.as_slice(), code);
    emit_structure(b, around, e, from, code)
}
