use crate::expressions::gather_expression;
use crate::gathered::Gatherer;
use m3_syntax::{Brand, Field, Init, ObjectPart, Signature, TypeExp};

/// Lists what a signature has.
#[cycle(phrases)]
pub fn gather_signature<'a>(gatherer: &mut Gatherer<'_, 'a>, signature: &'a Signature<'a>) {
    for formal in signature.formals {
        gather_init(gatherer, &formal.init);
    }
    if let Some(result) = signature.result {
        gather_type(gatherer, result);
    }
}

#[cycle(phrases)]
pub(crate) fn gather_init<'a>(gatherer: &mut Gatherer<'_, 'a>, init: &'a Init<'a>) {
    match init {
        Init::Typed(kind, value) => {
            gather_type(gatherer, kind);
            if let Some(value) = value {
                gather_expression(gatherer, value);
            }
        }
        Init::Untyped(value) => gather_expression(gatherer, value),
    }
}

#[cycle(phrases)]
fn gather_fields<'a>(gatherer: &mut Gatherer<'_, 'a>, fields: &'a [Field<'a>]) {
    for field in fields {
        gather_init(gatherer, &field.init);
    }
}

#[cycle(phrases)]
fn gather_brand<'a>(gatherer: &mut Gatherer<'_, 'a>, brand: &'a Brand<'a>) {
    if let Some(text) = brand.text {
        gather_expression(gatherer, text);
    }
}

#[cycle(phrases)]
fn gather_part<'a>(gatherer: &mut Gatherer<'_, 'a>, part: &'a ObjectPart<'a>) {
    if let Some(brand) = &part.brand {
        gather_brand(gatherer, brand);
    }
    gather_fields(gatherer, part.fields);
    for method in part.methods {
        gather_signature(gatherer, &method.signature);
        if let Some(default) = method.default {
            gather_expression(gatherer, default);
        }
    }
    for other in part.overrides {
        gather_expression(gatherer, other.value);
    }
}

/// Lists a type expression and what it has.
#[cycle(phrases)]
pub fn gather_type<'a>(gatherer: &mut Gatherer<'_, 'a>, kind: &'a TypeExp<'a>) {
    match kind {
        TypeExp::Missing { .. } | TypeExp::Named(_) => {}
        TypeExp::Parenthesis { inner, .. } => gather_type(gatherer, inner),
        TypeExp::Array {
            indexes,
            element,
            ..
        } => {
            gatherer.kind(kind);
            for index in *indexes {
                gather_type(gatherer, index);
            }
            gather_type(gatherer, element);
        }
        TypeExp::Bits { width, target, .. } => {
            gather_expression(gatherer, width);
            gather_type(gatherer, target);
        }
        TypeExp::Enumeration { .. } => gatherer.kind(kind),
        TypeExp::Object { parts, .. } => {
            gatherer.kind(kind);
            for part in *parts {
                gather_part(gatherer, part);
            }
        }
        TypeExp::Procedure { signature, .. } => {
            gatherer.kind(kind);
            gather_signature(gatherer, signature);
        }
        TypeExp::Record { fields, .. } => {
            gatherer.kind(kind);
            gather_fields(gatherer, fields);
        }
        TypeExp::Ref { brand, target, .. } => {
            gatherer.kind(kind);
            if let Some(brand) = brand {
                gather_brand(gatherer, brand);
            }
            gather_type(gatherer, target);
        }
        TypeExp::Set { base, .. } => {
            gatherer.kind(kind);
            gather_type(gatherer, base);
        }
        TypeExp::Subrange { first, last, .. } => {
            gatherer.kind(kind);
            gather_expression(gatherer, first);
            gather_expression(gatherer, last);
        }
    }
}
