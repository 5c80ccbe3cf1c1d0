use crate::expressions::show_expr;
use crate::sheets::Sheet;
use m3_syntax::{
    Brand, Field, Init, Method, Mode, ObjectPart, Raises, Signature, TypeExp, TypeName,
};

#[cycle(phrases)]
pub fn show_type(kind: &TypeExp, sheet: &mut Sheet) {
    match kind {
        TypeExp::Named(name) => show_type_name(name, sheet),
        TypeExp::Missing { pos } => sheet.sign(b"missing", *pos),
        _ => {
            sheet.open(word_of_type(kind), kind.pos());
            show_parts_of_type(kind, sheet);
            sheet.close();
        }
    }
}

/// The word that shows what a type is.
fn word_of_type(kind: &TypeExp) -> &'static [u8] {
    match kind {
        TypeExp::Named(_) | TypeExp::Missing { .. } => b"",
        TypeExp::Parenthesis { .. } => b"paren",
        TypeExp::Array { .. } => b"ARRAY",
        TypeExp::Bits { .. } => b"BITS",
        TypeExp::Enumeration { .. } => b"enum",
        TypeExp::Object { .. } => b"object",
        TypeExp::Procedure { .. } => b"PROCEDURE",
        TypeExp::Record { .. } => b"RECORD",
        TypeExp::Ref { is_untraced, .. } => {
            if *is_untraced {
                b"UNTRACED-REF"
            } else {
                b"REF"
            }
        }
        TypeExp::Set { .. } => b"SET",
        TypeExp::Subrange { .. } => b"..",
    }
}

#[cycle(phrases)]
fn show_parts_of_type(kind: &TypeExp, sheet: &mut Sheet) {
    match kind {
        TypeExp::Named(_) | TypeExp::Missing { .. } => {}
        TypeExp::Parenthesis { inner: part, .. } | TypeExp::Set { base: part, .. } => {
            show_type(part, sheet);
        }
        TypeExp::Array {
            indexes,
            element,
            ..
        } => {
            for index in *indexes {
                show_type(index, sheet);
            }
            sheet.word(b"OF");
            show_type(element, sheet);
        }
        TypeExp::Bits { width, target, .. } => {
            show_expr(width, sheet);
            sheet.word(b"FOR");
            show_type(target, sheet);
        }
        TypeExp::Enumeration { members, .. } => sheet.names(members),
        TypeExp::Object { parent, parts, .. } => {
            match parent {
                Some(name) => show_type_name(name, sheet),
                None => sheet.word(b"-"),
            }
            show_object_parts(parts, sheet);
        }
        TypeExp::Procedure { signature, .. } => show_signature(signature, sheet),
        TypeExp::Record { fields, .. } => show_fields(fields, sheet),
        TypeExp::Ref { brand, target, .. } => {
            if let Some(brand) = brand {
                show_brand(brand, sheet);
            }
            show_type(target, sheet);
        }
        TypeExp::Subrange { first, last, .. } => {
            show_expr(first, sheet);
            show_expr(last, sheet);
        }
    }
}

fn show_type_name(name: &TypeName, sheet: &mut Sheet) {
    match name {
        TypeName::Named(qualid) => sheet.qualid(qualid),
        TypeName::Root(pos) => sheet.sign(b"ROOT", *pos),
        TypeName::UntracedRoot(pos) => sheet.sign(b"UNTRACED-ROOT", *pos),
    }
}

#[cycle(phrases)]
fn show_brand(brand: &Brand, sheet: &mut Sheet) {
    sheet.open(b"BRANDED", brand.pos);
    if let Some(text) = &brand.text {
        show_expr(text, sheet);
    }
    sheet.close();
}

#[cycle(phrases)]
fn show_object_parts(parts: &[ObjectPart], sheet: &mut Sheet) {
    for part in parts {
        sheet.open(b"part", part.pos);
        if let Some(brand) = &part.brand {
            show_brand(brand, sheet);
        }
        show_fields(part.fields, sheet);
        show_methods(part.methods, sheet);
        for one in part.overrides {
            sheet.begin(b"OVERRIDE");
            sheet.name(&one.name);
            show_expr(&one.value, sheet);
            sheet.close();
        }
        sheet.close();
    }
}

#[cycle(phrases)]
fn show_fields(fields: &[Field], sheet: &mut Sheet) {
    for field in fields {
        sheet.begin(b"");
        sheet.names(field.names);
        show_init(&field.init, sheet);
        sheet.close();
    }
}

#[cycle(phrases)]
fn show_methods(methods: &[Method], sheet: &mut Sheet) {
    for method in methods {
        sheet.begin(b"METHOD");
        sheet.name(&method.name);
        show_signature(&method.signature, sheet);
        if let Some(default) = &method.default {
            sheet.word(b":=");
            show_expr(default, sheet);
        }
        sheet.close();
    }
}

/// The type and the value of a declaration.
#[cycle(phrases)]
pub fn show_init(init: &Init, sheet: &mut Sheet) {
    if let Init::Typed(kind, _) = init {
        sheet.word(b":");
        show_type(kind, sheet);
    }
    if let Init::Typed(_, Some(value)) | Init::Untyped(value) = init {
        sheet.word(b":=");
        show_expr(value, sheet);
    }
}

#[cycle(phrases)]
pub fn show_signature(signature: &Signature, sheet: &mut Sheet) {
    sheet.open(b"sig", signature.pos);
    for formal in signature.formals {
        sheet.open(text_of_mode(formal.mode), formal.pos);
        sheet.names(formal.names);
        show_init(&formal.init, sheet);
        sheet.close();
    }
    if let Some(kind) = &signature.result {
        sheet.word(b":");
        show_type(kind, sheet);
    }
    show_raises(&signature.raises, sheet);
    sheet.close();
}

fn text_of_mode(mode: Mode) -> &'static [u8] {
    match mode {
        Mode::Value => b"VALUE",
        Mode::Var => b"VAR",
        Mode::Readonly => b"READONLY",
    }
}

fn show_raises(raises: &Raises, sheet: &mut Sheet) {
    match raises {
        Raises::Any => sheet.word(b"RAISES-ANY"),
        Raises::Only(names) => {
            if !names.is_empty() {
                sheet.begin(b"RAISES");
                sheet.qualids(names);
                sheet.close();
            }
        }
    }
}
