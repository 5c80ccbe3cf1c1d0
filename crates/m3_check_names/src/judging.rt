use crate::naming::type_named;
use m3_check_state::Checker;
use m3_syntax::{Decl, Field, Init, ObjectPart, Signature, TypeExp, TypeName, VarDecl};

/// Judges the names in a type: each stands for a type (rule 60).
#[cycle(types)]
pub fn judge_type<'a>(checker: &mut Checker<'_, 'a>, kind: &TypeExp<'a>) {
    match kind {
        TypeExp::Named(name) => judge_name(checker, name),
        TypeExp::Parenthesis { inner, .. } => judge_type(checker, inner),
        TypeExp::Array {
            indexes,
            element,
            ..
        } => {
            for index in *indexes {
                judge_type(checker, index);
            }
            judge_type(checker, element);
        }
        TypeExp::Object { parent, parts, .. } => {
            if let Some(parent) = parent {
                judge_name(checker, parent);
            }
            for part in *parts {
                judge_part(checker, part);
            }
        }
        TypeExp::Procedure { signature, .. } => judge_signature(checker, signature),
        TypeExp::Record { fields, .. } => judge_fields(checker, fields),
        TypeExp::Ref { target, .. } | TypeExp::Bits { target, .. } => judge_type(checker, target),
        TypeExp::Set { base, .. } => judge_type(checker, base),
        TypeExp::Enumeration { .. } | TypeExp::Subrange { .. } | TypeExp::Missing { .. } => {}
    }
}

#[cycle(types)]
fn judge_part<'a>(checker: &mut Checker<'_, 'a>, part: &ObjectPart<'a>) {
    judge_fields(checker, part.fields);
    for method in part.methods {
        judge_signature(checker, &method.signature);
    }
}

#[cycle(types)]
fn judge_fields<'a>(checker: &mut Checker<'_, 'a>, fields: &[Field<'a>]) {
    for field in fields {
        judge_init(checker, &field.init);
    }
}

#[cycle(types)]
fn judge_signature<'a>(checker: &mut Checker<'_, 'a>, signature: &Signature<'a>) {
    for formal in signature.formals {
        judge_init(checker, &formal.init);
    }
    if let Some(result) = signature.result {
        judge_type(checker, result);
    }
}

#[cycle(types)]
fn judge_init<'a>(checker: &mut Checker<'_, 'a>, init: &Init<'a>) {
    if let Init::Typed(kind, _) = init {
        judge_type(checker, kind);
    }
}

/// Judges the names in the types of a declaration; the bodies of procedures are left out.
pub fn judge_declaration<'a>(checker: &mut Checker<'_, 'a>, declaration: &Decl<'a>) {
    match declaration {
        Decl::Const { constants, .. } => {
            for constant in *constants {
                judge_optional(checker, constant.kind);
            }
        }
        Decl::Type { types, .. } => {
            for declared in *types {
                judge_type(checker, declared.kind);
            }
        }
        Decl::Exception { exceptions, .. } => {
            for exception in *exceptions {
                judge_optional(checker, exception.argument);
            }
        }
        Decl::Var { variables, .. } => judge_rows(checker, variables),
        Decl::Procedure { signature, .. } => judge_signature(checker, signature),
        Decl::Reveal { reveals, .. } => {
            for revealed in *reveals {
                judge_type(checker, revealed.kind);
            }
        }
    }
}

fn judge_optional<'a>(checker: &mut Checker<'_, 'a>, kind: Option<&TypeExp<'a>>) {
    if let Some(kind) = kind {
        judge_type(checker, kind);
    }
}

fn judge_rows<'a>(checker: &mut Checker<'_, 'a>, rows: &[VarDecl<'a>]) {
    for row in rows {
        judge_init(checker, &row.init);
    }
}

fn judge_name<'a>(checker: &mut Checker<'_, 'a>, name: &TypeName<'a>) {
    if let TypeName::Named(name) = name {
        type_named(checker, name);
    }
}
