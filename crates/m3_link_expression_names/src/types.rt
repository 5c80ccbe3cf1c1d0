use crate::expressions::walk_expression;
use m3_base::{NoMemory, rules};
use m3_link_scopes::{EntityId, Linker};
use m3_syntax::{
    Brand, Field, Formal, Init, Name, ObjectPart, Raises, Signature, TypeExp, TypeName,
};

/// Refuses the later of two equal names of one row (rule 24). The names are declared in no scope.
fn judge_distinct<'a>(linker: &mut Linker<'a>, name: Name<'a>) -> Result<(), NoMemory> {
    if linker.scopes.look_up_here(name.text).is_some() {
        linker.note(name.pos, rules::DUPLICATE_NAME);
        return Ok(());
    }
    linker
        .scopes
        .declare(name.text, EntityId(0), Some(name.pos))
}

fn judge_field_names<'a>(linker: &mut Linker<'a>, fields: &[Field<'a>]) -> Result<(), NoMemory> {
    for field in fields {
        for name in field.names {
            judge_distinct(linker, *name)?;
        }
    }
    Ok(())
}

/// Refuses the later of two equal fields of a record.
fn judge_record<'a>(linker: &mut Linker<'a>, fields: &[Field<'a>]) -> Result<(), NoMemory> {
    linker.scopes.enter()?;
    judge_field_names(linker, fields)?;
    linker.scopes.leave();
    Ok(())
}

/// Refuses the later of two equal fields and methods of one part of an object type.
fn judge_part<'a>(linker: &mut Linker<'a>, part: &ObjectPart<'a>) -> Result<(), NoMemory> {
    linker.scopes.enter()?;
    judge_field_names(linker, part.fields)?;
    for method in part.methods {
        judge_distinct(linker, method.name)?;
    }
    linker.scopes.leave();
    Ok(())
}

fn judge_members<'a>(linker: &mut Linker<'a>, members: &[Name<'a>]) -> Result<(), NoMemory> {
    linker.scopes.enter()?;
    for member in members {
        judge_distinct(linker, *member)?;
    }
    linker.scopes.leave();
    Ok(())
}

/// Refuses the later of two equal formals, and predeclared names.
fn judge_formals<'a>(linker: &mut Linker<'a>, formals: &[Formal<'a>]) -> Result<(), NoMemory> {
    linker.scopes.enter()?;
    for formal in formals {
        for name in formal.names {
            linker.make_visible(*name, EntityId(0))?;
        }
    }
    linker.scopes.leave();
    Ok(())
}

fn walk_raises<'a>(linker: &mut Linker<'a>, raises: &Raises<'a>) -> Result<(), NoMemory> {
    if let Raises::Only(exceptions) = raises {
        for exception in *exceptions {
            linker.qualid(exception)?;
        }
    }
    Ok(())
}

/// The names in a signature. Its types and defaults are read outside the scope of its formals.
#[cycle(phrases)]
pub fn walk_signature<'a>(
    linker: &mut Linker<'a>,
    signature: &Signature<'a>,
) -> Result<(), NoMemory> {
    judge_formals(linker, signature.formals)?;
    for formal in signature.formals {
        walk_init(linker, &formal.init)?;
    }
    if let Some(result) = signature.result {
        walk_type(linker, result)?;
    }
    walk_raises(linker, &signature.raises)
}

/// The names in what a declaration gives its names: a type, a value, or both.
#[cycle(phrases)]
pub fn walk_init<'a>(linker: &mut Linker<'a>, init: &Init<'a>) -> Result<(), NoMemory> {
    match init {
        Init::Typed(kind, value) => {
            walk_type(linker, kind)?;
            match value {
                Some(value) => walk_expression(linker, value),
                None => Ok(()),
            }
        }
        Init::Untyped(value) => walk_expression(linker, value),
    }
}

#[cycle(phrases)]
fn walk_fields<'a>(linker: &mut Linker<'a>, fields: &[Field<'a>]) -> Result<(), NoMemory> {
    for field in fields {
        walk_init(linker, &field.init)?;
    }
    Ok(())
}

#[cycle(phrases)]
fn walk_brand<'a>(linker: &mut Linker<'a>, brand: &Brand<'a>) -> Result<(), NoMemory> {
    match brand.text {
        Some(text) => walk_expression(linker, text),
        None => Ok(()),
    }
}

#[cycle(phrases)]
fn walk_part<'a>(linker: &mut Linker<'a>, part: &ObjectPart<'a>) -> Result<(), NoMemory> {
    judge_part(linker, part)?;
    if let Some(brand) = &part.brand {
        walk_brand(linker, brand)?;
    }
    walk_fields(linker, part.fields)?;
    for method in part.methods {
        walk_signature(linker, &method.signature)?;
        if let Some(default) = method.default {
            walk_expression(linker, default)?;
        }
    }
    for other in part.overrides {
        walk_expression(linker, other.value)?;
    }
    Ok(())
}

fn walk_type_name<'a>(linker: &mut Linker<'a>, name: &TypeName<'a>) -> Result<(), NoMemory> {
    match name {
        TypeName::Named(qualid) => linker.qualid(qualid),
        TypeName::Root(_) => Ok(()),
        TypeName::UntracedRoot(pos) => {
            linker.note(*pos, rules::UNSAFE_OR_LEFT_OUT);
            Ok(())
        }
    }
}

/// The names in a type.
#[cycle(phrases)]
pub fn walk_type<'a>(linker: &mut Linker<'a>, kind: &TypeExp<'a>) -> Result<(), NoMemory> {
    match kind {
        TypeExp::Missing { .. } => Ok(()),
        TypeExp::Named(name) => walk_type_name(linker, name),
        TypeExp::Parenthesis { inner, .. } => walk_type(linker, inner),
        TypeExp::Array {
            indexes,
            element,
            ..
        } => {
            for index in *indexes {
                walk_type(linker, index)?;
            }
            walk_type(linker, element)
        }
        TypeExp::Bits { pos, width, target } => {
            linker.note(*pos, rules::UNSAFE_OR_LEFT_OUT);
            walk_expression(linker, width)?;
            walk_type(linker, target)
        }
        TypeExp::Enumeration { members, .. } => judge_members(linker, members),
        TypeExp::Object { parent, parts, .. } => {
            if let Some(parent) = parent {
                walk_type_name(linker, parent)?;
            }
            for part in *parts {
                walk_part(linker, part)?;
            }
            Ok(())
        }
        TypeExp::Procedure { signature, .. } => walk_signature(linker, signature),
        TypeExp::Record { fields, .. } => {
            judge_record(linker, fields)?;
            walk_fields(linker, fields)
        }
        TypeExp::Ref {
            pos,
            is_untraced,
            brand,
            target,
        } => {
            if *is_untraced {
                linker.note(*pos, rules::UNSAFE_OR_LEFT_OUT);
            }
            if let Some(brand) = brand {
                walk_brand(linker, brand)?;
            }
            walk_type(linker, target)
        }
        TypeExp::Set { base, .. } => walk_type(linker, base),
        TypeExp::Subrange { first, last, .. } => {
            walk_expression(linker, first)?;
            walk_expression(linker, last)
        }
    }
}
