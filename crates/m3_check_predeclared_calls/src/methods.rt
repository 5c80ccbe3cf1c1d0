use bumpalo::collections::into_bump_slice;
use m3_base::{NoMemory, rules};
use m3_check_state::{Checker, Valued};
use m3_check_types::is_subtype;
use m3_core::CoreExpr;
use m3_syntax::Name;
use m3_types::{ConstId, ConstValue, Field, Method, Mode, Override, TypeId, TypeNode};

/// A method that NEW binds: its name, what it is bound to, and its signature.
#[derive(Clone, Copy)]
pub struct Bound<'a> {
    pub name: Name<'a>,
    pub value: Valued<'a>,
    pub signature: TypeId,
}

/// The type of the value and of the cell that NEW makes where it binds these methods: one below
/// the given type that overrides them. None where one is bound to anything but a procedure
/// constant that fits it (rule 66).
pub fn bind_methods<'a>(
    checker: &mut Checker<'_, 'a>,
    kinds: (TypeId, TypeId),
    methods: &[Bound<'a>],
) -> Result<Option<(TypeId, TypeId)>, NoMemory> {
    if methods.is_empty() {
        return Ok(Some(kinds));
    }
    let made = overriding(checker, kinds.0, methods)?;
    let mut is_good = true;
    for method in methods {
        if !is_fit(checker, made, method)? {
            checker.note(method.name.pos, rules::BAD_NEW_ARGUMENT);
            is_good = false;
        }
    }
    if is_good {
        Ok(Some((made, made)))
    } else {
        Ok(None)
    }
}

/// The procedure constant that a value is.
fn procedure_of(value: &Valued<'_>) -> Option<u32> {
    match value.core() {
        CoreExpr::Procedure { procedure, .. } => Some(*procedure),
        _ => None,
    }
}

/// The object type below a type that overrides methods.
fn overriding<'a>(
    checker: &mut Checker<'_, 'a>,
    parent: TypeId,
    methods: &[Bound<'a>],
) -> Result<TypeId, NoMemory> {
    let mut overrides = Vec::new(checker.arena);
    for method in methods {
        if let Some(procedure) = procedure_of(&method.value) {
            overrides.push(Override {
                name: method.name.text,
                value: constant(checker, procedure)?,
            })?;
        }
    }
    let overrides = into_bump_slice(overrides);
    let node = TypeNode::Object(None, parent, no_fields(), no_methods(), overrides);
    checker.declared.types.push(node)
}

fn no_fields<'a>() -> &'a [Field<'a>] {
    &[]
}

fn no_methods<'a>() -> &'a [Method<'a>] {
    &[]
}

fn constant(checker: &mut Checker<'_, '_>, procedure: u32) -> Result<ConstId, NoMemory> {
    let node = TypeNode::Constant(ConstValue::Procedure(procedure));
    let place = checker.declared.types.push(node)?;
    Ok(ConstId(place.0))
}

/// Whether a method of an object type is bound to a procedure that can be it: its first formal is
/// by VALUE and takes the object, and the rest is a subtype of the method's signature.
fn is_fit<'a>(
    checker: &mut Checker<'_, 'a>,
    object: TypeId,
    method: &Bound<'a>,
) -> Result<bool, NoMemory> {
    if procedure_of(&method.value).is_none() {
        return Ok(false);
    }
    let TypeNode::Procedure(formals, result, raises) = checker.node(method.value.kind) else {
        return Ok(false);
    };
    let Some((first, rest)) = formals.split_first() else {
        return Ok(false);
    };
    if first.mode != Mode::Value || !is_subtype(checker, object, first.kind)? {
        return Ok(false);
    }
    let rest = checker
        .declared
        .types
        .push(TypeNode::Procedure(rest, result, raises))?;
    is_subtype(checker, rest, method.signature)
}
