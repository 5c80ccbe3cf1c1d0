use bumpalo::Bump;
use bumpalo::collections::into_bump_slice;
use m3_base::{NoMemory, rules};
use m3_core::Value;
use m3_decl_constants::{initial_of, typed_constant};
use m3_decl_state::{Declarer, Doubts, MethodValue, Trees, Written};
use m3_syntax::{Expr, Name, ObjectPart, TypeExp};
use m3_types::{Method, Override, TypeId, TypeNode};

/// Works out what is bound to the methods of an object type, and so its whole definition.
pub fn make_methods<'a>(
    declarer: &mut Declarer<'_, 'a>,
    trees: &mut Trees<'_, 'a>,
    kind: TypeId,
) -> Result<(), NoMemory> {
    let Some(plan) = declarer.plans.get(&kind).copied() else {
        return Ok(());
    };
    let Some(part) = written_part(trees, kind) else {
        return Ok(());
    };
    declarer.eval.unit = plan.unit;
    bind_methods(declarer, &mut trees.doubts, part, kind)
}

/// The part of an object type that is written for a type.
fn written_part<'a>(trees: &Trees<'_, 'a>, kind: TypeId) -> Option<&'a ObjectPart<'a>> {
    match trees.written.get(&kind)? {
        Written::Part(TypeExp::Object { parts, .. }, place) => parts.get(*place as usize),
        _ => None,
    }
}

/// Defines an object type by its draft, with what is bound to its methods.
fn bind_methods<'a>(
    declarer: &mut Declarer<'_, 'a>,
    doubts: &mut Doubts<'a>,
    part: &'a ObjectPart<'a>,
    kind: TypeId,
) -> Result<(), NoMemory> {
    let Some(TypeNode::Object(brand, parent, fields, methods, _)) = declarer
        .eval
        .drafts
        .get(&kind)
        .copied()
    else {
        return Ok(());
    };
    let methods = bound_methods(declarer, doubts, part, kind, methods)?;
    let overrides = override_row(declarer, doubts, part, kind)?;
    if declarer.has_all() {
        declarer.set(
            kind,
            TypeNode::Object(brand, parent, fields, methods, overrides),
        );
    }
    Ok(())
}

fn bound_methods<'a>(
    declarer: &mut Declarer<'_, 'a>,
    doubts: &mut Doubts<'a>,
    part: &'a ObjectPart<'a>,
    kind: TypeId,
    methods: &'a [Method<'a>],
) -> Result<&'a [Method<'a>], NoMemory> {
    let mut row = Vec::new(declarer.eval.arena);
    for (method, written) in methods.iter().zip(part.methods) {
        let value = match written.default {
            Some(default) => {
                method_value(
                    declarer,
                    doubts,
                    kind,
                    written.name,
                    Some(method.signature),
                    default,
                )?
            }
            None => None,
        };
        let default = initial_of(declarer, value)?;
        row.push(Method {
            name: method.name,
            signature: method.signature,
            default,
        })?;
    }
    Ok(into_bump_slice(row))
}

fn override_row<'a>(
    declarer: &mut Declarer<'_, 'a>,
    doubts: &mut Doubts<'a>,
    part: &'a ObjectPart<'a>,
    kind: TypeId,
) -> Result<&'a [Override<'a>], NoMemory> {
    let mut row: Vec<Override<'a>, &'a Bump> = Vec::new(declarer.eval.arena);
    for other in part.overrides {
        let value = method_value(declarer, doubts, kind, other.name, None, other.value)?;
        if let Some(initial) = initial_of(declarer, value)? {
            row.push(Override {
                name: other.name.text,
                value: initial.value,
            })?;
        }
    }
    Ok(into_bump_slice(row))
}

/// What is bound to a method: a procedure or NIL (rule 44). Whether it fits is judged later, and so
/// is what overrides a method, which may turn out to be none.
fn method_value<'a>(
    declarer: &mut Declarer<'_, 'a>,
    doubts: &mut Doubts<'a>,
    object: TypeId,
    name: Name<'a>,
    signature: Option<TypeId>,
    value: &'a Expr<'a>,
) -> Result<Option<Value<'a>>, NoMemory> {
    let constant = typed_constant(declarer, doubts, value)?;
    let mut procedure = None;
    let mut found = None;
    let mut wrong = None;
    if let Some((kind, known)) = constant {
        match known {
            Value::Procedure(_) => {
                procedure = Some(kind);
                found = Some(known);
            }
            Value::Nil => found = Some(known),
            _ if signature.is_none() => wrong = Some(value.pos()),
            _ => declarer.refuse(value.pos(), rules::WRONG_KIND_OF_CONSTANT)?,
        }
    }
    declarer.new_values.push(MethodValue {
        unit: declarer.eval.unit,
        name: name.text,
        pos: name.pos,
        object,
        signature,
        procedure,
        wrong,
    })?;
    Ok(found)
}
