use crate::kinds::is_reference;
use crate::listing::{newest_member, own_member};
use bumpalo::collections::into_bump_slice;
use m3_base::{NoMemory, Pos, rules};
use m3_check_state::{Checker, Thing};
use m3_core::CoreExpr;
use m3_decl_lookup::{Member, method_kind};
use m3_syntax::Name;
use m3_types::{ConstId, ConstValue, Formal, Mode, TypeId, TypeNode};

/// `T.x`: a member of an enumeration, or a method of an object type as a procedure (rule 62).
pub fn type_member<'a>(
    checker: &mut Checker<'_, 'a>,
    kind: TypeId,
    pos: Pos,
    name: Name<'a>,
) -> Result<Thing<'a>, NoMemory> {
    if let TypeNode::Enumeration(_) = checker.node(kind) {
        if let Some(Member::Value(place)) = own_member(checker, kind, name.text)? {
            return checker.number(pos, kind, i64::from(place));
        }
    }
    if is_reference(checker, kind) {
        if let Some(found) = newest_member(checker, kind, name.text)? {
            if let Member::Method(method) = found.member {
                return method_constant(checker, kind, pos, name, (found.owner, method));
            }
        }
    }
    Ok(checker.bad(name.pos, rules::NO_SUCH_MEMBER))
}

/// `T.m`: the procedure that a method of a type is, with the object as its first formal.
fn method_constant<'a>(
    checker: &mut Checker<'_, 'a>,
    kind: TypeId,
    pos: Pos,
    name: Name<'a>,
    method: (TypeId, u32),
) -> Result<Thing<'a>, NoMemory> {
    let Some(signature) = method_kind(checker.node(method.0), method.1) else {
        return Ok(Thing::Bad);
    };
    let whole = with_object(checker, kind, signature)?;
    match method_value(checker, kind, name.text) {
        Some(procedure) => checker.value(
            CoreExpr::Procedure {
                pos,
                kind: whole,
                procedure,
            },
            whole,
        ),
        None => checker.value(CoreExpr::Nil { pos, kind: whole }, whole),
    }
}

/// The type of a procedure that takes an object before the formals of a signature.
fn with_object(
    checker: &mut Checker<'_, '_>,
    kind: TypeId,
    signature: TypeId,
) -> Result<TypeId, NoMemory> {
    let mut all = Vec::new(checker.arena);
    all.push(Formal {
        name: b"self",
        mode: Mode::Value,
        kind,
        default: None,
    })?;
    let TypeNode::Procedure(formals, result, raises) = checker.node(signature) else {
        return Ok(signature);
    };
    for formal in formals {
        all.push(*formal)?;
    }
    let node = TypeNode::Procedure(into_bump_slice(all), result, raises);
    checker.declared.types.push(node)
}

/// The procedure that a method of a type is, by all full reveals; none where it is NIL.
fn method_value<'a>(checker: &Checker<'_, 'a>, kind: TypeId, name: &'a [u8]) -> Option<u32> {
    let mut kind = kind;
    for _ in 0..checker.declared.types.nodes.len() {
        match checker.node(kind) {
            TypeNode::Opaque(_, _) => kind = revealed(checker, kind)?,
            TypeNode::Object(_, parent, _, _, _) => {
                if let Some(value) = own_method_value(checker, kind, name) {
                    return procedure_value(checker, value);
                }
                kind = parent;
            }
            _ => return None,
        }
    }
    None
}

/// What an object type itself gives to a method: NIL where it declares it without a default.
fn own_method_value<'a>(
    checker: &Checker<'_, 'a>,
    kind: TypeId,
    name: &'a [u8],
) -> Option<Option<ConstId>> {
    let TypeNode::Object(_, _, _, methods, overrides) = checker.node(kind) else {
        return None;
    };
    for other in overrides {
        if other.name == name {
            return Some(Some(other.value));
        }
    }
    for method in methods {
        if method.name == name {
            return Some(match method.default {
                Some(default) => Some(default.value),
                None => None,
            });
        }
    }
    None
}

fn revealed(checker: &Checker<'_, '_>, kind: TypeId) -> Option<TypeId> {
    if (kind.0 as usize) < checker.declared.types.nodes.len() {
        checker.declared.types.full_reveal(kind)
    } else {
        None
    }
}

fn procedure_value(checker: &Checker<'_, '_>, value: Option<ConstId>) -> Option<u32> {
    match checker.node(TypeId(value?.0)) {
        TypeNode::Constant(ConstValue::Procedure(procedure)) => Some(procedure),
        _ => None,
    }
}
