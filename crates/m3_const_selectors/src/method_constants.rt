use bumpalo::collections::into_bump_slice;
use m3_base::NoMemory;
use m3_const_values::{Evaluator, Need, Thing};
use m3_core::Value;
use m3_types::{ConstValue, Formal, Mode, TypeId, TypeNode};

/// `T.m`: the procedure that a method of a type is, with the object as its first formal.
pub fn method_constant<'a>(
    eval: &mut Evaluator<'_, 'a>,
    kind: TypeId,
    signature: TypeId,
    name: &'a [u8],
) -> Result<Thing<'a>, NoMemory> {
    let TypeNode::Procedure(formals, result, raises) = eval.node(signature)? else {
        return Ok(Thing::Bad);
    };
    let mut all = Vec::new(eval.arena);
    all.push(Formal {
        name: b"self",
        mode: Mode::Value,
        kind,
        default: None,
    })?;
    for formal in formals {
        all.push(*formal)?;
    }
    let node = TypeNode::Procedure(into_bump_slice(all), result, raises);
    let whole = eval.declared.types.push(node)?;
    match method_value(eval, kind, name)? {
        Some(procedure) => Ok(eval.known(whole, Value::Procedure(procedure))),
        None => Ok(eval.known(whole, Value::Nil)),
    }
}

/// The procedure that a method of a type is, by all full reveals; none where it is NIL.
fn method_value<'a>(
    eval: &mut Evaluator<'_, 'a>,
    kind: TypeId,
    name: &'a [u8],
) -> Result<Option<u32>, NoMemory> {
    let mut kind = kind;
    for _ in 0..eval.declared.types.nodes.len() {
        match bound_node(eval, kind)? {
            TypeNode::Opaque(_, _) => match revealed(eval, kind) {
                Some(full) => kind = full,
                None => return Ok(None),
            },
            TypeNode::Object(_, parent, _, methods, overrides) => {
                for other in overrides {
                    if other.name == name {
                        return Ok(procedure_value(eval, TypeId(other.value.0)));
                    }
                }
                for method in methods {
                    if method.name == name {
                        return Ok(match method.default {
                            Some(default) => procedure_value(eval, TypeId(default.value.0)),
                            None => None,
                        });
                    }
                }
                kind = parent;
            }
            _ => return Ok(None),
        }
    }
    Ok(None)
}

/// The definition of a type with what is bound to its methods.
fn bound_node<'a>(eval: &mut Evaluator<'_, 'a>, kind: TypeId) -> Result<TypeNode<'a>, NoMemory> {
    let node = eval.node(kind)?;
    if eval.drafts.contains_key(&kind) {
        eval.lack(Need::Methods(kind))?;
        return Ok(match eval.declared.types.nodes.get(kind.0 as usize) {
            Some(node) => *node,
            None => TypeNode::Reserved,
        });
    }
    Ok(node)
}

fn revealed<'a>(eval: &Evaluator<'_, 'a>, kind: TypeId) -> Option<TypeId> {
    if (kind.0 as usize) < eval.declared.types.nodes.len() {
        eval.declared.types.full_reveal(kind)
    } else {
        None
    }
}

fn procedure_value<'a>(eval: &Evaluator<'_, 'a>, value: TypeId) -> Option<u32> {
    match eval.definition(value) {
        TypeNode::Constant(ConstValue::Procedure(procedure)) => Some(procedure),
        _ => None,
    }
}
