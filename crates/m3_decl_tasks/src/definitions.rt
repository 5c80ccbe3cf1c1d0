use bumpalo::Bump;
use bumpalo::collections::into_bump_slice;
use m3_base::NoMemory;
use m3_const_values::type_of_name;
use m3_decl_constants::{brand_of, field_row, signature_node, subrange};
use m3_decl_state::{Declarer, Doubts, Trees, Written};
use m3_syntax::{ObjectPart, TypeExp, TypeName};
use m3_types::{Method, Override, TypeId, TypeNode};

/// Works out the definition of a type.
pub fn make_node<'a>(
    declarer: &mut Declarer<'_, 'a>,
    trees: &mut Trees<'_, 'a>,
    kind: TypeId,
) -> Result<(), NoMemory> {
    let Some(plan) = declarer.plans.get(&kind).copied() else {
        return Ok(());
    };
    let Some(written) = trees.written.get(&kind).copied() else {
        return Ok(());
    };
    declarer.eval.unit = plan.unit;
    let node = definition_of(declarer, &mut trees.doubts, &written, kind)?;
    match node {
        Some(node) if declarer.has_all() => {
            keep_definition(declarer, kind, node, binds_methods(&written))
        }
        _ => Ok(()),
    }
}

/// Keeps the definition of a type, as a draft where something is bound to its methods.
fn keep_definition<'a>(
    declarer: &mut Declarer<'_, 'a>,
    kind: TypeId,
    node: TypeNode<'a>,
    is_draft: bool,
) -> Result<(), NoMemory> {
    if is_draft {
        declarer.eval.drafted.push(kind)?;
        declarer.eval.drafts.insert(kind, node)?;
    } else {
        declarer.set(kind, node);
    }
    Ok(())
}

fn definition_of<'a>(
    declarer: &mut Declarer<'_, 'a>,
    doubts: &mut Doubts<'a>,
    written: &Written<'a>,
    kind: TypeId,
) -> Result<Option<TypeNode<'a>>, NoMemory> {
    match written {
        Written::Type(exp) => type_node(declarer, doubts, exp),
        Written::Part(exp, place) => part_node(declarer, doubts, exp, *place, kind),
        Written::Signature(signature) => Ok(Some(signature_node(declarer, doubts, signature)?)),
    }
}

/// The definition of a subrange, a record or a reference type.
fn type_node<'a>(
    declarer: &mut Declarer<'_, 'a>,
    doubts: &mut Doubts<'a>,
    exp: &'a TypeExp<'a>,
) -> Result<Option<TypeNode<'a>>, NoMemory> {
    match exp {
        TypeExp::Subrange { first, last, .. } => subrange(declarer, doubts, first, last),
        TypeExp::Record { fields, .. } => {
            let fields = field_row(declarer, doubts, fields)?;
            Ok(Some(TypeNode::Fields(fields)))
        }
        TypeExp::Ref { brand, target, .. } => {
            let brand = brand_of(declarer, doubts, *brand)?;
            Ok(Some(TypeNode::RefTo(brand, declarer.kind_of(target))))
        }
        _ => Ok(None),
    }
}

/// A part of an object type: its parent is the part before it, or the named one.
fn part_node<'a>(
    declarer: &mut Declarer<'_, 'a>,
    doubts: &mut Doubts<'a>,
    exp: &'a TypeExp<'a>,
    place: u32,
    kind: TypeId,
) -> Result<Option<TypeNode<'a>>, NoMemory> {
    let TypeExp::Object { parent, parts, .. } = exp else {
        return Ok(None);
    };
    let Some(part) = parts.get(place as usize) else {
        return Ok(None);
    };
    let parent = if place > 0 {
        TypeId(kind.0.saturating_sub(1))
    } else {
        parent_of(declarer, parent)
    };
    let brand = brand_of(declarer, doubts, part.brand)?;
    let fields = field_row(declarer, doubts, part.fields)?;
    let methods = method_row(declarer, part)?;
    let overrides: Vec<Override<'a>, &'a Bump> = Vec::new(declarer.eval.arena);
    let overrides = into_bump_slice(overrides);
    Ok(Some(TypeNode::Object(brand, parent, fields, methods, overrides)))
}

/// The named parent of an object type, or ROOT where none is named.
fn parent_of<'a>(declarer: &Declarer<'_, 'a>, parent: &Option<TypeName<'a>>) -> TypeId {
    match parent {
        Some(name) => match type_of_name(&declarer.eval, name) {
            Some(parent) => parent,
            None => declarer.eval.declared.basic.refused,
        },
        None => declarer.eval.declared.basic.root,
    }
}

/// The methods of a part, without what is bound to them.
fn method_row<'a>(
    declarer: &Declarer<'_, 'a>,
    part: &'a ObjectPart<'a>,
) -> Result<&'a [Method<'a>], NoMemory> {
    let mut row: Vec<Method<'a>, &'a Bump> = Vec::new(declarer.eval.arena);
    for method in part.methods {
        let name = method.name;
        let signature = match declarer.eval.declared.type_at(declarer.eval.unit, name.pos) {
            Some(signature) => signature,
            None => declarer.eval.declared.basic.refused,
        };
        row.push(Method {
            name: name.text,
            signature,
            default: None,
        })?;
    }
    Ok(into_bump_slice(row))
}

/// Whether one of some methods has a procedure as its default.
fn has_default(methods: &[m3_syntax::Method<'_>]) -> bool {
    for method in methods {
        if method.default.is_some() {
            return true;
        }
    }
    false
}

/// Whether something is bound to the methods of an object type.
fn binds_methods(written: &Written<'_>) -> bool {
    let Written::Part(TypeExp::Object { parts, .. }, place) = written else {
        return false;
    };
    let Some(part) = parts.get(*place as usize) else {
        return false;
    };
    has_default(part.methods) || !part.overrides.is_empty()
}
