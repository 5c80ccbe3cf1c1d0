use m3_base::{NoMemory, place_number, rules};
use m3_const_values::{is_subtype, newest_member, seen_structure, type_of_name};
use m3_decl_lookup::{Member, method_kind};
use m3_decl_state::{Declarer, MethodValue};
use m3_link_gather::TypeAt;
use m3_syntax::TypeExp;
use m3_types::{Mode, Secret, TypeId, TypeNode};
use std::collections::{HashMap, HashSet};

/// How many ancestors are passed between two that are noted as being below a type.
const NOTED_EVERY: usize = 64;

/// Object types with types above them that were found.
#[derive(Drop)]
struct Lines {
    below: HashSet<(TypeId, TypeId)>,
}

impl Lines {
    fn note(&mut self, passed: &[TypeId], above: TypeId) -> Result<(), NoMemory> {
        for object in passed {
            self.below.insert((*object, above))?;
        }
        Ok(())
    }
}

/// Rule 49 on the parents, methods and overrides of object types.
pub fn judge_methods<'a>(
    declarer: &mut Declarer<'_, 'a>,
    types: &[TypeAt<'a>],
) -> Result<(), NoMemory> {
    let orphans = orphans(declarer, types)?;
    let mut lines = Lines {
        below: HashSet::new(declarer.eval.alloc),
    };
    let mut roots = HashMap::new(declarer.eval.alloc);
    for place in 0..declarer.values.len() {
        if let Some(value) = declarer.values.get(place).copied() {
            if !is_orphan(declarer, &orphans, &mut roots, value.object)? {
                judge_value(declarer, &mut lines, &value)?;
            }
        }
    }
    Ok(())
}

/// Whether a part of an object type or one of its ancestors has a parent that is refused. What
/// is found of them is kept.
fn is_orphan<'a>(
    declarer: &Declarer<'_, 'a>,
    orphans: &HashSet<TypeId>,
    known: &mut HashMap<TypeId, bool>,
    object: TypeId,
) -> Result<bool, NoMemory> {
    let mut passed = Vec::new(declarer.eval.alloc);
    let mut at = object;
    let mut is_orphan = false;
    'ancestors: for _ in 0..declarer.eval.declared.types.nodes.len() {
        if let Some(found) = known.get(&at) {
            is_orphan = *found;
            break 'ancestors;
        }
        passed.push(at)?;
        if orphans.contains(&at) || declarer.is_refused(at) {
            is_orphan = true;
            break 'ancestors;
        }
        match declarer.eval.definition(at) {
            TypeNode::Object(_, parent, _, _, _) => at = parent,
            _ => break 'ancestors,
        }
    }
    for kind in &passed {
        known.insert(*kind, is_orphan)?;
    }
    Ok(is_orphan)
}

/// The parts of object types whose parents are refused.
fn orphans<'a>(
    declarer: &mut Declarer<'_, 'a>,
    types: &[TypeAt<'a>],
) -> Result<HashSet<TypeId>, NoMemory> {
    let mut orphans = HashSet::new(declarer.eval.alloc);
    for written in types {
        if let Some(orphan) = judge_parent(declarer, written)? {
            orphans.insert(orphan)?;
        }
    }
    Ok(orphans)
}

/// Refuses a parent that is no object type, or Thread.T. The part whose parent is refused is
/// given.
fn judge_parent<'a>(
    declarer: &mut Declarer<'_, 'a>,
    written: &TypeAt<'a>,
) -> Result<Option<TypeId>, NoMemory> {
    let TypeExp::Object {
        parent: Some(name),
        parts,
        ..
    } = written.kind
    else {
        return Ok(None);
    };
    declarer.eval.unit = written.unit;
    let last = declarer.kind_of(written.kind);
    let behind = place_number(parts.len().saturating_sub(1))?;
    let first = TypeId(last.0.saturating_sub(behind));
    let Some(parent) = type_of_name(&declarer.eval, name) else {
        return Ok(Some(first));
    };
    if declarer.is_refused(parent) {
        return Ok(Some(first));
    }
    if !is_parent(declarer, parent)? {
        declarer.note(written.unit, name.pos(), rules::BAD_DECLARATION);
        return Ok(Some(first));
    }
    Ok(None)
}

/// Whether a type is an object type, as far as the unit can see.
fn is_parent<'a>(declarer: &mut Declarer<'_, 'a>, kind: TypeId) -> Result<bool, NoMemory> {
    if let TypeNode::Opaque(_, Secret::Thread) = declarer.eval.definition(kind) {
        return Ok(false);
    }
    let seen = seen_structure(&declarer.eval, kind)?;
    Ok(matches!(
        declarer.eval.definition(seen),
        TypeNode::Object(_, _, _, _, _) | TypeNode::Root | TypeNode::Mutex
    ))
}

/// Refuses what is bound to a method and doesn't fit it, what overrides one and is no procedure
/// (rule 44), and an override of no method.
fn judge_value<'a>(
    declarer: &mut Declarer<'_, 'a>,
    lines: &mut Lines,
    value: &MethodValue<'a>,
) -> Result<(), NoMemory> {
    declarer.eval.unit = value.unit;
    let signature = match value.signature {
        Some(signature) => Some(signature),
        None => overridden(declarer, value)?,
    };
    if let (Some(_), Some(pos)) = (signature, value.wrong) {
        declarer.note(value.unit, pos, rules::WRONG_KIND_OF_CONSTANT);
        return Ok(());
    }
    let is_good = match (signature, value.procedure) {
        (None, _) => false,
        (Some(_), None) => true,
        (Some(signature), Some(procedure)) => {
            fits(declarer, lines, value.object, signature, procedure)?
        }
    };
    if !is_good {
        declarer.note(value.unit, value.pos, rules::BAD_DECLARATION);
    }
    Ok(())
}

/// The signature of the method that is overridden.
fn overridden<'a>(
    declarer: &mut Declarer<'_, 'a>,
    value: &MethodValue<'a>,
) -> Result<Option<TypeId>, NoMemory> {
    let TypeNode::Object(_, parent, _, _, _) = declarer.eval.definition(value.object) else {
        return Ok(None);
    };
    match newest_member(&mut declarer.eval, parent, value.name)? {
        Some(found) => match found.member {
            Member::Method(method) => Ok(method_kind(
                declarer.eval.definition(found.owner),
                method,
            )),
            _ => Ok(None),
        },
        None => Ok(None),
    }
}

/// Whether a procedure can be a method of an object type, or a type in one of them is refused.
fn fits<'a>(
    declarer: &mut Declarer<'_, 'a>,
    lines: &mut Lines,
    object: TypeId,
    signature: TypeId,
    procedure: TypeId,
) -> Result<bool, NoMemory> {
    if declarer.is_unsound(procedure) || declarer.is_unsound(signature) {
        return Ok(true);
    }
    method_fits(declarer, lines, object, signature, procedure)
}

/// Whether an object type is a subtype of another type, which mostly stands among its ancestors.
fn is_object_below<'a>(
    declarer: &Declarer<'_, 'a>,
    lines: &mut Lines,
    object: TypeId,
    above: TypeId,
) -> Result<bool, NoMemory> {
    let mut passed = Vec::new(declarer.eval.alloc);
    if !has_ancestor(declarer, lines, &mut passed, object, above)? {
        return is_subtype(&declarer.eval, object, above);
    }
    lines.note(passed.as_slice(), above)?;
    Ok(true)
}

/// Whether a type is an object type or one of its ancestors; some of those that are passed are
/// listed.
fn has_ancestor<'a>(
    declarer: &Declarer<'_, 'a>,
    lines: &Lines,
    passed: &mut Vec<TypeId>,
    object: TypeId,
    above: TypeId,
) -> Result<bool, NoMemory> {
    let mut at = object;
    for step in 0..declarer.eval.declared.types.nodes.len() {
        if at == above || lines.below.contains(&(at, above)) {
            return Ok(true);
        }
        if step % NOTED_EVERY == 0 {
            passed.push(at)?;
        }
        match declarer.eval.definition(at) {
            TypeNode::Object(_, parent, _, _, _) => at = parent,
            _ => return Ok(false),
        }
    }
    Ok(false)
}

/// Whether a procedure can be a method of an object type: its first formal is by VALUE and takes
/// the object, and the rest is a subtype of the method's signature.
fn method_fits<'a>(
    declarer: &mut Declarer<'_, 'a>,
    lines: &mut Lines,
    object: TypeId,
    signature: TypeId,
    procedure: TypeId,
) -> Result<bool, NoMemory> {
    let TypeNode::Procedure(formals, result, raises) = declarer.eval.definition(procedure) else {
        return Ok(false);
    };
    let [first, rest @ ..] = formals else {
        return Ok(false);
    };
    if first.mode != Mode::Value {
        return Ok(false);
    }
    if !declarer.is_refused(first.kind) && !is_object_below(declarer, lines, object, first.kind)? {
        return Ok(false);
    }
    let node = TypeNode::Procedure(rest, result, raises);
    let rest = declarer.eval.declared.types.push(node)?;
    is_subtype(&declarer.eval, rest, signature)
}
