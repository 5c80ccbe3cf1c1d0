use crate::methods::{Bound, bind_methods};
use bumpalo::Bump;
use bumpalo::collections::into_bump_slice;
use m3_base::{NoMemory, Pos, rules};
use m3_check_arithmetic_calls::type_given;
use m3_check_assigning::{assigned, judge_all, judge_given, value_given};
use m3_check_state::{Checker, Given, Thing};
use m3_check_types::{
    is_integer, is_subtype, is_unveiled, newest_member, own_member, visible_type,
};
use m3_core::{Binding, CoreExpr};
use m3_decl_lookup::{Found, Member, field_kind, method_kind};
use m3_syntax::Name;
use m3_types::{Secret, TypeId, TypeNode};

/// What NEW was given beside its type.
#[derive(Drop)]
struct Parts<'a> {
    sizes: Vec<CoreExpr<'a>, &'a Bump>,
    bindings: Vec<Binding<'a>, &'a Bump>,
    methods: Vec<Bound<'a>, &'a Bump>,
    is_bad: bool,
}

/// NEW of a type, with the sizes of its open dimensions or bindings (rules 55, 60, 65 and 66).
pub fn new_call<'a>(
    checker: &mut Checker<'_, 'a>,
    pos: Pos,
    parenthesis: Pos,
    actuals: &[Given<'a>],
) -> Result<Thing<'a>, NoMemory> {
    let (first, others) = match actuals.split_first() {
        Some((first, others)) if first.name.is_none() => (first, others),
        _ => {
            judge_all(checker, actuals)?;
            return Ok(checker.bad(parenthesis, rules::BAD_ACTUAL_LIST));
        }
    };
    let Some(kind) = type_given(checker, first) else {
        judge_all(checker, others)?;
        return Ok(Thing::Bad);
    };
    match made_by_new(checker, kind)? {
        Some(made) => new_of(checker, pos, (kind, made), others),
        None => {
            judge_all(checker, others)?;
            Ok(checker.bad(first.pos, rules::BAD_TYPE_FOR_NEW))
        }
    }
}

/// The type of the cells that NEW of a type makes; none where NEW doesn't take it.
fn made_by_new(checker: &mut Checker<'_, '_>, kind: TypeId) -> Result<Option<TypeId>, NoMemory> {
    match checker.node(kind) {
        TypeNode::Opaque(_, Secret::Thread) => return Ok(None),
        TypeNode::Opaque(_, Secret::Condition) => return Ok(Some(kind)),
        TypeNode::Opaque(_, Secret::Revealed) => {
            if !is_unveiled(checker, kind)? {
                return hidden(checker, kind);
            }
        }
        _ => {}
    }
    let visible = visible_type(checker, kind)?;
    match checker.node(visible) {
        TypeNode::RefTo(_, _)
        | TypeNode::Object(_, _, _, _, _)
        | TypeNode::Root
        | TypeNode::Mutex => Ok(Some(visible)),
        TypeNode::Opaque(_, _) => hidden(checker, visible),
        _ => Ok(None),
    }
}

/// An opaque type whose full reveal is hidden: NEW takes it where it is a subtype of ROOT.
fn hidden(checker: &Checker<'_, '_>, kind: TypeId) -> Result<Option<TypeId>, NoMemory> {
    if is_subtype(checker, kind, checker.declared.basic.root)? {
        Ok(Some(kind))
    } else {
        Ok(None)
    }
}

/// NEW of a type that it takes, with what was given beside it.
fn new_of<'a>(
    checker: &mut Checker<'_, 'a>,
    pos: Pos,
    kinds: (TypeId, TypeId),
    others: &[Given<'a>],
) -> Result<Thing<'a>, NoMemory> {
    let mut parts = Parts {
        sizes: Vec::new(checker.arena),
        bindings: Vec::new(checker.arena),
        methods: Vec::new(checker.arena),
        is_bad: false,
    };
    read_parts(checker, &mut parts, pos, kinds, others)?;
    let Parts {
        sizes,
        bindings,
        methods,
        is_bad,
    } = parts;
    let sizes = into_bump_slice(sizes);
    let bindings = into_bump_slice(bindings);
    match bind_methods(checker, kinds, into_bump_slice(methods))? {
        Some((kind, made)) if !is_bad => {
            let expr = CoreExpr::New {
                pos,
                kind,
                made,
                sizes,
                bindings,
            };
            checker.value(expr, kind)
        }
        _ => Ok(Thing::Bad),
    }
}

/// Judges the sizes and bindings of NEW, and the number of sizes (rule 66 at NEW).
fn read_parts<'a>(
    checker: &mut Checker<'_, 'a>,
    parts: &mut Parts<'a>,
    pos: Pos,
    kinds: (TypeId, TypeId),
    others: &[Given<'a>],
) -> Result<(), NoMemory> {
    let mut sizes = 0u64;
    for given in others {
        match given.name {
            Some(name) => binding(checker, parts, kinds, name, given)?,
            None => {
                sizes = sizes.saturating_add(1);
                size(checker, parts, given)?;
            }
        }
    }
    if sizes != open_dimensions(checker, kinds.1) && !is_reference_to_refused(checker, kinds.1) {
        checker.note(pos, rules::BAD_NEW_ARGUMENT);
        parts.is_bad = true;
    }
    Ok(())
}

/// The open dimensions of the referent of a REF type.
fn open_dimensions(checker: &Checker<'_, '_>, made: TypeId) -> u64 {
    let TypeNode::RefTo(_, target) = checker.node(made) else {
        return 0;
    };
    let mut kind = target;
    let mut dimensions = 0u64;
    for _ in 0..checker.declared.types.nodes.len() {
        match checker.node(kind) {
            TypeNode::OpenArray(element) => {
                kind = element;
                dimensions = dimensions.saturating_add(1);
            }
            _ => return dimensions,
        }
    }
    dimensions
}

/// A size, which is an integer (rule 51).
fn size<'a>(
    checker: &mut Checker<'_, 'a>,
    parts: &mut Parts<'a>,
    given: &Given<'a>,
) -> Result<(), NoMemory> {
    match value_given(checker, given)? {
        Some(size) => {
            if !is_integer(checker, size.kind) {
                checker.note(given.pos, rules::NOT_ASSIGNABLE);
            }
            parts.sizes.push(*size.core())?;
        }
        None => parts.is_bad = true,
    }
    Ok(())
}

/// A binding of a field or a method (rule 66).
fn binding<'a>(
    checker: &mut Checker<'_, 'a>,
    parts: &mut Parts<'a>,
    kinds: (TypeId, TypeId),
    name: Name<'a>,
    given: &Given<'a>,
) -> Result<(), NoMemory> {
    let Some(found) = bindable(checker, kinds, name.text)? else {
        if !is_reference_to_refused(checker, kinds.1) {
            checker.note(name.pos, rules::BAD_NEW_ARGUMENT);
        }
        judge_given(checker, given)?;
        parts.is_bad = true;
        return Ok(());
    };
    match found.member {
        Member::Field(field) => bind_field(checker, parts, found.owner, field, given),
        Member::Method(method) => {
            let value = value_given(checker, given)?;
            if let Some(pos) = given.inner {
                checker.note(pos, rules::NESTED_PROCEDURE_ASSIGNED);
            }
            match (value, method_kind(checker.node(found.owner), method)) {
                (Some(value), Some(signature)) => parts.methods.push(Bound {
                    name,
                    value,
                    signature,
                })?,
                _ => parts.is_bad = true,
            }
            Ok(())
        }
        _ => Ok(()),
    }
}

fn bind_field<'a>(
    checker: &mut Checker<'_, 'a>,
    parts: &mut Parts<'a>,
    owner: TypeId,
    field: u32,
    given: &Given<'a>,
) -> Result<(), NoMemory> {
    let value = match field_kind(checker.node(owner), field) {
        Some(to) => assigned(checker, given, to)?,
        None => None,
    };
    let object = match checker.node(owner) {
        TypeNode::Object(_, _, _, _, _) => Some(owner),
        _ => None,
    };
    match value {
        Some(value) => parts.bindings.push(Binding {
            owner: object,
            field,
            value: value.core(),
        })?,
        None => parts.is_bad = true,
    }
    Ok(())
}

/// Whether a type is a REF type whose referent was refused.
fn is_reference_to_refused(checker: &Checker<'_, '_>, kind: TypeId) -> bool {
    match checker.node(kind) {
        TypeNode::RefTo(_, target) => checker.is_refused(target),
        _ => false,
    }
}

/// The field or method of this name that NEW of a type may bind.
fn bindable<'a>(
    checker: &mut Checker<'_, 'a>,
    kinds: (TypeId, TypeId),
    name: &'a [u8],
) -> Result<Option<Found>, NoMemory> {
    let TypeNode::RefTo(_, target) = checker.node(kinds.1) else {
        return newest_member(checker, kinds.0, name);
    };
    if !matches!(checker.node(target), TypeNode::Fields(_)) {
        return Ok(None);
    }
    match own_member(checker, target, name)? {
        Some(member) => Ok(Some(Found {
            owner: target,
            member,
        })),
        None => Ok(None),
    }
}
