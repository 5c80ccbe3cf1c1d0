use m3_base::{NoMemory, Pos, place_number, rules};
use m3_decl_state::{Declarer, Trees};
use m3_link_gather::TypeAt;
use m3_link_scopes::{Declaration, Entity, EntityId, EntityKind};
use m3_syntax::{Init, ObjectPart, Signature, TypeExp};
use m3_types::{TypeId, TypeNode};

/// Which types a place forbids beside empty ordinal types.
#[derive(Clone, Copy, PartialEq, Eq)]
enum Open {
    Allowed,
    Forbidden,
}

/// Where a type is judged that the declaration of a name gives.
fn place_of(init: &Init<'_>) -> Pos {
    match init {
        Init::Typed(kind, _) => kind.pos(),
        Init::Untyped(value) => value.pos(),
    }
}

/// Rules 47 and 48 on the parts of types, and on variables. The types that break one are noted.
pub fn judge_parts<'a>(
    declarer: &mut Declarer<'_, 'a>,
    trees: &Trees<'_, 'a>,
) -> Result<(), NoMemory> {
    for written in &trees.gathered.types {
        let notes = declarer.notes;
        judge_type(declarer, written);
        if declarer.notes > notes {
            let kind = declarer.kind_of(written.kind);
            declarer.flawed.push(kind)?;
        }
    }
    let program = declarer.eval.program;
    for (place, entity) in program.binds.entities().iter().enumerate() {
        let id = EntityId(place_number(place)?);
        if let Some(declaration) = trees.declaration(entity) {
            let notes = declarer.notes;
            judge_entity(declarer, declaration, entity, id);
            if declarer.notes > notes && entity.kind == EntityKind::Procedure {
                note_flawed(declarer, id)?;
            }
        }
    }
    Ok(())
}

/// Notes that the signature of a procedure breaks a rule.
fn note_flawed(declarer: &mut Declarer<'_, '_>, procedure: EntityId) -> Result<(), NoMemory> {
    if let Some(kind) = declarer.eval.declared.kind_of(procedure) {
        declarer.flawed.push(kind)?;
    }
    Ok(())
}

fn node<'a>(declarer: &Declarer<'_, 'a>, kind: TypeId) -> TypeNode<'a> {
    declarer.eval.definition(kind)
}

fn is_ordinal<'a>(declarer: &Declarer<'_, 'a>, kind: TypeId) -> bool {
    matches!(
        node(declarer, kind),
        TypeNode::Integer
            | TypeNode::Boolean
            | TypeNode::Character
            | TypeNode::Enumeration(_)
            | TypeNode::Subrange(_, _, _)
    )
}

/// Refuses an empty ordinal type, and an open array where it is forbidden (rule 47).
fn judge_held<'a>(declarer: &mut Declarer<'_, 'a>, unit: u32, pos: Pos, kind: TypeId, open: Open) {
    let is_open = matches!(node(declarer, kind), TypeNode::OpenArray(_));
    let is_empty = is_ordinal(declarer, kind)
        && declarer.eval.declared.types.member_count(kind) == 0;
    if is_empty || is_open && open == Open::Forbidden {
        declarer.note(unit, pos, rules::TYPE_NOT_ALLOWED_HERE);
    }
}

/// Refuses a type that isn't ordinal where one is wanted (rule 47).
fn judge_ordinal<'a>(
    declarer: &mut Declarer<'_, 'a>,
    unit: u32,
    exp: &TypeExp<'a>,
) -> Option<TypeId> {
    let kind = declarer.kind_of(exp);
    if declarer.is_unsound(kind) {
        return None;
    }
    if !is_ordinal(declarer, kind) {
        declarer.note(unit, exp.pos(), rules::TYPE_NOT_ALLOWED_HERE);
        return None;
    }
    Some(kind)
}

fn judge_type<'a>(declarer: &mut Declarer<'_, 'a>, written: &TypeAt<'a>) {
    let unit = written.unit;
    declarer.eval.unit = unit;
    match written.kind {
        TypeExp::Array {
            indexes,
            element,
            ..
        } => judge_array(declarer, unit, indexes, element),
        TypeExp::Record { fields, .. } => {
            let kind = declarer.kind_of(written.kind);
            judge_fields(declarer, unit, kind, fields);
        }
        TypeExp::Ref { target, .. } => {
            let kind = declarer.kind_of(target);
            judge_held(declarer, unit, target.pos(), kind, Open::Allowed);
        }
        TypeExp::Set { pos, base } => {
            if let Some(kind) = judge_ordinal(declarer, unit, base) {
                if declarer.eval.declared.types.member_count(kind) > 256 {
                    declarer.note(unit, *pos, rules::SET_TOO_LARGE);
                }
            }
        }
        TypeExp::Procedure { signature, .. } => {
            let kind = declarer.kind_of(written.kind);
            judge_signature(declarer, unit, kind, signature);
        }
        TypeExp::Object { parts, .. } => {
            let last = declarer.kind_of(written.kind);
            judge_object(declarer, unit, last, parts);
        }
        _ => {}
    }
}

fn judge_array<'a>(
    declarer: &mut Declarer<'_, 'a>,
    unit: u32,
    indexes: &'a [TypeExp<'a>],
    element: &'a TypeExp<'a>,
) {
    for index in indexes {
        judge_ordinal(declarer, unit, index);
    }
    let open = if indexes.is_empty() {
        Open::Allowed
    } else {
        Open::Forbidden
    };
    let kind = declarer.kind_of(element);
    judge_held(declarer, unit, element.pos(), kind, open);
}

/// The parts of an object type, whose places in the graph are in a row.
fn judge_object<'a>(
    declarer: &mut Declarer<'_, 'a>,
    unit: u32,
    last: TypeId,
    parts: &'a [ObjectPart<'a>],
) {
    let mut kind = last;
    for part in parts.iter().rev() {
        judge_part(declarer, unit, kind, part);
        kind = TypeId(kind.0.saturating_sub(1));
    }
}

fn judge_part<'a>(
    declarer: &mut Declarer<'_, 'a>,
    unit: u32,
    kind: TypeId,
    part: &'a ObjectPart<'a>,
) {
    judge_fields(declarer, unit, kind, part.fields);
    for method in part.methods {
        if let Some(kind) = declarer.eval.declared.type_at(unit, method.name.pos) {
            judge_signature(declarer, unit, kind, &method.signature);
        }
    }
}

fn judge_fields<'a>(
    declarer: &mut Declarer<'_, 'a>,
    unit: u32,
    kind: TypeId,
    fields: &'a [m3_syntax::Field<'a>],
) {
    let row = match node(declarer, kind) {
        TypeNode::Fields(row) | TypeNode::Object(_, _, row, _, _) => row,
        _ => return,
    };
    let mut place = 0usize;
    for field in fields {
        if let Some(first) = row.get(place) {
            judge_held(
                declarer,
                unit,
                place_of(&field.init),
                first.kind,
                Open::Forbidden,
            );
        }
        place = place.saturating_add(field.names.len());
    }
}

fn judge_signature<'a>(
    declarer: &mut Declarer<'_, 'a>,
    unit: u32,
    kind: TypeId,
    signature: &'a Signature<'a>,
) {
    let TypeNode::Procedure(row, result, _) = node(declarer, kind) else {
        return;
    };
    let mut place = 0usize;
    for formal in signature.formals {
        if let Some(first) = row.get(place) {
            judge_held(
                declarer,
                unit,
                place_of(&formal.init),
                first.kind,
                Open::Allowed,
            );
        }
        place = place.saturating_add(formal.names.len());
    }
    if let (Some(kind), Some(exp)) = (result, signature.result) {
        if let TypeNode::OpenArray(_) = node(declarer, kind) {
            declarer.note(unit, exp.pos(), rules::TYPE_NOT_ALLOWED_HERE);
        }
    }
}

fn judge_entity<'a>(
    declarer: &mut Declarer<'_, 'a>,
    declaration: &Declaration<'a>,
    entity: &Entity<'a>,
    id: EntityId,
) {
    let Some(kind) = declarer.eval.declared.kind_of(id) else {
        return;
    };
    match declaration {
        Declaration::Variable(init) if entity.kind == EntityKind::Variable => {
            judge_held(declarer, entity.unit, place_of(init), kind, Open::Forbidden);
        }
        Declaration::Procedure { signature, .. } if entity.kind == EntityKind::Procedure => {
            judge_signature(declarer, entity.unit, kind, signature);
        }
        _ => {}
    }
}
