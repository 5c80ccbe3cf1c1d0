use crate::judging::judge_type;
use m3_base::rules;
use m3_check_state::Checker;
use m3_link_scopes::{EntityId, EntityKind, Predeclared};
use m3_syntax::{Qualid, TypeExp, TypeName};
use m3_types::TypeId;

/// The type that a type expression stands for; none where it was refused. A name that is no type
/// is refused (rule 60).
pub fn type_of<'a>(checker: &mut Checker<'_, 'a>, kind: &TypeExp<'a>) -> Option<TypeId> {
    judge_type(checker, kind);
    let mut kind = kind;
    'parentheses: loop {
        match kind {
            TypeExp::Parenthesis { inner, .. } => kind = inner,
            _ => break 'parentheses,
        }
    }
    let found = match kind {
        TypeExp::Named(TypeName::Named(name)) => type_named(checker, name),
        TypeExp::Named(TypeName::Root(_)) => Some(checker.declared.basic.root),
        other => checker.declared.type_at(checker.unit, other.pos()),
    };
    unless_refused(checker, found)
}

fn unless_refused(checker: &Checker<'_, '_>, found: Option<TypeId>) -> Option<TypeId> {
    match found {
        Some(kind) if !checker.is_refused(kind) => Some(kind),
        _ => None,
    }
}

/// The type that a name stands for; what is none is refused (rule 60).
pub fn type_named<'a>(checker: &mut Checker<'_, 'a>, name: &Qualid<'a>) -> Option<TypeId> {
    let found = match entity_named(checker, name) {
        Some(id) => entity_type(checker, id),
        None => Named::Nothing,
    };
    match found {
        Named::Type(kind) => kind,
        Named::Nothing => {
            checker.note(name.first.pos, rules::TYPE_EXPECTED);
            None
        }
    }
}

fn entity_type(checker: &Checker<'_, '_>, id: EntityId) -> Named {
    let Some(entity) = checker.program.binds.entity(id) else {
        return Named::Type(None);
    };
    match entity.kind {
        EntityKind::Type | EntityKind::Opaque => Named::Type(checker.declared.type_named(id)),
        EntityKind::Unknown
        | EntityKind::Predeclared(Predeclared::Floating)
        | EntityKind::Predeclared(Predeclared::LeftOut) => Named::Type(None),
        EntityKind::Predeclared(name) => match checker.declared.basic.named(name) {
            Some(kind) => Named::Type(Some(kind)),
            None => Named::Nothing,
        },
        _ => Named::Nothing,
    }
}

/// What a name in a type stands for.
#[derive(Clone, Copy)]
enum Named {
    /// A type, which is none where it was refused.
    Type(Option<TypeId>),
    Nothing,
}

/// What a qualified name stands for: none where its first name is no interface but has a dot.
pub fn entity_named<'a>(checker: &Checker<'_, 'a>, name: &Qualid<'a>) -> Option<EntityId> {
    let first = checker.program.binds.at(checker.unit, name.first.pos)?;
    match (checker.program.binds.entity(first)?.kind, name.second) {
        (_, None) => Some(first),
        (EntityKind::Import(_), Some(second)) => checker.program.binds.at(checker.unit, second.pos),
        (_, Some(_)) => None,
    }
}
