use m3_base::{NoMemory, Pos};
use m3_const_values::{base_of, entity_named, share_base, type_of};
use m3_core::Value;
use m3_decl_constants::{constant_of, typed_constant, worth_of};
use m3_decl_lookup::Constant;
use m3_decl_state::{Declarer, Doubts, Trees};
use m3_link_gather::Bound;
use m3_link_scopes::{Declaration, Entity, EntityId, EntityKind};
use m3_syntax::{ConstDecl, Expr, Init, Qualid, Signature};
use m3_types::{TypeId, TypeNode};

/// Works out a named constant.
pub fn make_constant<'a>(
    declarer: &mut Declarer<'_, 'a>,
    trees: &mut Trees<'_, 'a>,
    id: EntityId,
) -> Result<(), NoMemory> {
    let Some(entity) = declarer.eval.program.binds.entity(id) else {
        return Ok(());
    };
    declarer.eval.unit = entity.unit;
    let Some(Declaration::Constant(declared)) = trees.declaration(&entity) else {
        return Ok(());
    };
    let found = declared_constant(declarer, &mut trees.doubts, declared)?;
    if let Some((kind, value)) = found {
        if declarer.has_all() {
            let value = declarer.eval.store(value)?;
            let constant = Constant { kind, value };
            declarer.eval.declared.give_constant(id, constant)?;
        }
    }
    Ok(())
}

/// The type and the value of a declared constant.
fn declared_constant<'a>(
    declarer: &mut Declarer<'_, 'a>,
    doubts: &mut Doubts<'a>,
    declared: &ConstDecl<'a>,
) -> Result<Option<(TypeId, Value<'a>)>, NoMemory> {
    let Some(kind) = declared.kind else {
        return typed_constant(declarer, doubts, declared.value);
    };
    let kind = declarer.kind_of(kind);
    match constant_of(declarer, doubts, declared.value, kind)? {
        Some(value) => Ok(Some((kind, value))),
        None => Ok(None),
    }
}

/// Works out the type of a variable that names none.
pub fn make_kind<'a>(
    declarer: &mut Declarer<'_, 'a>,
    trees: &mut Trees<'_, 'a>,
    id: EntityId,
) -> Result<(), NoMemory> {
    let Some(entity) = declarer.eval.program.binds.entity(id) else {
        return Ok(());
    };
    declarer.eval.unit = entity.unit;
    let kind = match entity.kind {
        EntityKind::Formal => formal_kind(declarer, trees.declaration(&entity), &entity)?,
        EntityKind::Variable => match trees.init_of(&entity) {
            Some(Init::Untyped(value)) => value_kind(declarer, &mut trees.doubts, value)?,
            _ => None,
        },
        _ => match trees.gathered.bindings.get(&id).copied() {
            Some(bound) => bound_kind(declarer, &mut trees.doubts, &bound)?,
            None => None,
        },
    };
    if let Some(kind) = kind {
        if declarer.has_all() {
            declarer.eval.declared.give_kind(id, kind)?;
        }
    }
    Ok(())
}

fn value_kind<'a>(
    declarer: &mut Declarer<'_, 'a>,
    doubts: &mut Doubts<'a>,
    value: &'a Expr<'a>,
) -> Result<Option<TypeId>, NoMemory> {
    match worth_of(declarer, doubts, value, false)? {
        Some(worth) => Ok(Some(worth.kind)),
        None => Ok(None),
    }
}

/// The type of a name that a statement binds.
fn bound_kind<'a>(
    declarer: &mut Declarer<'_, 'a>,
    doubts: &mut Doubts<'a>,
    bound: &Bound<'a>,
) -> Result<Option<TypeId>, NoMemory> {
    match bound {
        Bound::Value(value) => value_kind(declarer, doubts, value),
        Bound::Range(first, last) => {
            let from = value_kind(declarer, doubts, first)?;
            let to = value_kind(declarer, doubts, last)?;
            range_kind(declarer, from, to)
        }
        Bound::Exception(name) => Ok(argument_kind(declarer, name)),
        Bound::Type(kind) => Ok(type_of(&declarer.eval, kind)),
    }
}

/// The type of the variable of a FOR, by those of its bounds.
fn range_kind(
    declarer: &mut Declarer<'_, '_>,
    from: Option<TypeId>,
    to: Option<TypeId>,
) -> Result<Option<TypeId>, NoMemory> {
    let Some(from) = from else {
        return Ok(None);
    };
    let Some(to) = to else {
        return Ok(None);
    };
    if share_base(&mut declarer.eval, from, to)? {
        Ok(Some(base_of(&declarer.eval, from)))
    } else {
        Ok(None)
    }
}

fn argument_kind<'a>(declarer: &Declarer<'_, 'a>, name: &Qualid<'a>) -> Option<TypeId> {
    let id = entity_named(&declarer.eval, name)?;
    declarer.eval.declared.kind_of(id)
}

/// The type of a formal of a procedure that its default gives.
fn formal_kind<'a>(
    declarer: &mut Declarer<'_, 'a>,
    declaration: Option<&Declaration<'a>>,
    entity: &Entity<'a>,
) -> Result<Option<TypeId>, NoMemory> {
    let Some(
        Declaration::Formal {
            procedure,
            signature,
            ..
        },
    ) = declaration
    else {
        return Ok(None);
    };
    let place = formal_place(signature, entity.pos);
    kind_at(declarer, entity.unit, *procedure, place)
}

/// The type of the formal at a place among those of the procedure whose name stands at a place of
/// the text.
fn kind_at(
    declarer: &mut Declarer<'_, '_>,
    unit: u32,
    procedure: Pos,
    place: Option<usize>,
) -> Result<Option<TypeId>, NoMemory> {
    let Some(id) = declarer.eval.program.binds.at(unit, procedure) else {
        return Ok(None);
    };
    let Some(kind) = declarer.eval.declared.kind_of(id) else {
        return Ok(None);
    };
    let TypeNode::Procedure(formals, _, _) = declarer.eval.node(kind)? else {
        return Ok(None);
    };
    match place {
        Some(place) => match formals.get(place) {
            Some(formal) => Ok(Some(formal.kind)),
            None => Ok(None),
        },
        None => Ok(None),
    }
}

/// The place of the formal whose name stands at a place of the text.
fn formal_place(signature: &Signature<'_>, pos: Pos) -> Option<usize> {
    let mut place = 0usize;
    for formal in signature.formals {
        for name in formal.names {
            if name.pos == pos {
                return Some(place);
            }
            place = place.saturating_add(1);
        }
    }
    None
}
