use crate::wideness::{Words, new_words, words_of};
use m3_base::{NoMemory, Pos, place_number, rules};
use m3_const_values::is_subtype;
use m3_decl_state::{Declarer, Trees};
use m3_link_scopes::{Declaration, Entity, EntityId, EntityKind};

/// Rule 49 on the arguments of exceptions.
pub fn judge_arguments<'a>(
    declarer: &mut Declarer<'_, 'a>,
    trees: &Trees<'_, 'a>,
) -> Result<(), NoMemory> {
    let program = declarer.eval.program;
    let mut words = new_words(declarer);
    for (place, entity) in program.binds.entities().iter().enumerate() {
        let id = EntityId(place_number(place)?);
        if entity.kind == EntityKind::Exception {
            if let Some(exp) = trees.argument_of(entity) {
                judge_argument(declarer, &mut words, id, entity.unit, exp.pos())?;
            }
        }
    }
    Ok(())
}

/// The argument of an exception has one word.
fn judge_argument<'a>(
    declarer: &mut Declarer<'_, 'a>,
    words: &mut Words,
    id: EntityId,
    unit: u32,
    pos: Pos,
) -> Result<(), NoMemory> {
    let Some(kind) = declarer.eval.declared.kind_of(id) else {
        return Ok(());
    };
    if !declarer.is_refused(kind) && words_of(declarer, words, kind)? > 1 {
        declarer.note(unit, pos, rules::BAD_DECLARATION);
    }
    Ok(())
}

/// Rule 49 on each brand text that stands in the program before.
pub fn judge_brands<'a>(declarer: &mut Declarer<'_, 'a>) -> Result<(), NoMemory> {
    let mut order = Vec::new(declarer.eval.alloc);
    for brand in &declarer.brands {
        order.push((brand.text, brand.number, brand.pos, brand.unit))?;
    }
    order.sort_unstable();
    let mut before: Option<&[u8]> = None;
    for (text, _, pos, unit) in &order {
        if before == Some(*text) {
            declarer.note(*unit, *pos, rules::BAD_DECLARATION);
        }
        before = Some(*text);
    }
    Ok(())
}

/// Rule 49 on the bodies of the heads of interfaces.
pub fn judge_bodies<'a>(
    declarer: &mut Declarer<'_, 'a>,
    trees: &Trees<'_, 'a>,
) -> Result<(), NoMemory> {
    let program = declarer.eval.program;
    for (place, head) in program.binds.entities().iter().enumerate() {
        let id = EntityId(place_number(place)?);
        if let Some(body) = head.body {
            if let Some(pos) = place_of_body(trees, program.binds.entity(body)) {
                judge_body(declarer, id, body, pos)?;
            }
        }
    }
    Ok(())
}

/// The place where the declaration of a procedure's body begins.
fn place_of_body<'a>(trees: &Trees<'_, 'a>, body: Option<Entity<'a>>) -> Option<Pos> {
    match trees.declaration(&body?)? {
        Declaration::Procedure { pos, .. } => Some(*pos),
        _ => None,
    }
}

fn judge_body<'a>(
    declarer: &mut Declarer<'_, 'a>,
    head: EntityId,
    body: EntityId,
    pos: Pos,
) -> Result<(), NoMemory> {
    let (Some(wanted), Some(kind), Some(entity)) = (
        declarer.eval.declared.kind_of(head),
        declarer.eval.declared.kind_of(body),
        declarer.eval.program.binds.entity(body),
    ) else {
        return Ok(());
    };
    if declarer.is_unsound(wanted) || declarer.is_unsound(kind) {
        return Ok(());
    }
    declarer.eval.unit = entity.unit;
    if !is_subtype(&declarer.eval, kind, wanted)? {
        declarer.note(entity.unit, pos, rules::BAD_DECLARATION);
    }
    Ok(())
}
