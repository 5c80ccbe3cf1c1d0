use crate::evaluator::Evaluator;
use crate::kinds::seen_structure;
use m3_base::NoMemory;
use m3_decl_lookup::{Found, Member};
use m3_types::{TypeId, TypeNode};

/// How many ancestors are passed between two for which a member that was found is noted.
const NOTED_EVERY: usize = 64;

/// The member of this name that a type declares itself, once its definition is there.
pub fn own_member<'a>(
    eval: &mut Evaluator<'_, 'a>,
    kind: TypeId,
    name: &'a [u8],
) -> Result<Option<Member>, NoMemory> {
    match eval.node(kind)? {
        TypeNode::Reserved => Ok(None),
        node => eval.members.own(kind, node, name),
    }
}

/// The newest member of this name of an object type and its ancestors, as the unit sees them.
pub fn newest_member<'a>(
    eval: &mut Evaluator<'_, 'a>,
    kind: TypeId,
    name: &'a [u8],
) -> Result<Option<Found>, NoMemory> {
    let unit = eval.unit;
    let mut passed = Vec::new(eval.alloc);
    let mut found = None;
    let mut kind = kind;
    'ancestors: for step in 0..eval.declared.types.nodes.len() {
        if let Some(known) = eval.found.get(&(unit, kind, name)).copied() {
            found = known;
            break 'ancestors;
        }
        if step % NOTED_EVERY == 0 {
            passed.push(kind)?;
        }
        let owner = seen_structure(eval, kind)?;
        let TypeNode::Object(_, parent, _, _, _) = eval.node(owner)? else {
            break 'ancestors;
        };
        if let Some(member) = own_member(eval, owner, name)? {
            found = Some(Found { owner, member });
            break 'ancestors;
        }
        kind = parent;
    }
    if eval.is_complete {
        for other in &passed {
            eval.found.insert((unit, *other, name), found)?;
        }
    }
    Ok(found)
}
