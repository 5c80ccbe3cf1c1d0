use crate::views::visible_type;
use m3_base::NoMemory;
use m3_check_state::Checker;
use m3_decl_lookup::{Found, Member};
use m3_types::{Formal, TypeId, TypeNode};

/// The member of this name that a type declares itself.
pub fn own_member<'a>(
    checker: &mut Checker<'_, 'a>,
    kind: TypeId,
    name: &'a [u8],
) -> Result<Option<Member>, NoMemory> {
    let node = checker.node(kind);
    checker.members.own(kind, node, name)
}

/// The newest member of this name of an object type and its ancestors, as the unit sees them.
pub fn newest_member<'a>(
    checker: &mut Checker<'_, 'a>,
    kind: TypeId,
    name: &'a [u8],
) -> Result<Option<Found>, NoMemory> {
    let mut kind = kind;
    for _ in 0..checker.declared.types.nodes.len() {
        let owner = visible_type(checker, kind)?;
        let TypeNode::Object(_, parent, _, _, _) = checker.node(owner) else {
            return Ok(None);
        };
        if let Some(member) = own_member(checker, owner, name)? {
            return Ok(Some(Found { owner, member }));
        }
        kind = parent;
    }
    Ok(None)
}

/// The formals of a signature.
pub fn formals_of<'a>(checker: &Checker<'_, 'a>, signature: TypeId) -> &'a [Formal<'a>] {
    formals_in(checker.node(signature))
}

fn formals_in<'a>(node: TypeNode<'a>) -> &'a [Formal<'a>] {
    match node {
        TypeNode::Procedure(formals, _, _) => formals,
        _ => &[],
    }
}
