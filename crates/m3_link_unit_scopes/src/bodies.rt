use m3_base::rules;
use m3_link_scopes::{Entity, EntityId, Linker};

/// Makes a procedure of the module that is read the body of a head. Refuses a second body (rule
/// 33).
pub fn join_body(linker: &mut Linker<'_>, head: EntityId, mine: EntityId, body: &Entity<'_>) {
    if !body.has_body {
        return;
    }
    let first = match linker.entity_of(head) {
        Some(head) => head.body,
        None => None,
    };
    if first.is_some() {
        linker.note(body.pos, rules::TWO_BODIES);
    } else if let Some(head) = linker.binds.entity_mut(head) {
        head.body = Some(mine);
    }
}
