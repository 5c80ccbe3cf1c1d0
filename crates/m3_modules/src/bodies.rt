use m3_base::rules;
use m3_link_scopes::{EntityKind, Linker};

/// Refuses each head of a given interface that has a body nowhere (rule 32).
pub fn judge_bodies(linker: &mut Linker<'_>) {
    for place in 0..linker.binds.entities().len() {
        judge_body(linker, place);
    }
}

fn judge_body(linker: &mut Linker<'_>, place: usize) {
    let Some(entity) = linker.binds.entities().get(place).copied() else {
        return;
    };
    linker.unit = entity.unit;
    let is_head = entity.kind == EntityKind::Procedure
        && entity.is_outermost
        && linker.is_in_interface()
        && !entity.has_body;
    if is_head && entity.body.is_none() {
        linker.note(entity.pos, rules::PROCEDURE_WITHOUT_BODY);
    }
}
