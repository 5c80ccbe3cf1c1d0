use m3_base::{NoMemory, Pos, place_number};
use m3_const_arithmetic::spelled;
use m3_core::Text;
use m3_decl_state::Declarer;
use m3_link_gather::TextAt;
use m3_link_scopes::{EntityId, EntityKind};

/// An entity of a unit, in the order of the text.
type Ordered = (u32, Pos, EntityId);

/// Gives each text literal its cell.
pub fn number_texts<'a>(
    declarer: &mut Declarer<'_, 'a>,
    texts: &[TextAt<'a>],
) -> Result<(), NoMemory> {
    for text in texts {
        let bytes = spelled(declarer.eval.arena, text.text)?;
        let cell = place_number(declarer.eval.declared.texts.len())?;
        declarer.eval.declared.texts.push(Text::Literal(bytes))?;
        declarer
            .eval
            .declared
            .place_text(text.unit, text.pos, cell)?;
    }
    Ok(())
}

/// The procedures with bodies, or the exceptions, by unit and place.
fn in_order(declarer: &Declarer<'_, '_>, are_exceptions: bool) -> Result<Vec<Ordered>, NoMemory> {
    let mut found = Vec::new(declarer.eval.alloc);
    for (place, entity) in declarer.eval.program.binds.entities().iter().enumerate() {
        let is_wanted = if are_exceptions {
            entity.kind == EntityKind::Exception
        } else {
            entity.kind == EntityKind::Procedure && entity.has_body
        };
        if is_wanted {
            let id = EntityId(place_number(place)?);
            found.push((entity.unit, entity.pos, id))?;
        }
    }
    found.sort_unstable();
    Ok(found)
}

/// Numbers the exceptions, by unit and place.
pub fn number_exceptions(declarer: &mut Declarer<'_, '_>) -> Result<(), NoMemory> {
    let found = in_order(declarer, true)?;
    for (number, (_, _, id)) in found.iter().enumerate() {
        declarer
            .eval
            .declared
            .number_exception(*id, place_number(number)?)?;
    }
    Ok(())
}

/// Numbers the procedures with bodies and the bodies of modules, a module's behind the
/// procedures of its unit, and each head with its body's number.
pub fn number_procedures(declarer: &mut Declarer<'_, '_>) -> Result<(), NoMemory> {
    let found = in_order(declarer, false)?;
    let mut next = 0usize;
    let mut modules = 0u32;
    let program = declarer.eval.program;
    for (place, info) in program.infos.iter().enumerate() {
        let here = place_number(place)?;
        next = number_unit(declarer, found.as_slice(), here, next, modules)?;
        if !info.is_interface {
            let number = place_number(next)?.saturating_add(modules);
            declarer.eval.declared.number_module(here, number)?;
            modules = modules.saturating_add(1);
        }
    }
    number_heads(declarer)
}

/// Numbers the procedures of a unit, which are next in the order, behind so many bodies of
/// modules. The place of the first procedure behind them is given.
fn number_unit(
    declarer: &mut Declarer<'_, '_>,
    found: &[Ordered],
    here: u32,
    next: usize,
    modules: u32,
) -> Result<usize, NoMemory> {
    let mut at = next;
    'procedures: for _ in next..found.len() {
        match found.get(at) {
            Some((unit, _, id)) if *unit == here => {
                let number = place_number(at)?.saturating_add(modules);
                declarer.eval.declared.number_procedure(*id, number)?;
                at = at.saturating_add(1);
            }
            _ => break 'procedures,
        }
    }
    Ok(at)
}

fn number_heads(declarer: &mut Declarer<'_, '_>) -> Result<(), NoMemory> {
    let program = declarer.eval.program;
    for (place, entity) in program.binds.entities().iter().enumerate() {
        let number = match entity.body {
            Some(body) => declarer.eval.declared.procedure_number(body),
            None => None,
        };
        if let Some(number) = number {
            let id = EntityId(place_number(place)?);
            declarer.eval.declared.number_procedure(id, number)?;
        }
    }
    Ok(())
}
