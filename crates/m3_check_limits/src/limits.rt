use crate::cells::Cells;
use crate::lists::{Lists, WrittenType};
use m3_base::{Least, NoMemory, Pos, Refusal, Refused, rules};
use m3_core::{Core, ProcDef, VarDef, VarKind};
use m3_link_scopes::Program;
use m3_source::{frame_words, image_size};
use m3_types::TypeNode;
use m3_types_sizes::SizedTypes;
use std::alloc::Global;

const PHASE: u8 = 7;

/// The type expressions that a program may have.
const MOST_TYPES: usize = 65_535;

/// The procedures and module bodies that a program may have.
const MOST_PROCEDURES: usize = 65_535;

/// The words that a frame may have.
const MOST_FRAME: u64 = 1_000_000;

/// The words that a record, an array or an object may have.
pub const MOST_WORDS: u64 = 1_000_000_000;

/// The words that the module and interface variables may have together.
const MOST_GLOBALS: u64 = 16_777_216;

/// The size that a program may have.
const MOST_SIZE: u128 = 50_000_000;

/// Judges the limits: the least of rules 90 to 94, and where none of them is broken rule 95.
pub fn judge_limits<'a>(
    alloc: Global,
    program: &Program<'a>,
    lists: &Lists<'a>,
    core: &Core<'a>,
) -> Result<(), Refused> {
    let mut least = Least::new();
    judge_count(&mut least, alloc, lists.written)?;
    judge_procedures(&mut least, program, core);
    judge_types(&mut least, alloc, lists.written, &core.types)?;
    judge_globals(&mut least, lists.units, core);
    least.check()?;
    judge_size(&mut least, alloc, core)?;
    least.check()
}

fn refusal(unit: u32, pos: Pos, rule: u16) -> Refusal {
    Refusal {
        phase: PHASE,
        unit,
        pos,
        rule,
    }
}

/// Rule 90, at the first type expression past the limit.
fn judge_count(least: &mut Least, alloc: Global, written: &[WrittenType]) -> Result<(), NoMemory> {
    if written.len() <= MOST_TYPES {
        return Ok(());
    }
    let mut places = Vec::new(alloc);
    for kind in written {
        places.push((kind.unit, kind.pos))?;
    }
    places.sort()?;
    if let Some((unit, pos)) = places.get(MOST_TYPES) {
        least.note(refusal(*unit, *pos, rules::TOO_MANY_TYPES));
    }
    Ok(())
}

/// The number of the unit of a procedure.
fn unit_of(program: &Program<'_>, procedure: &ProcDef<'_>) -> u32 {
    match program.infos.get(procedure.unit as usize) {
        Some(info) => info.number,
        None => procedure.unit,
    }
}

/// Rules 91 and 92: too many procedures, and frames that are too large.
fn judge_procedures(least: &mut Least, program: &Program<'_>, core: &Core<'_>) {
    for (place, procedure) in core.procs.iter().enumerate() {
        if place == MOST_PROCEDURES {
            least.note(refusal(
                unit_of(program, procedure),
                procedure.pos,
                rules::TOO_MANY_PROCEDURES,
            ));
        }
        if let Ok(number) = u32::try_from(place) {
            if frame_words(core, number) > MOST_FRAME {
                least.note(refusal(
                    unit_of(program, procedure),
                    procedure.name_pos,
                    rules::FRAME_TOO_LARGE,
                ));
            }
        }
    }
}

/// Rule 93: arrays, records and cells of objects that are too large.
fn judge_types(
    least: &mut Least,
    alloc: Global,
    written: &[WrittenType],
    types: &SizedTypes<'_>,
) -> Result<(), NoMemory> {
    let mut cells = Cells::new(alloc);
    for kind in written {
        if is_too_large(&mut cells, types, kind)? {
            least.note(refusal(kind.unit, kind.pos, rules::TYPE_TOO_LARGE));
        }
    }
    Ok(())
}

fn is_too_large(
    cells: &mut Cells,
    types: &SizedTypes<'_>,
    written: &WrittenType,
) -> Result<bool, NoMemory> {
    match types.graph.nodes.get(written.kind.0 as usize) {
        Some(TypeNode::FixedArray(_, _)) | Some(TypeNode::Fields(_)) => {
            Ok(!types.has_size(written.kind))
        }
        Some(TypeNode::Object(_, _, _, _, _)) => {
            Ok(cells.words_of(types, written.kind)? > MOST_WORDS)
        }
        _ => Ok(false),
    }
}

/// Rule 94, at the variable with which the variables pass the limit.
fn judge_globals(least: &mut Least, units: &[u32], core: &Core<'_>) {
    let mut words = 0u64;
    for (variable, unit) in core.globals.iter().zip(units) {
        let before = words;
        words = before.saturating_add(words_of_global(&core.types, variable));
        if before <= MOST_GLOBALS && words > MOST_GLOBALS {
            least.note(refusal(*unit, variable.pos, rules::TOO_MANY_GLOBALS));
        }
    }
}

fn words_of_global(types: &SizedTypes<'_>, variable: &VarDef<'_>) -> u64 {
    match variable.kind {
        VarKind::Variable(kind) if types.has_size(kind) => types.words_of(kind),
        _ => 0,
    }
}

/// Rule 95, at the first place of the first file.
fn judge_size(least: &mut Least, alloc: Global, core: &Core<'_>) -> Result<(), NoMemory> {
    if image_size(alloc, core)? > MOST_SIZE {
        let pos = Pos {
            file: 0,
            line: 1,
            col: 1,
        };
        least.note(refusal(0, pos, rules::PROGRAM_TOO_LARGE));
    }
    Ok(())
}
