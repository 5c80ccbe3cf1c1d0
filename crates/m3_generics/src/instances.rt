use crate::tables::Tables;
use bumpalo::Bump;
use bumpalo::collections::into_bump_slice;
use m3_base::{Least, NoMemory, Pos, Refusal, Refused, rules};
use m3_syntax::{Import, ImportItem, Name, Unit, UnitKind};
use std::alloc::Global;

/// The tokens that the files of a program's units may have together, a generic's counted once for
/// itself and once for each of its instances.
pub const MOST_TOKENS: u64 = 2_000_000;

const PHASE: u8 = 3;

/// The units of a program with each instance of a generic written out in the place of its head,
/// which imports the actuals under the names of the formals, and without the generic units. The
/// places in an instance are those of its generic's file; its own place, its name and its exports
/// are those of its head. The instance shares the generic's trees.
///
/// Refuses by the least of rules 15 to 18: an unknown generic, a wrong number of actuals, an actual
/// that is no interface, and, where none of these is broken, too many tokens in all.
pub fn expand<'a>(
    alloc: Global,
    arena: &'a Bump,
    units: &[Unit<'a>],
) -> Result<Vec<Unit<'a>>, Refused> {
    let mut expansion = Expansion {
        tables: Tables::new(alloc, units)?,
        units,
        expanded: Vec::new(alloc),
        least: Least::new(),
        tokens: 0,
        passed: None,
    };
    for unit in units {
        expansion.unit(arena, unit)?;
    }
    expansion.least.check()?;
    match expansion.passed {
        None => Ok(expansion.expanded),
        Some(pos) => Err(Refused::Rule(refusal(pos.file, pos, rules::TOO_MANY_TOKENS_IN_ALL))),
    }
}

fn refusal(unit: u32, pos: Pos, rule: u16) -> Refusal {
    Refusal {
        phase: PHASE,
        unit,
        pos,
        rule,
    }
}

/// What is known after some units.
#[derive(Drop)]
struct Expansion<'u, 'a> {
    tables: Tables<'a>,
    units: &'u [Unit<'a>],
    expanded: Vec<Unit<'a>>,
    least: Least,
    /// The tokens so far.
    tokens: u64,
    /// The first token of the file of the unit that passed the limit.
    passed: Option<Pos>,
}

/// What the head of an instance names.
#[derive(Clone, Copy)]
struct Head<'a> {
    generic: Name<'a>,
    actuals: &'a [Name<'a>],
    /// The place of the generic unit in the list of units.
    found: Option<usize>,
}

impl<'a> Expansion<'_, 'a> {
    /// Adds the next unit as the program has it; nothing for a generic unit.
    fn unit(&mut self, arena: &'a Bump, unit: &Unit<'a>) -> Result<(), NoMemory> {
        match unit.kind {
            UnitKind::GenericInterface { .. } | UnitKind::GenericModule { .. } => {}
            UnitKind::Interface | UnitKind::Module { .. } => self.expanded.push(*unit)?,
            UnitKind::InterfaceInstance { .. } | UnitKind::ModuleInstance { .. } => {
                self.instance(arena, unit)?;
            }
        }
        self.count(unit.pos, unit.tokens);
        Ok(())
    }

    /// Counts tokens of a unit whose file begins at this place.
    fn count(&mut self, pos: Pos, tokens: u32) {
        self.tokens = self.tokens.saturating_add(u64::from(tokens));
        if self.tokens > MOST_TOKENS && self.passed.is_none() {
            self.passed = Some(pos);
        }
    }

    /// Judges the head of an instance, and adds the unit unless its generic is unknown.
    fn instance(&mut self, arena: &'a Bump, unit: &Unit<'a>) -> Result<(), NoMemory> {
        let Some(head) = head_of(&self.tables, &unit.kind) else {
            return Ok(());
        };
        self.judge_actuals(unit.pos.file, head.actuals);
        match text_at(self.units, head.found) {
            None => {
                self.note(unit.pos.file, head.generic.pos, rules::UNKNOWN_GENERIC);
                Ok(())
            }
            Some(text) => self.write_out(arena, unit, &head, text),
        }
    }

    /// Adds the unit of an instance of this text.
    fn write_out(
        &mut self,
        arena: &'a Bump,
        unit: &Unit<'a>,
        head: &Head<'a>,
        text: &Unit<'a>,
    ) -> Result<(), NoMemory> {
        let formals = formals_of(&text.kind);
        if formals.len() != head.actuals.len() {
            self.note(
                unit.pos.file,
                head.generic.pos,
                rules::WRONG_NUMBER_OF_ACTUALS,
            );
        }
        self.count(unit.pos, text.tokens);
        let imports = imports_of(arena, head.actuals, formals, text.imports)?;
        let exports = exports_of(&unit.kind);
        self.expanded.push(Unit {
            pos: unit.pos,
            is_unsafe: unit.is_unsafe,
            name: unit.name,
            kind: written_out(&text.kind, exports),
            imports,
            block: text.block,
            closing: unit.closing,
            tokens: unit.tokens,
        })?;
        Ok(())
    }

    fn note(&mut self, unit: u32, pos: Pos, rule: u16) {
        self.least.note(refusal(unit, pos, rule));
    }

    fn judge_actuals(&mut self, unit: u32, actuals: &'a [Name<'a>]) {
        for actual in actuals {
            if !self.tables.is_interface(actual.text) {
                self.note(unit, actual.pos, rules::ACTUAL_IS_NO_INTERFACE);
            }
        }
    }
}

/// The head of an instance; none of any other unit.
fn head_of<'a>(tables: &Tables<'a>, kind: &UnitKind<'a>) -> Option<Head<'a>> {
    match kind {
        UnitKind::InterfaceInstance { generic, actuals } => Some(Head {
            generic: *generic,
            actuals: *actuals,
            found: tables.generic_interface(generic.text),
        }),
        UnitKind::ModuleInstance {
            generic,
            actuals,
            ..
        } => Some(Head {
            generic: *generic,
            actuals: *actuals,
            found: tables.generic_module(generic.text),
        }),
        _ => None,
    }
}

/// The unit at a place that was found.
fn text_at<'u, 'a>(units: &'u [Unit<'a>], found: Option<usize>) -> Option<&'u Unit<'a>> {
    match found {
        Some(place) => units.get(place),
        None => None,
    }
}

/// The formals of a generic unit.
fn formals_of<'a>(generic: &UnitKind<'a>) -> &'a [Name<'a>] {
    match generic {
        UnitKind::GenericInterface { formals, .. } | UnitKind::GenericModule { formals, .. } => {
            *formals
        }
        _ => &[],
    }
}

/// The exports that the head of an instance names.
fn exports_of<'a>(head: &UnitKind<'a>) -> Option<&'a [Name<'a>]> {
    match head {
        UnitKind::ModuleInstance { exports, .. } => *exports,
        _ => None,
    }
}

/// What the unit of an instance of this generic is, given its head's exports.
fn written_out<'a>(generic: &UnitKind<'a>, exports: Option<&'a [Name<'a>]>) -> UnitKind<'a> {
    match generic {
        UnitKind::GenericInterface { .. } => UnitKind::Interface,
        UnitKind::GenericModule { .. } => UnitKind::Module { exports },
        other => *other,
    }
}

/// The imports of an instance: each actual under the name of its formal, and then the generic's
/// own.
fn imports_of<'a>(
    arena: &'a Bump,
    actuals: &'a [Name<'a>],
    formals: &'a [Name<'a>],
    own: &'a [Import<'a>],
) -> Result<&'a [Import<'a>], NoMemory> {
    let mut items = Vec::new(arena);
    for (actual, formal) in actuals.iter().zip(formals) {
        items.push(ImportItem {
            interface: *actual,
            alias: Some(*formal),
        })?;
    }
    let mut imports = Vec::new(arena);
    if let Some(first) = actuals.first() {
        imports.push(Import::Interfaces {
            pos: first.pos,
            items: into_bump_slice(items),
        })?;
    }
    for import in own {
        imports.push(*import)?;
    }
    Ok(into_bump_slice(imports))
}
