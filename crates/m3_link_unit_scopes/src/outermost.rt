use crate::bodies::join_body;
use m3_base::{NoMemory, Refusal, place_number, rules};
use m3_link_expression_names::declare_all;
use m3_link_scopes::{EntityId, EntityKind, Linker, UnitInfo};
use m3_link_statement_names::{walk_declarations, walk_statements};
use m3_syntax::{Import, ImportItem, Name, Unit, UnitKind};
use std::alloc::Global;
use std::collections::HashSet;

const BUILT_IN: [&[u8]; 5] = [b"Main", b"IO", b"Text", b"Word", b"Thread"];

fn is_interface(kind: UnitKind<'_>) -> bool {
    matches!(
        kind,
        UnitKind::Interface | UnitKind::InterfaceInstance { .. } | UnitKind::GenericInterface { .. }
    )
}

fn is_generic(kind: UnitKind<'_>) -> bool {
    matches!(
        kind,
        UnitKind::GenericInterface { .. } | UnitKind::GenericModule { .. }
    )
}

/// Refuses the later of two units of one kind with one name, and each with the name of a built-in
/// interface but a module Main (rule 21).
pub fn judge_units<'a>(
    linker: &mut Linker<'a>,
    alloc: Global,
    given: &[Unit<'a>],
) -> Result<(), NoMemory> {
    let mut seen = HashSet::new(alloc);
    for unit in given {
        let key = (
            is_interface(unit.kind),
            is_generic(unit.kind),
            unit.name.text,
        );
        let is_main = unit.name.text == b"Main".as_slice() && !key.0 && !key.1;
        let is_taken = BUILT_IN.iter().any(|name| *name == unit.name.text) && !is_main;
        let is_new = seen.insert(key)?;
        if is_taken || !is_new {
            linker.least.note(Refusal {
                phase: 4,
                unit: unit.pos.file,
                pos: unit.name.pos,
                rule: rules::DUPLICATE_UNIT,
            });
        }
    }
    Ok(())
}

/// Says of each unit what it is. Those from `given` on are built in.
pub fn add_infos<'a>(
    linker: &mut Linker<'a>,
    alloc: Global,
    units: &[Unit<'a>],
    given: usize,
) -> Result<(), NoMemory> {
    for (place, unit) in units.iter().enumerate() {
        add_info(linker, alloc, unit, place, place >= given)?;
    }
    Ok(())
}

fn add_info<'a>(
    linker: &mut Linker<'a>,
    alloc: Global,
    unit: &Unit<'a>,
    place: usize,
    is_built_in: bool,
) -> Result<(), NoMemory> {
    let number = place_number(place)?;
    linker.infos.push(UnitInfo {
        name: unit.name,
        number: unit.pos.file,
        is_interface: is_interface(unit.kind),
        is_built_in,
        imports: Vec::new(alloc),
        exports: Vec::new(alloc),
        own: (0, 0),
    })?;
    let is_known = linker.interfaces.contains_key(&unit.name.text);
    if is_interface(unit.kind) && (is_built_in || !is_known) {
        linker.interfaces.insert(unit.name.text, number)?;
    }
    Ok(())
}

/// Makes an entity of each outermost declaration of each unit.
pub fn declare_units<'a>(linker: &mut Linker<'a>, units: &[Unit<'a>]) -> Result<(), NoMemory> {
    for (place, unit) in units.iter().enumerate() {
        declare_unit(linker, unit, place)?;
    }
    Ok(())
}

fn declare_unit<'a>(
    linker: &mut Linker<'a>,
    unit: &Unit<'a>,
    place: usize,
) -> Result<(), NoMemory> {
    linker.unit = place_number(place)?;
    let first = linker.binds.entities().len();
    linker.scopes.enter()?;
    declare_all(linker, unit.declarations(), true)?;
    linker.scopes.leave();
    let count = linker.binds.entities().len().saturating_sub(first);
    let first = place_number(first)?;
    let count = place_number(count)?;
    if let Some(info) = linker.infos.get_mut(place) {
        info.own = (first, count);
    }
    Ok(())
}

/// Reads each unit in its own scope: what it imports, declares and exports, and then all its names.
pub fn walk_units<'a>(linker: &mut Linker<'a>, units: &[Unit<'a>]) -> Result<(), NoMemory> {
    for (place, unit) in units.iter().enumerate() {
        walk_unit(linker, unit, place)?;
    }
    Ok(())
}

fn walk_unit<'a>(linker: &mut Linker<'a>, unit: &Unit<'a>, place: usize) -> Result<(), NoMemory> {
    linker.unit = place_number(place)?;
    linker.procedure = None;
    if unit.is_unsafe {
        linker.note(unit.pos, rules::UNSAFE_OR_LEFT_OUT);
    }
    linker.scopes.enter()?;
    for import in unit.imports {
        read_import(linker, import)?;
    }
    show_own(linker)?;
    if let UnitKind::Module { exports } = unit.kind {
        read_exports(linker, unit.name, exports)?;
    }
    walk_declarations(linker, unit.declarations(), true)?;
    walk_statements(linker, unit.statements())?;
    linker.scopes.leave();
    Ok(())
}

fn add_once(list: &mut Vec<u32>, unit: u32) -> Result<(), NoMemory> {
    if !list.contains(&unit) {
        list.push(unit)?;
    }
    Ok(())
}

/// The interface of this name, which the unit imports; unknown ones are refused (rule 20).
fn imported<'a>(linker: &mut Linker<'a>, name: Name<'a>) -> Result<Option<u32>, NoMemory> {
    let found = linker.interfaces.get(&name.text).copied();
    match found {
        None => linker.note(name.pos, rules::UNKNOWN_UNIT),
        Some(target) => {
            if let Some(info) = linker.infos.get_mut(linker.unit as usize) {
                add_once(&mut info.imports, target)?;
            }
        }
    }
    Ok(found)
}

fn read_import<'a>(linker: &mut Linker<'a>, import: &Import<'a>) -> Result<(), NoMemory> {
    match import {
        Import::Interfaces { items, .. } => {
            for item in *items {
                import_interface(linker, item)?;
            }
            Ok(())
        }
        Import::Names {
            interface,
            names,
            ..
        } => {
            let target = imported(linker, *interface)?;
            for name in *names {
                import_name(linker, target, *name)?;
            }
            Ok(())
        }
    }
}

fn import_interface<'a>(linker: &mut Linker<'a>, item: &ImportItem<'a>) -> Result<(), NoMemory> {
    let kind = match imported(linker, item.interface)? {
        Some(unit) => EntityKind::Import(unit),
        None => EntityKind::Unknown,
    };
    let name = item.alias.unwrap_or(item.interface);
    let entity = linker.entity(name, kind);
    linker.declare(name, entity)
}

/// A name of an interface that FROM imports: one that the interface itself declares (rule 23).
fn import_name<'a>(
    linker: &mut Linker<'a>,
    target: Option<u32>,
    name: Name<'a>,
) -> Result<(), NoMemory> {
    let found = match target {
        Some(unit) => linker.own.get(&(unit, name.text)).copied(),
        None => None,
    };
    match found {
        Some(id) => {
            linker.binds.bind(linker.unit, name.pos, id)?;
            linker.make_visible(name, id)
        }
        None => {
            if target.is_some() {
                linker.note(name.pos, rules::UNKNOWN_NAME);
            }
            let entity = linker.entity(name, EntityKind::Unknown);
            linker.declare(name, entity)
        }
    }
}

/// The outermost declarations of a unit, by their numbers.
fn own_of(linker: &Linker<'_>, unit: u32) -> (u32, u32) {
    match linker.infos.get(unit as usize) {
        Some(info) => info.own,
        None => (0, 0),
    }
}

/// Makes the unit's own declarations visible.
fn show_own(linker: &mut Linker<'_>) -> Result<(), NoMemory> {
    let (first, count) = own_of(linker, linker.unit);
    for place in 0..count {
        let id = EntityId(first.saturating_add(place));
        if let Some(entity) = linker.entity_of(id) {
            let name = Name {
                text: entity.name,
                pos: entity.pos,
            };
            linker.make_visible(name, id)?;
        }
    }
    Ok(())
}

/// The interfaces that a module exports: its own name's where none is written (rule 20).
fn read_exports<'a>(
    linker: &mut Linker<'a>,
    own: Name<'a>,
    exports: Option<&'a [Name<'a>]>,
) -> Result<(), NoMemory> {
    match exports {
        None => read_export(linker, own),
        Some(names) => {
            for name in names {
                read_export(linker, *name)?;
            }
            Ok(())
        }
    }
}

fn read_export<'a>(linker: &mut Linker<'a>, name: Name<'a>) -> Result<(), NoMemory> {
    let target = match linker.interfaces.get(&name.text).copied() {
        Some(target) if is_exportable(linker, target, name.text) => target,
        _ => {
            linker.note(name.pos, rules::UNKNOWN_UNIT);
            return Ok(());
        }
    };
    let is_second = match linker.infos.get_mut(linker.unit as usize) {
        Some(info) => {
            let is_second = info.exports.contains(&target);
            add_once(&mut info.exports, target)?;
            is_second
        }
        None => true,
    };
    if is_second {
        return Ok(());
    }
    let (first, count) = own_of(linker, target);
    for place in 0..count {
        show_exported(linker, target, EntityId(first.saturating_add(place)), name)?;
    }
    Ok(())
}

/// Given interfaces and Main can be exported.
fn is_exportable(linker: &Linker<'_>, unit: u32, name: &[u8]) -> bool {
    match linker.infos.get(unit as usize) {
        Some(info) => !info.is_built_in || name == b"Main".as_slice(),
        None => false,
    }
}

/// Makes a declaration of an exported interface visible in the module, or joins it with the
/// module's procedure of that name; any other name that is there already is refused (rule 24).
fn show_exported<'a>(
    linker: &mut Linker<'a>,
    interface: u32,
    id: EntityId,
    exported: Name<'a>,
) -> Result<(), NoMemory> {
    let Some(head) = linker.entity_of(id) else {
        return Ok(());
    };
    if linker.own.get(&(interface, head.name)).copied() != Some(id) {
        return Ok(());
    }
    let Some(here) = linker.scopes.look_up_here(head.name) else {
        return linker.scopes.declare(head.name, id, None);
    };
    let Some(mine) = linker.entity_of(here.entity) else {
        return Ok(());
    };
    let is_own = mine.unit == linker.unit && mine.kind == EntityKind::Procedure;
    match here.pos {
        None => linker.note(exported.pos, rules::DUPLICATE_NAME),
        Some(_) if is_own && head.kind == EntityKind::Procedure => {
            join_body(linker, id, here.entity, &mine);
        }
        Some(pos) => linker.note(pos, rules::DUPLICATE_NAME),
    }
    Ok(())
}
