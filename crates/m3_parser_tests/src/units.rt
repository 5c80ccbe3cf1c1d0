use crate::declarations::show_declarations;
use crate::sheets::Sheet;
use crate::statements::show_block;
use m3_syntax::{Import, ImportItem, Name, Unit, UnitKind};
use std::alloc::{AllocError, Global};

/// A unit as a text: `=`, and each node as a list in parentheses, in the order of its fields. With
/// places, each node and each token that the tree keeps the place of is followed by `@line:column`.
pub fn text_of_tree(alloc: Global, unit: &Unit, has_places: bool) -> Result<Vec<u8>, AllocError> {
    let mut sheet = Sheet::new(alloc, has_places);
    sheet.word(b"=");
    sheet.open(head_of_unit(unit), unit.pos);
    sheet.name(&unit.name);
    show_kind(&unit.kind, &mut sheet);
    show_imports(unit.imports, &mut sheet);
    show_own(unit, &mut sheet);
    sheet.word(b"END");
    sheet.name(&unit.closing);
    sheet.close();
    sheet.finish()
}

fn head_of_unit(unit: &Unit) -> &'static [u8] {
    match (&unit.kind, unit.is_unsafe) {
        (UnitKind::Interface | UnitKind::InterfaceInstance { .. }, false) => b"INTERFACE",
        (UnitKind::Interface | UnitKind::InterfaceInstance { .. }, true) => { b"UNSAFE-INTERFACE" }
        (UnitKind::Module { .. } | UnitKind::ModuleInstance { .. }, false) => b"MODULE",
        (UnitKind::Module { .. } | UnitKind::ModuleInstance { .. }, true) => b"UNSAFE-MODULE",
        (UnitKind::GenericInterface { .. }, false) => b"GENERIC-INTERFACE",
        (UnitKind::GenericModule { .. }, false) => b"GENERIC-MODULE",
        (_, true) => b"UNSAFE-GENERIC",
    }
}

fn show_kind(kind: &UnitKind, sheet: &mut Sheet) {
    match kind {
        UnitKind::Interface => {}
        UnitKind::InterfaceInstance { generic, actuals } => {
            show_instance(generic, actuals, sheet);
        }
        UnitKind::Module { exports } => show_exports(exports, sheet),
        UnitKind::ModuleInstance {
            exports,
            generic,
            actuals,
        } => {
            show_exports(exports, sheet);
            show_instance(generic, actuals, sheet);
        }
        UnitKind::GenericInterface { formals } | UnitKind::GenericModule { formals } => {
            show_names(b"formals", formals, sheet);
        }
    }
}

/// What a unit declares, and the block of a module.
fn show_own(unit: &Unit, sheet: &mut Sheet) {
    match unit.kind {
        UnitKind::Module { .. } | UnitKind::GenericModule { .. } => show_block(unit.block, sheet),
        _ => show_declarations(unit.declarations(), sheet),
    }
}

/// Names in a list, behind a word.
fn show_names(word: &[u8], names: &[Name], sheet: &mut Sheet) {
    sheet.begin(word);
    sheet.names(names);
    sheet.close();
}

fn show_exports(exports: &Option<&[Name]>, sheet: &mut Sheet) {
    if let Some(names) = exports {
        show_names(b"EXPORTS", names, sheet);
    }
}

fn show_instance(generic: &Name, actuals: &[Name], sheet: &mut Sheet) {
    sheet.word(b"=");
    sheet.name(generic);
    show_names(b"actuals", actuals, sheet);
}

fn show_imports(imports: &[Import], sheet: &mut Sheet) {
    for import in imports {
        match import {
            Import::Interfaces { pos, items } => {
                sheet.open(b"IMPORT", *pos);
                show_items(items, sheet);
            }
            Import::Names {
                pos,
                interface,
                names,
            } => {
                sheet.open(b"FROM", *pos);
                sheet.name(interface);
                sheet.word(b"IMPORT");
                sheet.names(names);
            }
        }
        sheet.close();
    }
}

fn show_items(items: &[ImportItem], sheet: &mut Sheet) {
    for item in items {
        match &item.alias {
            None => sheet.name(&item.interface),
            Some(alias) => {
                sheet.begin(b"");
                sheet.name(&item.interface);
                sheet.word(b"AS");
                sheet.name(alias);
                sheet.close();
            }
        }
    }
}
