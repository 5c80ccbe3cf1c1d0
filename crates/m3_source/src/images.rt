use crate::frames::{open_dims, sizes_of};
use crate::parts::{Measures, number_of};
use m3_base::NoMemory;
use m3_core::{Core, ProcDef, Text, VarDef, VarKind};
use m3_types::{TypeId, TypeNode};
use std::alloc::Global;

/// The size of a program, by which its image is bounded: for each procedure its frame's words once
/// and once more for each point, the words of its constants, and the parts of the cells that it
/// makes; for each type of cells its pointers and methods; and the bytes of texts and names.
pub fn image_size(alloc: Global, core: &Core) -> Result<u128, NoMemory> {
    let measures = Measures::of(alloc, &core.types)?;
    let parts = measures.cell_parts(alloc, &core.types)?;
    let mut size = names(core).saturating_add(cells_size(core, &measures));
    for proc in core.procs {
        size = size.saturating_add(proc_size(core, &measures, parts.as_slice(), proc));
    }
    Ok(size)
}

/// The pointers and methods of all types of cells.
fn cells_size(core: &Core, measures: &Measures) -> u128 {
    let mut size = 0u128;
    for (place, node) in core.types.graph.nodes.iter().enumerate() {
        let cell = cell_size(measures, TypeId(number_of(place)), *node);
        size = size.saturating_add(cell);
    }
    size
}

fn cell_size(measures: &Measures, kind: TypeId, node: TypeNode) -> u128 {
    match node {
        TypeNode::RefTo(_, target) => u128::from(measures.value(target).pointers),
        TypeNode::Object(_, _, _, _, _) => {
            let line = measures.line(kind);
            u128::from(line.pointers).saturating_add(u128::from(line.methods))
        }
        _ => 0,
    }
}

fn proc_size(core: &Core, measures: &Measures, parts: &[u64], proc: &ProcDef) -> u128 {
    let sizes = sizes_of(core, parts, proc);
    let frames = u128::from(sizes.frame).saturating_mul(u128::from(sizes.points) + 1);
    let mut size = frames
        .saturating_add(sizes.constants)
        .saturating_add(sizes.made)
        .saturating_add(names_of(proc.formals))
        .saturating_add(names_of(proc.locals));
    for formal in proc.formals {
        size = size.saturating_add(copied(core, measures, formal));
    }
    size
}

/// The pointers of an element of an open array that is copied for a VALUE formal.
fn copied(core: &Core, measures: &Measures, formal: &VarDef) -> u128 {
    match formal.kind {
        VarKind::ByValue(t) if open_dims(&core.types, t) > 0 => {
            u128::from(measures.value(t).pointers)
        }
        _ => 0,
    }
}

/// The bytes of the names of variables and of their units.
fn names_of(row: &[VarDef]) -> u128 {
    let mut size = 0u128;
    for variable in row {
        size = size
            .saturating_add(variable.name.len() as u128)
            .saturating_add(variable.unit.len() as u128);
    }
    size
}

/// The bytes of the text literals, used or not. Texts that `&` makes of them count nothing.
fn literals(row: &[Text]) -> u128 {
    let mut size = 0u128;
    for text in row {
        if let Text::Literal(bytes) = text {
            size = size.saturating_add(bytes.len() as u128);
        }
    }
    size
}

fn bytes_of(row: &[&[u8]]) -> u128 {
    let mut size = 0u128;
    for text in row {
        size = size.saturating_add(text.len() as u128);
    }
    size
}

/// The bytes of text literals, files, exceptions and global variables.
fn names(core: &Core) -> u128 {
    let mut size = literals(core.texts)
        .saturating_add(bytes_of(core.files))
        .saturating_add(names_of(core.globals));
    for exception in core.exceptions {
        size = size
            .saturating_add(exception.name.len() as u128)
            .saturating_add(exception.unit.len() as u128);
    }
    size
}
