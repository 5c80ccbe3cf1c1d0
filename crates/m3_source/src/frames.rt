use crate::counts::Counts;
use crate::expressions::kind_of;
use crate::shapes::KnownShape;
use crate::statements::count_statements;
use m3_core::{Actual, Core, CoreExpr, ProcDef, Value, VarDef, VarKind};
use m3_types::{TypeId, TypeNode};
use m3_types_sizes::SizedTypes;

/// The sizes of a procedure that count towards its frame and its image.
#[derive(Clone, Copy, PartialEq, Eq)]
pub struct Sizes {
    pub frame: u64,
    pub points: u64,
    pub constants: u128,
    pub made: u128,
}

/// The dimensions of an open array type, and 0 for any other type.
pub fn open_dims(types: &SizedTypes, t: TypeId) -> u64 {
    let mut dims = 0u64;
    let mut at = t;
    for _ in 0..types.graph.nodes.len() {
        match types.graph.nodes.get(at.0 as usize) {
            Some(TypeNode::OpenArray(element)) => {
                dims = dims.saturating_add(1);
                at = *element;
            }
            _ => break,
        }
    }
    dims
}

fn words(types: &SizedTypes, t: TypeId) -> u64 {
    if types.has_size(t) {
        types.words_of(t)
    } else {
        0
    }
}

/// The words of a value, of which an open array has 1: the cell of its copy.
pub fn value_words(types: &SizedTypes, t: TypeId) -> u64 {
    if open_dims(types, t) > 0 {
        1
    } else {
        words(types, t)
    }
}

/// The words of a constructor or constant, of which constants fix the shape.
pub fn known_words(types: &SizedTypes, values: &[Value], e: &CoreExpr) -> u64 {
    let Some(kind) = kind_of(e) else {
        return 0;
    };
    let shape = KnownShape::of(e);
    let count = shape.elements(&types.graph, values, open_dims(types, kind));
    count.saturating_mul(words(types, innermost(types, kind)))
}

/// The type of the elements below the open dimensions of a type.
fn innermost(types: &SizedTypes, t: TypeId) -> TypeId {
    let mut at = t;
    for _ in 0..types.graph.nodes.len() {
        match types.graph.nodes.get(at.0 as usize) {
            Some(TypeNode::OpenArray(element)) => at = *element,
            _ => break,
        }
    }
    at
}

/// What the sizes of an open array add to an alias, a formal or an actual.
fn open_words(types: &SizedTypes, t: TypeId) -> u64 {
    match open_dims(types, t) {
        0 => 0,
        dims => dims.saturating_add(1),
    }
}

fn words_of_variable(types: &SizedTypes, variable: &VarDef) -> u64 {
    match variable.kind {
        VarKind::Variable(t) | VarKind::ByValue(t) => {
            value_words(types, t).saturating_add(open_words(types, t))
        }
        VarKind::ByVar(t) | VarKind::ByReadonly(t) | VarKind::Alias(t) => {
            open_words(types, t).saturating_add(2)
        }
    }
}

/// The words of an actual: those of its value, or 2 of a place.
pub fn words_of_actual(types: &SizedTypes, actual: &Actual) -> u64 {
    match actual {
        Actual::Value { kind, .. } => {
            value_words(types, *kind).saturating_add(open_words(types, *kind))
        }
        Actual::Place { kind, .. } => open_words(types, *kind).saturating_add(2),
    }
}

/// The words of a row of variables.
fn words_of_row(types: &SizedTypes, row: &[VarDef]) -> u64 {
    let mut words = 0u64;
    for variable in row {
        words = words.saturating_add(words_of_variable(types, variable));
    }
    words
}

/// The sizes of a procedure, by the parts of each type.
pub fn sizes_of(core: &Core, parts: &[u64], proc: &ProcDef) -> Sizes {
    let mut counts = Counts::new(&core.types, core.values, parts);
    count_statements(&mut counts, proc.body);
    let formals = words_of_row(&core.types, proc.formals);
    let locals = words_of_row(&core.types, proc.locals);
    let variables = formals.saturating_add(locals);
    let values = counts.nodes.saturating_mul(4).saturating_add(counts.words);
    Sizes {
        frame: variables.saturating_add(values).saturating_add(32),
        points: counts.points,
        constants: counts.constants,
        made: counts.made,
    }
}

/// The words that a frame of a procedure may have: 32, those of its variables, 4 for each node of
/// its checked tree, and twice those of each value that a call, a constructor, an actual or a
/// binding of NEW handles.
pub fn frame_words(core: &Core, proc: u32) -> u64 {
    match core.procs.get(proc as usize) {
        Some(proc) => sizes_of(core, &[], proc).frame,
        None => 0,
    }
}
