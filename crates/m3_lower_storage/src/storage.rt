use crate::defaults::ZeroDefaults;
use crate::heads::Head;
use crate::statements::mark_statements;
use crate::uses::Uses;
use crate::variables::{GlobalPlace, Room, VarPlace, place_globals};
use m3_base::NoMemory;
use m3_core::{Core, CoreExpr, Value, VarDef, VarKind};
use m3_layout::{Shape, shape_of_value};
use m3_lower_objects::{
    Cells, Form, Objects, bounds, form_of, members, node_of, number_of, unveiled, words_of,
};
use m3_types::{Field, TypeId, TypeNode};
use m3_types_sizes::SizedTypes;
use std::alloc::Global;

/// Where a checked program keeps its things. It holds no statement and no expression, so what takes
/// it is cheap to prove.
#[derive(Drop)]
pub struct Storage<'a> {
    pub types: &'a SizedTypes<'a>,
    /// The constants that expressions and the defaults of types name.
    pub values: &'a [Value<'a>],
    /// The place of Thread.Alerted among the exceptions.
    pub alerted: u32,
    pub objects: Objects,
    pub cells: Cells,
    zeros: ZeroDefaults,
    globals: Vec<GlobalPlace>,
    /// The words of all global variables, with the four in front of them.
    pub global_words: u32,
    uses: Uses<'a>,
}

/// The procedures, what their bodies do to variables, and which constants and texts the program
/// names.
fn uses_of<'a>(alloc: Global, core: &Core<'a>) -> Result<Uses<'a>, NoMemory> {
    let mut uses = Uses::new(alloc, core.values.len(), core.texts.len())?;
    for proc in core.procs {
        uses.add_proc(&core.types, proc)?;
    }
    for (place, proc) in core.procs.iter().enumerate() {
        uses.read(number_of(place));
        mark_statements(&mut uses, proc.body);
    }
    note_initials(core.globals, &mut uses);
    note_defaults(&core.types, &mut uses);
    uses.note_parts(alloc, core.values)?;
    uses.place_all(&core.types)?;
    Ok(uses)
}

/// Notes the texts and the types of the constants that global variables get.
fn note_initials(globals: &[VarDef], uses: &mut Uses) {
    for global in globals {
        match global.initial {
            Some(CoreExpr::Constant { kind, value, .. }) => uses.note_constant(value.0, *kind),
            Some(CoreExpr::Text { text, .. }) => uses.note_text(*text),
            _ => {}
        }
    }
}

/// Notes the types of the constants that are defaults of fields.
fn note_defaults(types: &SizedTypes, uses: &mut Uses) {
    for node in &types.graph.nodes {
        if let TypeNode::Fields(fields) | TypeNode::Object(_, _, fields, _, _) = node {
            note_fields(fields, uses);
        }
    }
}

fn note_fields(fields: &[Field], uses: &mut Uses) {
    for field in fields {
        if let Some(default) = field.default {
            uses.note_constant(default.source, field.kind);
        }
    }
}

impl<'a> Storage<'a> {
    /// Where a program keeps its things.
    pub fn of(alloc: Global, core: &'a Core<'a>) -> Result<Storage<'a>, NoMemory> {
        let types = &core.types;
        let objects = Objects::of(alloc, types)?;
        let cells = Cells::of(alloc, types, &objects)?;
        let zeros = ZeroDefaults::of(alloc, types, core.values)?;
        let (globals, global_words) = place_globals(alloc, types, core.globals)?;
        let uses = uses_of(alloc, core)?;
        Ok(Storage {
            types,
            values: core.values,
            alerted: core.alerted,
            objects,
            cells,
            zeros,
            globals,
            global_words,
            uses,
        })
    }

    /// The type of a constant that code may copy; none where no code names it.
    pub fn constant_kind(&self, constant: u32) -> Option<TypeId> {
        self.uses.kind(constant)
    }

    /// Whether code names a text, or a constant that it is a part of.
    pub fn has_text(&self, text: u32) -> bool {
        self.uses.has_text(text)
    }

    /// A procedure or a module body without its statements.
    pub fn head(&self, proc: u32) -> Option<&Head<'a>> {
        self.uses.head(proc)
    }

    /// The level of a procedure.
    pub fn level(&self, proc: u32) -> u32 {
        match self.uses.head(proc) {
            Some(head) => head.level,
            None => 0,
        }
    }

    /// The slots and temporaries that the variables of a procedure take.
    pub fn room(&self, proc: u32) -> Room {
        match self.uses.head(proc) {
            Some(head) => head.room,
            None => Room::none(),
        }
    }

    /// The procedure at a level around a procedure, or that procedure itself.
    pub fn owner(&self, proc: u32, level: u32) -> u32 {
        self.uses.owner(proc, level)
    }

    /// What a variable of a procedure stands for, by its place in its formals and locals.
    pub fn kind_of_variable(&self, proc: u32, variable: u32) -> Option<VarKind> {
        match self.uses.variable(proc, variable) {
            Some(variable) => Some(variable.kind),
            None => None,
        }
    }

    /// Where a variable of a procedure is kept.
    pub fn place(&self, proc: u32, variable: u32) -> VarPlace {
        match self.uses.variable(proc, variable) {
            Some(variable) => variable.place,
            None => VarPlace::Slots(0),
        }
    }

    /// Whether the address of a variable is taken, or an inner procedure reaches it.
    pub fn is_shared(&self, proc: u32, variable: u32) -> bool {
        match self.uses.variable(proc, variable) {
            Some(variable) => variable.is_shared,
            None => true,
        }
    }

    /// The place of a variable among the shown variables of its procedure, if it is one of these.
    pub fn shown(&self, proc: u32, variable: u32) -> Option<u32> {
        match self.uses.variable(proc, variable) {
            Some(variable) => variable.shown,
            None => None,
        }
    }

    /// The global variables, by their places in the program's list.
    pub fn globals(&self) -> &[GlobalPlace] {
        self.globals.as_slice()
    }

    /// The first word of a global variable, counted from the start of the globals.
    pub fn global(&self, variable: u32) -> u32 {
        match self.globals.get(variable as usize) {
            Some(global) => global.word,
            None => 0,
        }
    }

    pub fn node(&self, t: TypeId) -> TypeNode<'a> {
        node_of(self.types, t)
    }

    pub fn form(&self, t: TypeId) -> Form {
        form_of(self.types, t)
    }

    /// The words of a value, and 0 for an open array.
    pub fn words(&self, t: TypeId) -> u64 {
        words_of(self.types, t)
    }

    /// The first and the last value of an ordinal type.
    pub fn bounds(&self, t: TypeId) -> (i64, i64) {
        bounds(self.types, t)
    }

    /// The number of members of an ordinal type, at most 2^64 - 1.
    pub fn members(&self, t: TypeId) -> u64 {
        members(self.types, t)
    }

    /// Whether the default of a type is 0 in all its words.
    pub fn is_zero_default(&self, t: TypeId) -> bool {
        self.zeros.is_zero(t)
    }

    pub fn unveiled(&self, t: TypeId) -> TypeId {
        unveiled(self.types, t)
    }

    /// The words of a value that are pointers, and how many words it has.
    pub fn shape(&self, alloc: Global, t: TypeId) -> Result<Shape, NoMemory> {
        if self.types.has_size(t) {
            shape_of_value(alloc, self.types, t)
        } else {
            Ok(Shape {
                words: 0,
                dims: 0,
                pointers: Vec::new(alloc),
            })
        }
    }
}
