use crate::heads::{Head, Variable};
use crate::variables::{Room, VarPlace, is_shown, place_formal, place_local, place_result};
use m3_base::{NoMemory, place_number};
use m3_core::{ProcDef, Value, ValueId, VarDef};
use m3_types::TypeId;
use m3_types_sizes::SizedTypes;
use std::alloc::Global;

/// The procedures of a program with their variables, and what uses these: which have their address
/// taken or are reached by inner procedures, and which formals are written; and which constants and
/// texts are named.
#[derive(Drop)]
pub struct Uses<'a> {
    heads: Vec<Head<'a>>,
    /// The variables of all procedures, one procedure behind the other, the formals first.
    variables: Vec<Variable>,
    /// For each constant the type under which something names it.
    kinds: Vec<Option<TypeId>>,
    /// For each text whether something names it, or a constant that it is a part of.
    texts: Vec<bool>,
    /// The procedure that is read.
    proc: u32,
}

impl<'a> Uses<'a> {
    /// No procedures yet, and so many constants and texts.
    pub fn new(alloc: Global, constants: usize, texts: usize) -> Result<Uses<'a>, NoMemory> {
        Ok(Uses {
            heads: Vec::new(alloc),
            variables: Vec::new(alloc),
            kinds: vec![in alloc; None; constants]?,
            texts: vec![in alloc; false; texts]?,
            proc: 0,
        })
    }

    /// Adds a procedure whose variables nothing uses yet and that have no places.
    pub fn add_proc(&mut self, types: &SizedTypes, proc: &ProcDef<'a>) -> Result<(), NoMemory> {
        let head = Head {
            level: proc.level,
            outer: proc.outer,
            result: proc.result,
            raises: proc.raises,
            pos: proc.pos,
            end: proc.end,
            formals: place_number(proc.formals.len())?,
            variables: place_number(proc.formals.len().saturating_add(proc.locals.len()))?,
            first: place_number(self.variables.len())?,
            room: Room::none(),
        };
        self.heads.push(head)?;
        let shown = self.add_variables(types, proc.formals, 0)?;
        self.add_variables(types, proc.locals, shown)?;
        Ok(())
    }

    /// Adds variables of a procedure in which so many are shown before them, and tells how many are
    /// shown with them.
    fn add_variables(
        &mut self,
        types: &SizedTypes,
        row: &[VarDef],
        before: u32,
    ) -> Result<u32, NoMemory> {
        let mut next = before;
        for variable in row {
            let is_shown = is_shown(types, variable.kind, variable.role);
            self.variables.push(Variable {
                kind: variable.kind,
                place: VarPlace::Slots(0),
                shown: if is_shown { Some(next) } else { None },
                is_shared: false,
                is_written: false,
            })?;
            if is_shown {
                next = next.saturating_add(1);
            }
        }
        Ok(next)
    }

    /// From now on the body of this procedure is read.
    pub fn read(&mut self, proc: u32) {
        self.proc = proc;
    }

    /// Gives the variables of all procedures their places, by what uses them.
    pub fn place_all(&mut self, types: &SizedTypes) -> Result<(), NoMemory> {
        for at in 0..self.heads.len() {
            if let Some(head) = self.heads.get(at).copied() {
                let room = self.place_variables(types, head)?;
                if let Some(head) = self.heads.get_mut(at) {
                    head.room = room;
                }
            }
        }
        Ok(())
    }

    /// Gives each variable of a procedure its place, and tells the room that they take. The words
    /// of the formals come first, in order, also where the formal itself is then kept in
    /// temporaries.
    fn place_variables(&mut self, types: &SizedTypes, head: Head) -> Result<Room, NoMemory> {
        let mut room = Room::none();
        let start = head.first as usize;
        let locals = start.saturating_add(head.formals as usize);
        for at in start..locals {
            if let Some(variable) = self.variables.get_mut(at) {
                place_formal(types, variable, &mut room)?;
            }
        }
        place_result(types, head.result, &mut room)?;
        for at in locals..start.saturating_add(head.variables as usize) {
            if let Some(variable) = self.variables.get_mut(at) {
                place_local(types, variable, &mut room)?;
            }
        }
        Ok(room)
    }

    /// The head of a procedure.
    pub fn head(&self, proc: u32) -> Option<&Head<'a>> {
        self.heads.get(proc as usize)
    }

    /// The procedure at a level around another, or that other itself.
    pub fn owner(&self, proc: u32, level: u32) -> u32 {
        let mut at = proc;
        for _ in 0..self.heads.len() {
            match self.heads.get(at as usize) {
                Some(head) if head.level > level => match head.outer {
                    Some(outer) => at = outer,
                    None => break,
                },
                _ => break,
            }
        }
        at
    }

    /// The place of a variable of a procedure in the list of all.
    fn index(&self, proc: u32, variable: u32) -> usize {
        match self.heads.get(proc as usize) {
            Some(head) => (head.first as usize).saturating_add(variable as usize),
            None => usize::MAX,
        }
    }

    /// A variable of a procedure, by its place in its formals and locals.
    pub fn variable(&self, proc: u32, variable: u32) -> Option<&Variable> {
        self.variables.get(self.index(proc, variable))
    }

    /// The type under which a constant is named; none where nothing names it.
    pub fn kind(&self, constant: u32) -> Option<TypeId> {
        match self.kinds.get(constant as usize) {
            Some(kind) => *kind,
            None => None,
        }
    }

    /// A constant is named under a type.
    pub fn note_constant(&mut self, constant: u32, kind: TypeId) {
        if let Some(item) = self.kinds.get_mut(constant as usize) {
            *item = Some(kind);
        }
    }

    /// Whether a text is named.
    pub fn has_text(&self, text: u32) -> bool {
        self.texts.get(text as usize).copied().unwrap_or(false)
    }

    /// A text is named.
    pub fn note_text(&mut self, text: u32) {
        if let Some(item) = self.texts.get_mut(text as usize) {
            *item = true;
        }
    }

    /// Notes the texts in the constants that are named, of which each is made of those before it.
    pub fn note_parts(&mut self, alloc: Global, values: &[Value]) -> Result<(), NoMemory> {
        let mut named = vec![in alloc; false; values.len()]?;
        for place in (0..values.len()).rev() {
            let is_part = named.get(place).copied().unwrap_or(false);
            if is_part || matches!(self.kinds.get(place), Some(Some(_))) {
                match values.get(place) {
                    Some(Value::Text(text)) => self.note_text(*text),
                    Some(Value::Record(parts)) | Some(Value::Array(parts, _)) => {
                        name_all(&mut named, parts);
                    }
                    _ => {}
                }
            }
        }
        Ok(())
    }

    fn level(&self) -> u32 {
        match self.heads.get(self.proc as usize) {
            Some(head) => head.level,
            None => 0,
        }
    }

    fn mark(&mut self, level: u32, variable: u32, is_written: bool) {
        let owner = self.owner(self.proc, level);
        let at = self.index(owner, variable);
        if let Some(variable) = self.variables.get_mut(at) {
            variable.is_shared |= !is_written;
            variable.is_written = true;
        }
    }

    /// A variable is written.
    pub fn note_written(&mut self, level: u32, variable: u32) {
        self.mark(level, variable, true);
    }

    /// The address of a variable is taken.
    pub fn note_taken(&mut self, level: u32, variable: u32) {
        self.mark(level, variable, false);
    }

    /// A variable is named; from inside an inner procedure its address is needed.
    pub fn note_named(&mut self, level: u32, variable: u32) {
        if level != self.level() {
            self.mark(level, variable, false);
        }
    }
}

/// Notes that constants are parts of one that is named.
fn name_all(named: &mut [bool], parts: &[ValueId]) {
    for part in parts {
        if let Some(item) = named.get_mut(part.0 as usize) {
            *item = true;
        }
    }
}
