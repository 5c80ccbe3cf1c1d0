use crate::objects::{is_below, is_mutex, is_object, unveiled};
use crate::program::Program;
use crate::types::node_of;
use m3_base::NoMemory;
use m3_source_values::{Name, Place, Thing, Value, value_in, value_with};
use m3_types::{Secret, TypeId, TypeNode};
use std::alloc::Global;

/// A cell of the store.
#[derive(Clone, Copy)]
pub enum Cell<'m> {
    /// Of a REF type its referent, of an object type the record of all its fields. A mutex has the
    /// number of the thread that holds it and 1, or 0.
    Made {
        kind: TypeId,
        content: Value<'m>,
        holder: u64,
    },
    /// A text that was made.
    Bytes(&'m [u8]),
    /// A thread that was forked: its number, its result from its end on, and whether it was joined.
    Forked {
        number: u64,
        result: Option<Value<'m>>,
        is_joined: bool,
    },
}

/// What the cell of a thread tells of it.
#[derive(Clone, Copy)]
pub enum Life<'m> {
    Alive,
    Ended(Value<'m>),
    Joined,
}

/// An activation: its procedure with the level of that one, and its number.
#[derive(Clone, Copy)]
pub struct Here {
    pub procedure: u32,
    pub level: u32,
    pub activation: usize,
}

/// An activation as the store keeps it: the activation around it, which of its variables others
/// can reach, and where its variables begin.
#[derive(Clone, Copy)]
struct Kept<'m> {
    around: Option<usize>,
    shared: &'m [bool],
    first: usize,
}

/// What all threads share. Cells and activations are only added, and a cell keeps its type.
#[derive(Drop)]
pub struct Store<'m> {
    cells: Vec<Cell<'m>>,
    globals: Vec<Value<'m>>,
    activations: Vec<Kept<'m>>,
    variables: Vec<Option<Thing<'m>>>,
}

impl<'m> Store<'m> {
    /// A store whose variables of modules and interfaces have these values.
    pub fn new(alloc: Global, globals: Vec<Value<'m>>) -> Store<'m> {
        Store {
            cells: Vec::new(alloc),
            globals,
            activations: Vec::new(alloc),
            variables: Vec::new(alloc),
        }
    }

    // ---- activations

    /// A new activation with its variables at its start; its number.
    pub fn enter(
        &mut self,
        around: Option<usize>,
        shared: &'m [bool],
        things: &[Option<Thing<'m>>],
    ) -> Result<usize, NoMemory> {
        let number = self.activations.len();
        let first = self.variables.len();
        self.variables.extend_from_slice(things)?;
        self.activations.push(Kept {
            around,
            shared,
            first,
        })?;
        Ok(number)
    }

    /// The activation around another one.
    pub fn around(&self, activation: usize) -> Option<usize> {
        self.activations.get(activation)?.around
    }

    /// Whether others can reach a variable of an activation.
    pub fn is_shared(&self, activation: usize, variable: u32) -> bool {
        match self.activations.get(activation) {
            Some(kept) => kept.shared.get(variable as usize).copied().unwrap_or(false),
            None => false,
        }
    }

    /// Where a variable of an activation is kept, if it is shared or not as is asked.
    fn variable_at(&self, activation: usize, variable: u32, is_shared: bool) -> Option<usize> {
        let kept = self.activations.get(activation)?;
        if *kept.shared.get(variable as usize)? != is_shared {
            return None;
        }
        kept.first.checked_add(variable as usize)
    }

    fn variable(&self, activation: usize, variable: u32, is_shared: bool) -> Option<Thing<'m>> {
        let at = self.variable_at(activation, variable, is_shared)?;
        match self.variables.get(at) {
            Some(thing) => *thing,
            None => None,
        }
    }

    /// What a shared variable of an activation holds or stands for.
    pub fn shared_thing(&self, activation: usize, variable: u32) -> Option<Thing<'m>> {
        self.variable(activation, variable, true)
    }

    /// What a variable of the activation that speaks holds or stands for, which others don't reach.
    pub fn own_thing(&self, here: Here, variable: u32) -> Option<Thing<'m>> {
        self.variable(here.activation, variable, false)
    }

    /// A variable of an activation holds a value or stands for a place from now on. Whether it is
    /// there.
    pub fn bind(&mut self, activation: usize, variable: u32, thing: Thing<'m>) -> bool {
        let is_shared = self.is_shared(activation, variable);
        let Some(at) = self.variable_at(activation, variable, is_shared) else {
            return false;
        };
        match self.variables.get_mut(at) {
            Some(kept) => {
                *kept = Some(thing);
                true
            }
            None => false,
        }
    }

    // ---- reading and writing

    /// What a variable holds.
    fn held_by(&self, here: Here, name: Name<'m>) -> Option<Value<'m>> {
        match name {
            Name::Referent(cell) => match self.cells.get(cell)? {
                Cell::Made { content, .. } => Some(*content),
                _ => None,
            },
            Name::Global(variable) => self.globals.get(variable as usize).copied(),
            Name::Local {
                activation,
                variable,
            } => value_of(self.shared_thing(activation, variable)?),
            Name::Own(variable) => value_of(self.own_thing(here, variable)?),
            Name::Fresh(value) => Some(value),
        }
    }

    /// A variable holds another value from now on. Whether it is there.
    fn hold(&mut self, here: Here, name: Name<'m>, value: Value<'m>) -> bool {
        match name {
            Name::Referent(cell) => match self.cells.get(cell).copied() {
                Some(Cell::Made { kind, holder, .. }) => self.set_cell(
                    cell,
                    Cell::Made {
                        kind,
                        content: value,
                        holder,
                    },
                ),
                _ => false,
            },
            Name::Global(variable) => match self.globals.get_mut(variable as usize) {
                Some(global) => {
                    *global = value;
                    true
                }
                None => false,
            },
            Name::Local {
                activation,
                variable,
            } => self.bind(activation, variable, Thing::Is(value)),
            Name::Own(variable) => self.bind(here.activation, variable, Thing::Is(value)),
            Name::Fresh(_) => false,
        }
    }

    /// What stands at a place now.
    pub fn read(&self, here: Here, place: &Place<'m>) -> Option<Value<'m>> {
        value_in(place.path, self.held_by(here, place.name)?)
    }

    /// Writes to a place. Whether it is there.
    pub fn write(
        &mut self,
        p: &Program<'m>,
        here: Here,
        place: &Place<'m>,
        value: Value<'m>,
    ) -> Result<bool, NoMemory> {
        let Some(old) = self.held_by(here, place.name) else {
            return Ok(false);
        };
        match value_with(p.arena, place.path, value, old)? {
            Some(new) => Ok(self.hold(here, place.name, new)),
            None => Ok(false),
        }
    }

    /// The value of a thing now.
    pub fn value_now(&self, here: Here, thing: &Thing<'m>) -> Option<Value<'m>> {
        match thing {
            Thing::Is(value) => Some(*value),
            Thing::At(place) => self.read(here, place),
        }
    }

    // ---- cells

    /// A new cell; its number.
    pub fn make(&mut self, cell: Cell<'m>) -> Result<usize, NoMemory> {
        let number = self.cells.len();
        self.cells.push(cell)?;
        Ok(number)
    }

    fn cell_of(&self, value: &Value<'m>) -> Option<Cell<'m>> {
        match value {
            Value::Pointer(cell) => self.cells.get(*cell).copied(),
            _ => None,
        }
    }

    /// The bytes of a text.
    pub fn bytes_of(&self, p: &Program<'m>, value: &Value<'m>) -> Option<&'m [u8]> {
        match value {
            Value::Text(text) => p.texts.get(*text as usize).copied(),
            _ => match self.cell_of(value)? {
                Cell::Bytes(bytes) => Some(bytes),
                _ => None,
            },
        }
    }

    /// The type of the object that a reference leads to.
    pub fn kind_of_object(&self, value: &Value<'m>) -> Option<TypeId> {
        match self.cell_of(value)? {
            Cell::Made { kind, .. } => Some(kind),
            _ => None,
        }
    }

    /// Whether a reference is a value of a type, whatever a unit sees of that type: NIL is.
    pub fn has_type(&self, p: &Program<'m>, tested: TypeId, value: &Value<'m>) -> Option<bool> {
        let t = unveiled(p, tested);
        match value {
            Value::Nil => Some(true),
            Value::Text(_) => Some(is_text_type(p, t)),
            Value::MainThread => Some(is_thread_type(p, t)),
            _ => match self.cell_of(value)? {
                Cell::Made { kind, .. } => Some(is_made_type(p, kind, t)),
                Cell::Bytes(_) => Some(is_text_type(p, t)),
                Cell::Forked { .. } => Some(is_thread_type(p, t)),
            },
        }
    }

    // ---- mutexes

    /// Who holds a mutex: the number of a thread and 1, or 0 for nobody.
    pub fn holder_of(&self, p: &Program<'m>, value: &Value<'m>) -> Option<u64> {
        match self.cell_of(value)? {
            Cell::Made { kind, holder, .. } if is_mutex(p, kind) => Some(holder),
            _ => None,
        }
    }

    /// A mutex has another holder from now on. Whether it is one.
    pub fn give(&mut self, p: &Program<'m>, mutex: &Value<'m>, to: u64) -> bool {
        let Value::Pointer(cell) = mutex else {
            return false;
        };
        match self.cells.get(*cell).copied() {
            Some(Cell::Made { kind, content, .. }) if is_mutex(p, kind) => self.set_cell(
                *cell,
                Cell::Made {
                    kind,
                    content,
                    holder: to,
                },
            ),
            _ => false,
        }
    }

    // ---- the cells of threads

    pub fn thread_number(&self, value: &Value<'m>) -> Option<u64> {
        match value {
            Value::MainThread => Some(0),
            _ => match self.cell_of(value)? {
                Cell::Forked { number, .. } => Some(number),
                _ => None,
            },
        }
    }

    /// What the cell of a thread tells of it.
    pub fn life_of(&self, value: &Value<'m>) -> Option<Life<'m>> {
        match value {
            Value::MainThread => Some(Life::Alive),
            _ => match self.cell_of(value)? {
                Cell::Forked { result: None, .. } => Some(Life::Alive),
                Cell::Forked {
                    is_joined: true,
                    ..
                } => Some(Life::Joined),
                Cell::Forked {
                    result: Some(value),
                    ..
                } => Some(Life::Ended(value)),
                _ => None,
            },
        }
    }

    /// A thread that has ended is joined. Whether it had ended and wasn't joined yet.
    pub fn join(&mut self, thread: &Value<'m>) -> bool {
        let Value::Pointer(cell) = thread else {
            return false;
        };
        match self.cells.get(*cell).copied() {
            Some(
                Cell::Forked {
                    number,
                    result: Some(value),
                    is_joined: false,
                },
            ) => self.set_cell(
                *cell,
                Cell::Forked {
                    number,
                    result: Some(value),
                    is_joined: true,
                },
            ),
            _ => false,
        }
    }

    /// A forked thread is over, and its cell has its result. Whether it lived.
    pub fn end(&mut self, thread: &Value<'m>, value: Value<'m>) -> bool {
        let Value::Pointer(cell) = thread else {
            return false;
        };
        match self.cells.get(*cell).copied() {
            Some(
                Cell::Forked {
                    number,
                    result: None,
                    ..
                },
            ) => self.set_cell(
                *cell,
                Cell::Forked {
                    number,
                    result: Some(value),
                    is_joined: false,
                },
            ),
            _ => false,
        }
    }

    /// A cell becomes another one. Whether it is there.
    fn set_cell(&mut self, cell: usize, new: Cell<'m>) -> bool {
        match self.cells.get_mut(cell) {
            Some(kept) => {
                *kept = new;
                true
            }
            None => false,
        }
    }
}

fn value_of<'m>(thing: Thing<'m>) -> Option<Value<'m>> {
    match thing {
        Thing::Is(value) => Some(value),
        Thing::At(_) => None,
    }
}

fn is_text_type(p: &Program<'_>, t: TypeId) -> bool {
    matches!(node_of(p, t), TypeNode::Text | TypeNode::RefAny)
}

fn is_thread_type(p: &Program<'_>, t: TypeId) -> bool {
    matches!(
        node_of(p, t),
        TypeNode::Opaque(_, Secret::Thread) | TypeNode::Root | TypeNode::RefAny
    )
}

/// Objects, mutexes and conditions are below ROOT, and every cell is below REFANY.
fn is_made_type(p: &Program<'_>, kind: TypeId, tested: TypeId) -> bool {
    match node_of(p, tested) {
        TypeNode::RefAny => true,
        TypeNode::Root => is_object(p, kind),
        _ => is_below(p, kind, tested),
    }
}
