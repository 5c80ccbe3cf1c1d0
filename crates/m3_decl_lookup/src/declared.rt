use m3_base::{Least, NoMemory, Pos};
use m3_core::{Text, Value, ValueId};
use m3_link_scopes::EntityId;
use m3_types::{TypeGraph, TypeId};
use std::alloc::Global;
use std::collections::{HashMap, HashSet};

/// The types that every program has.
#[derive(Clone, Copy)]
pub struct Basic {
    pub integer: TypeId,
    pub boolean: TypeId,
    pub character: TypeId,
    pub cardinal: TypeId,
    pub text: TypeId,
    pub null: TypeId,
    pub refany: TypeId,
    pub root: TypeId,
    pub mutex: TypeId,
    /// What stands for a type that was refused; its definition is never given.
    pub refused: TypeId,
}

/// A constant: its type and its value.
#[derive(Clone, Copy)]
pub struct Constant {
    pub kind: TypeId,
    pub value: ValueId,
}

/// What declarations declare. What was refused stands for nothing.
#[derive(Drop)]
pub struct Declared<'a> {
    pub types: TypeGraph<'a>,
    pub basic: Basic,
    pub values: Vec<Value<'a>>,
    /// The text literals and the constant texts: each is one cell.
    pub texts: Vec<Text<'a>>,
    /// The types whose own text breaks a rule or hangs on what was refused.
    pub flawed: HashSet<TypeId>,
    /// The types that were refused, and the flawed ones, with those that name one of these, however
    /// far down. What hangs on them isn't judged.
    pub unsound: HashSet<TypeId>,
    /// The least broken rule of expressions and statements that was met in declarations.
    pub later: Least,
    named: HashMap<EntityId, TypeId>,
    kinds: HashMap<EntityId, TypeId>,
    constants: HashMap<EntityId, Constant>,
    types_at: HashMap<(u32, Pos), TypeId>,
    constants_at: HashMap<(u32, Pos), Constant>,
    texts_at: HashMap<(u32, Pos), u32>,
    procedures: HashMap<EntityId, u32>,
    modules: HashMap<u32, u32>,
    exceptions: HashMap<EntityId, u32>,
}

impl<'a> Declared<'a> {
    /// Nothing declared yet.
    pub fn new(alloc: Global, types: TypeGraph<'a>, basic: Basic) -> Declared<'a> {
        Declared {
            types,
            basic,
            values: Vec::new(alloc),
            texts: Vec::new(alloc),
            flawed: HashSet::new(alloc),
            unsound: HashSet::new(alloc),
            later: Least::new(),
            named: HashMap::new(alloc),
            kinds: HashMap::new(alloc),
            constants: HashMap::new(alloc),
            types_at: HashMap::new(alloc),
            constants_at: HashMap::new(alloc),
            texts_at: HashMap::new(alloc),
            procedures: HashMap::new(alloc),
            modules: HashMap::new(alloc),
            exceptions: HashMap::new(alloc),
        }
    }

    /// The type that a type's name stands for.
    pub fn type_named(&self, entity: EntityId) -> Option<TypeId> {
        self.named.get(&entity).copied()
    }

    pub fn name_type(&mut self, entity: EntityId, kind: TypeId) -> Result<(), NoMemory> {
        self.named.insert(entity, kind)?;
        Ok(())
    }

    /// The type of a variable or a formal, the procedure type of a procedure, and the type of an
    /// exception's argument.
    pub fn kind_of(&self, entity: EntityId) -> Option<TypeId> {
        self.kinds.get(&entity).copied()
    }

    pub fn give_kind(&mut self, entity: EntityId, kind: TypeId) -> Result<(), NoMemory> {
        self.kinds.insert(entity, kind)?;
        Ok(())
    }

    /// The constant that a name stands for.
    pub fn constant(&self, entity: EntityId) -> Option<Constant> {
        self.constants.get(&entity).copied()
    }

    pub fn give_constant(&mut self, entity: EntityId, constant: Constant) -> Result<(), NoMemory> {
        self.constants.insert(entity, constant)?;
        Ok(())
    }

    /// Forgets a constant that turns out to be none of its type.
    pub fn forget_constant(&mut self, entity: EntityId) {
        self.constants.remove(&entity);
    }

    /// The type of the type expression whose first token stands at a place of a unit's text.
    pub fn type_at(&self, unit: u32, at: Pos) -> Option<TypeId> {
        self.types_at.get(&(unit, at)).copied()
    }

    pub fn place_type(&mut self, unit: u32, at: Pos, kind: TypeId) -> Result<(), NoMemory> {
        self.types_at.insert((unit, at), kind)?;
        Ok(())
    }

    /// The value of the constant expression whose first token stands at a place of a unit's text.
    pub fn constant_at(&self, unit: u32, at: Pos) -> Option<Constant> {
        self.constants_at.get(&(unit, at)).copied()
    }

    pub fn place_constant(
        &mut self,
        unit: u32,
        at: Pos,
        constant: Constant,
    ) -> Result<(), NoMemory> {
        self.constants_at.insert((unit, at), constant)?;
        Ok(())
    }

    /// The cell of the text literal at a place of a unit's text.
    pub fn text_at(&self, unit: u32, at: Pos) -> Option<u32> {
        self.texts_at.get(&(unit, at)).copied()
    }

    pub fn place_text(&mut self, unit: u32, at: Pos, cell: u32) -> Result<(), NoMemory> {
        self.texts_at.insert((unit, at), cell)?;
        Ok(())
    }

    /// The number of a procedure that has a body; of a head in an interface that of its body.
    pub fn procedure_number(&self, entity: EntityId) -> Option<u32> {
        self.procedures.get(&entity).copied()
    }

    pub fn number_procedure(&mut self, entity: EntityId, number: u32) -> Result<(), NoMemory> {
        self.procedures.insert(entity, number)?;
        Ok(())
    }

    /// The number of the body of a module, by the module's place in the program's units.
    pub fn module_number(&self, unit: u32) -> Option<u32> {
        self.modules.get(&unit).copied()
    }

    pub fn number_module(&mut self, unit: u32, number: u32) -> Result<(), NoMemory> {
        self.modules.insert(unit, number)?;
        Ok(())
    }

    /// The number of an exception.
    pub fn exception_number(&self, entity: EntityId) -> Option<u32> {
        self.exceptions.get(&entity).copied()
    }

    pub fn number_exception(&mut self, entity: EntityId, number: u32) -> Result<(), NoMemory> {
        self.exceptions.insert(entity, number)?;
        Ok(())
    }
}
