use crate::declarations::Declaration;
use crate::entities::{Entity, EntityId, EntityKind};
use m3_base::{NoMemory, Pos, place_number};
use m3_syntax::{Name, Unit};
use std::alloc::Global;
use std::collections::HashMap;

/// A linked program with its text: the given units and behind them the built-in interfaces, what
/// declares their entities, and what linking found out.
#[derive(Drop)]
pub struct Linked<'a> {
    pub units: Vec<Unit<'a>>,
    pub declarations: Vec<Declaration<'a>>,
    pub program: Program<'a>,
}

/// What linking found out about a program: its units, the modules in the order in which their
/// bodies run, and what its names stand for. No tree stands in it, so what takes it is cheap to
/// prove.
#[derive(Drop)]
pub struct Program<'a> {
    pub infos: Vec<UnitInfo<'a>>,
    pub order: Vec<u32>,
    pub binds: Binds<'a>,
    pub reveals: Vec<Revealed>,
}

/// What is known of a unit beside its text.
#[derive(Drop)]
pub struct UnitInfo<'a> {
    pub name: Name<'a>,
    /// The number of its file in refusals.
    pub number: u32,
    pub is_interface: bool,
    pub is_built_in: bool,
    /// The interfaces that it imports and exports, each once, by their places in the units.
    pub imports: Vec<u32>,
    pub exports: Vec<u32>,
    /// Its outermost declarations among the program's entities: the first, and how many.
    pub own: (u32, u32),
}

/// A revelation of an opaque type: the unit that contains it, its place in the program's list of
/// declarations, and the opaque type.
#[derive(Clone, Copy)]
pub struct Revealed {
    pub unit: u32,
    pub declaration: u32,
    pub opaque: EntityId,
    pub is_partial: bool,
    pub pos: Pos,
}

/// What the names of a program stand for.
#[derive(Drop)]
pub struct Binds<'a> {
    entities: Vec<Entity<'a>>,
    /// What the name at a place of a unit's text stands for, where it is declared and where it is used.
    names: HashMap<(u32, Pos), EntityId>,
}

impl<'a> Binds<'a> {
    pub fn new(alloc: Global) -> Binds<'a> {
        Binds {
            entities: Vec::new(alloc),
            names: HashMap::new(alloc),
        }
    }

    /// Adds an entity.
    pub fn add(&mut self, entity: Entity<'a>) -> Result<EntityId, NoMemory> {
        let place = place_number(self.entities.len())?;
        self.entities.push(entity)?;
        Ok(EntityId(place))
    }

    /// Says what the name at a place of a unit's text stands for.
    pub fn bind(&mut self, unit: u32, at: Pos, id: EntityId) -> Result<(), NoMemory> {
        self.names.insert((unit, at), id)?;
        Ok(())
    }

    pub fn entity(&self, id: EntityId) -> Option<Entity<'a>> {
        self.entities.get(id.0 as usize).copied()
    }

    pub fn entity_mut(&mut self, id: EntityId) -> Option<&mut Entity<'a>> {
        self.entities.get_mut(id.0 as usize)
    }

    pub fn entities(&self) -> &[Entity<'a>] {
        self.entities.as_slice()
    }

    /// What the name at a place of a unit's text stands for, where it is declared and where it is used.
    pub fn at(&self, unit: u32, at: Pos) -> Option<EntityId> {
        self.names.get(&(unit, at)).copied()
    }

    /// The unit and the place of the declaration of the name that is used at a place of a unit's text.
    /// None where no name is used there that a declaration, an import, a formal or a binding of the
    /// program makes.
    pub fn declaration(&self, at: Pos, unit: u32) -> Option<(u32, Pos)> {
        let entity = self.entity(self.at(unit, at)?)?;
        match entity.kind {
            EntityKind::Predeclared(_) | EntityKind::Unknown => None,
            _ if entity.unit == unit && entity.pos == at => None,
            _ => Some((entity.unit, entity.pos)),
        }
    }
}
