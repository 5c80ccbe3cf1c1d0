use crate::declarations::Declaration;
use crate::entities::{Entity, EntityId, EntityKind};
use crate::predeclared::{Predeclared, predeclared_names};
use crate::program::{Binds, Revealed, UnitInfo};
use crate::scopes::{Scopes, Visible};
use m3_base::{Least, NoMemory, Pos, Refusal, place_number, rules};
use m3_syntax::{Name, Qualid};
use std::alloc::Global;
use std::collections::{HashMap, HashSet};

const PHASE: u8 = 4;

/// The program in the making.
#[derive(Drop)]
pub struct Linker<'a> {
    /// The units, the given ones first and then the built-in ones.
    pub infos: Vec<UnitInfo<'a>>,
    pub declarations: Vec<Declaration<'a>>,
    pub binds: Binds<'a>,
    pub reveals: Vec<Revealed>,
    pub scopes: Scopes<'a>,
    predeclared: HashSet<&'a [u8]>,
    /// The interfaces by name.
    pub interfaces: HashMap<&'a [u8], u32>,
    /// What the outermost scope of each unit declares itself, by unit and name.
    pub own: HashMap<(u32, &'a [u8]), EntityId>,
    pub least: Least,
    /// The unit that is read, and the procedure around the place that is read.
    pub unit: u32,
    pub procedure: Option<EntityId>,
}

impl<'a> Linker<'a> {
    pub fn new(alloc: Global) -> Linker<'a> {
        Linker {
            infos: Vec::new(alloc),
            declarations: Vec::new(alloc),
            binds: Binds::new(alloc),
            reveals: Vec::new(alloc),
            scopes: Scopes::new(alloc),
            predeclared: HashSet::new(alloc),
            interfaces: HashMap::new(alloc),
            own: HashMap::new(alloc),
            least: Least::new(),
            unit: 0,
            procedure: None,
        }
    }

    /// Notes that the unit that is read breaks a rule. Built-in units break none.
    pub fn note(&mut self, pos: Pos, rule: u16) {
        let number = match self.infos.get(self.unit as usize) {
            Some(info) if !info.is_built_in => info.number,
            _ => return,
        };
        self.least.note(Refusal {
            phase: PHASE,
            unit: number,
            pos,
            rule,
        });
    }

    /// A new entity of the unit that is read, without a declaration.
    pub fn entity(&self, name: Name<'a>, kind: EntityKind) -> Entity<'a> {
        Entity {
            unit: self.unit,
            name: name.text,
            pos: name.pos,
            kind,
            declaration: None,
            has_body: false,
            procedure: self.procedure,
            is_outermost: false,
            body: None,
            revealed: None,
        }
    }

    /// Keeps a declaration, and gives its place in the list.
    pub fn keep(&mut self, declaration: Declaration<'a>) -> Result<u32, NoMemory> {
        let place = place_number(self.declarations.len())?;
        self.declarations.push(declaration)?;
        Ok(place)
    }

    /// Gives the predeclared names their meaning, in a scope around all others.
    pub fn declare_predeclared(&mut self) -> Result<(), NoMemory> {
        self.scopes.enter()?;
        let pos = Pos {
            file: 0,
            line: 0,
            col: 0,
        };
        for (text, meaning) in predeclared_names() {
            let kind = EntityKind::Predeclared(*meaning);
            let entity = self.entity(Name { text, pos }, kind);
            let id = self.binds.add(entity)?;
            self.scopes.declare(text, id, None)?;
            self.predeclared.insert(*text)?;
        }
        Ok(())
    }

    /// Declares a name in the innermost scope. Refuses a predeclared name (rule 25) and a second
    /// declaration (rule 24), which has no effect.
    pub fn declare(&mut self, name: Name<'a>, entity: Entity<'a>) -> Result<(), NoMemory> {
        let id = self.binds.add(entity)?;
        self.binds.bind(self.unit, name.pos, id)?;
        let key = (self.unit, name.text);
        if entity.is_outermost && !self.own.contains_key(&key) {
            self.own.insert(key, id)?;
        }
        self.make_visible(name, id)
    }

    /// Makes an entity visible under a name in the innermost scope, by rules 24 and 25 as `declare`.
    pub fn make_visible(&mut self, name: Name<'a>, id: EntityId) -> Result<(), NoMemory> {
        if self.is_predeclared(name.text) {
            self.note(name.pos, rules::PREDECLARED_NAME);
        }
        if self.scopes.look_up_here(name.text).is_some() {
            self.note(name.pos, rules::DUPLICATE_NAME);
            return Ok(());
        }
        self.scopes.declare(name.text, id, Some(name.pos))
    }

    /// Whether the unit that is read is an interface.
    pub fn is_in_interface(&self) -> bool {
        match self.infos.get(self.unit as usize) {
            Some(info) => info.is_interface,
            None => false,
        }
    }

    fn is_predeclared(&self, name: &'a [u8]) -> bool {
        self.predeclared.contains(&name)
    }

    pub fn entity_of(&self, id: EntityId) -> Option<Entity<'a>> {
        self.binds.entity(id)
    }

    /// What a used name stands for. Refuses names that are left out (rules 28 and 29) and unknown
    /// ones (rule 23).
    pub fn name(&mut self, name: Name<'a>) -> Result<Option<Entity<'a>>, NoMemory> {
        let Some(Visible { entity, .. }) = self.scopes.look_up(name.text) else {
            self.note(name.pos, rules::UNKNOWN_NAME);
            return Ok(None);
        };
        let Some(found) = self.entity_of(entity) else {
            return Ok(None);
        };
        match found.kind {
            EntityKind::Predeclared(Predeclared::Floating) => self.note(
                name.pos,
                rules::FLOATING_NAME,
            ),
            EntityKind::Predeclared(Predeclared::LeftOut) => self.note(
                name.pos,
                rules::UNSAFE_OR_LEFT_OUT,
            ),
            _ => self.binds.bind(self.unit, name.pos, entity)?,
        }
        Ok(Some(found))
    }

    /// What a qualified name stands for. Where the first name is no interface, later phases judge
    /// what follows the dot.
    pub fn qualid(&mut self, qualid: &Qualid<'a>) -> Result<(), NoMemory> {
        let first = self.name(qualid.first)?;
        if let (Some(first), Some(second)) = (first, qualid.second) {
            self.member(first.kind, second)?;
        }
        Ok(())
    }

    /// The name behind the dot of an imported interface: one that this interface itself declares.
    pub fn member(&mut self, interface: EntityKind, name: Name<'a>) -> Result<(), NoMemory> {
        let EntityKind::Import(unit) = interface else {
            return Ok(());
        };
        match self.own.get(&(unit, name.text)).copied() {
            Some(id) => self.binds.bind(self.unit, name.pos, id)?,
            None => self.note(name.pos, rules::UNKNOWN_NAME),
        }
        Ok(())
    }
}
