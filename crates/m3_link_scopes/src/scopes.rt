use crate::entities::EntityId;
use m3_base::{NoMemory, Pos};
use std::alloc::Global;
use std::collections::HashMap;

/// A name that can be used at a place of the text: what it stands for, in which scope, and the place
/// in this unit that gives it, where one does.
#[derive(Clone, Copy)]
pub struct Visible {
    pub entity: EntityId,
    pub scope: u32,
    pub pos: Option<Pos>,
}

/// What was visible under a name before a scope gave it another meaning.
#[derive(Clone, Copy)]
struct Hidden {
    name: usize,
    before: Option<Visible>,
}

/// The scopes around a place of the text. What a name stands for is found in constant time, however
/// many scopes there are.
#[derive(Drop)]
pub struct Scopes<'a> {
    /// The place of each name that was declared somewhere, in `visible`.
    places: HashMap<&'a [u8], usize>,
    visible: Vec<Option<Visible>>,
    hidden: Vec<Hidden>,
    /// Of each open scope its number and how many names were hidden when it was opened.
    open: Vec<(u32, usize)>,
    /// The number of the next scope.
    next: u32,
}

impl<'a> Scopes<'a> {
    pub fn new(alloc: Global) -> Scopes<'a> {
        Scopes {
            places: HashMap::new(alloc),
            visible: Vec::new(alloc),
            hidden: Vec::new(alloc),
            open: Vec::new(alloc),
            next: 1,
        }
    }

    /// Opens a scope inside the others.
    pub fn enter(&mut self) -> Result<(), NoMemory> {
        self.open.push((self.next, self.hidden.len()))?;
        self.next = self.next.checked_add(1).ok_or(NoMemory)?;
        Ok(())
    }

    /// Closes the innermost scope.
    pub fn leave(&mut self) {
        let Some((_, names)) = self.open.pop() else {
            return;
        };
        for _ in names..self.hidden.len() {
            if let Some(hidden) = self.hidden.pop() {
                self.show(hidden);
            }
        }
    }

    /// Gives a name the meaning back that a scope hid.
    fn show(&mut self, hidden: Hidden) {
        if let Some(visible) = self.visible.get_mut(hidden.name) {
            *visible = hidden.before;
        }
    }

    /// The number of the innermost scope, 0 where none is open.
    pub fn innermost(&self) -> u32 {
        match self.open.last() {
            Some(scope) => scope.0,
            None => 0,
        }
    }

    /// What a name stands for here.
    pub fn look_up(&self, name: &'a [u8]) -> Option<Visible> {
        let place = self.places.get(&name).copied()?;
        self.visible.get(place).copied()?
    }

    /// What a name stands for in the innermost scope itself.
    pub fn look_up_here(&self, name: &'a [u8]) -> Option<Visible> {
        match self.look_up(name) {
            Some(visible) if visible.scope == self.innermost() => Some(visible),
            _ => None,
        }
    }

    /// The place of a name, a new one where it was declared nowhere before.
    fn place_of(&mut self, name: &'a [u8]) -> Result<usize, NoMemory> {
        if let Some(place) = self.places.get(&name) {
            return Ok(*place);
        }
        let place = self.visible.len();
        self.visible.push(None)?;
        self.places.insert(name, place)?;
        Ok(place)
    }

    /// Gives a name a meaning in the innermost scope.
    pub fn declare(
        &mut self,
        name: &'a [u8],
        entity: EntityId,
        pos: Option<Pos>,
    ) -> Result<(), NoMemory> {
        let place = self.place_of(name)?;
        let scope = self.innermost();
        let before = self.visible.get(place).copied().flatten();
        self.hidden.push(Hidden {
            name: place,
            before,
        })?;
        if let Some(visible) = self.visible.get_mut(place) {
            *visible = Some(Visible { entity, scope, pos });
        }
        Ok(())
    }
}
