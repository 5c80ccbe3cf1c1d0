//! What the temporaries of the two procedures hold within a block.
use crate::facts::{Held, only_symbol, same_terms};
use m3_base::{NoMemory, place_number};
use m3_same_forms::{Form, Symbol};
use std::alloc::Global;

/// How far is looked back for a temporary that holds something.
const WINDOW: usize = 200;

/// What temporaries hold: what was set since the block began, newest last, and by temporary of each
/// of the two procedures the place of the newest of that, and 1 more. The right one sets nothing
/// that the left one hasn't set just before.
#[derive(Drop)]
pub struct Places {
    left: Vec<u32>,
    right: Vec<u32>,
    pub(crate) held: Vec<Held>,
    /// What stands before this place was set before the last call.
    near: usize,
}

fn place_in(places: &[u32], temp: u32) -> usize {
    places.get(temp as usize).copied().unwrap_or(0) as usize
}

fn put_place(places: &mut [u32], temp: u32, place: u32) {
    if let Some(at) = places.get_mut(temp as usize) {
        *at = place;
    }
}

impl Places {
    pub(crate) fn new(alloc: Global, temps: usize) -> Result<Places, NoMemory> {
        Ok(Places {
            left: vec![in alloc; 0u32; temps]?,
            right: vec![in alloc; 0u32; temps]?,
            held: Vec::new(alloc),
            near: 0,
        })
    }

    /// The left procedure sets a temporary.
    pub(crate) fn set(&mut self, held: Held) -> Result<(), NoMemory> {
        let temp = held.temp;
        self.held.push(held)?;
        let place = place_number(self.held.len())?;
        put_place(&mut self.left, temp, place);
        Ok(())
    }

    /// The right procedure sets a temporary to what the left one's holds.
    pub(crate) fn follow(&mut self, temp: u32) {
        let place = self.left.get(temp as usize).copied().unwrap_or(0);
        put_place(&mut self.right, temp, place);
    }

    /// Whether the left procedure's temporary holds what is at a place.
    pub(crate) fn is_newest(&self, place: usize, temp: u32) -> bool {
        place_in(&self.left, temp) == place.saturating_add(1)
    }

    /// The same for the right one's.
    pub(crate) fn is_held(&self, place: usize, temp: u32) -> bool {
        place_in(&self.right, temp) == place.saturating_add(1)
    }

    /// Whether no call was passed since what is at a place was set.
    pub(crate) fn is_near(&self, place: usize, held: &Held) -> bool {
        held.is_near && place >= self.near
    }

    /// Whether the left procedure set a temporary since the block began.
    pub(crate) fn is_set(&self, temp: u32) -> bool {
        place_in(&self.left, temp) != 0
    }

    fn left_held(&self, temp: u32) -> Option<&Held> {
        self.held.get(place_in(&self.left, temp).checked_sub(1)?)
    }

    /// What the left procedure's temporary holds.
    pub(crate) fn form(&self, alloc: Global, temp: u32) -> Result<Form, NoMemory> {
        match self.left_held(temp) {
            Some(held) => Ok(held.value.copy(alloc)?),
            None => Ok(Form::of_symbol(alloc, Symbol::Left(temp))?),
        }
    }

    /// The fact at the block's entry by which it holds that.
    pub(crate) fn from(&self, temp: u32) -> Option<u32> {
        self.left_held(temp)?.from
    }

    /// What holds in the right procedure what the left one's temporary was set to.
    pub fn holder(&self, temp: u32) -> Option<Holder> {
        let value = &self.left_held(temp)?.value;
        for back in 1..WINDOW {
            let place = self.held.len().checked_sub(back)?;
            let held = self.held.get(place)?;
            if self.is_held(place, held.temp) && same_terms(&held.value, value) {
                return Some(Holder {
                    temp: held.temp,
                    from: held.from,
                    is_near: self.is_near(place, held),
                });
            }
        }
        None
    }

    /// The temporary that the left one's was set to, where the right one hasn't set it since the
    /// block began.
    pub fn unset(&self, temp: u32) -> Option<u32> {
        match only_symbol(&self.left_held(temp)?.value) {
            Some(Symbol::Left(other)) if place_in(&self.right, other) == 0 => Some(other),
            _ => None,
        }
    }

    /// A call was passed.
    pub(crate) fn pass_call(&mut self) {
        self.near = self.held.len();
    }

    /// A block begins.
    pub(crate) fn clear(&mut self) {
        for held in &self.held {
            put_place(&mut self.left, held.temp, 0);
            put_place(&mut self.right, held.temp, 0);
        }
        self.held.clear();
        self.near = 0;
    }
}

/// A temporary of the right procedure that holds something, the fact at the block's entry by which
/// it does, and whether no call was passed since.
#[derive(Clone, Copy)]
pub struct Holder {
    pub temp: u32,
    pub from: Option<u32>,
    pub is_near: bool,
}
