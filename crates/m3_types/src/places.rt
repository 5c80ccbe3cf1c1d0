ghost use Rattle.std.specs.Prelude.{◌≡◌, ◌<◌, ◌++◌, ℕ, [], OnOk, IfOk, IfSome, Contains, Option, Some, slice_get};
ghost use Rattle.m3_types.specs.Noting.{IsNoted, Descends, AreThere, newest_of};

use m3_base::NoMemory;
use std::alloc::Global;
use std::collections::HashMap;

/// A place that was noted, and the link of the one that was noted before it under the same key.
#[derive(Clone, Copy)]
pub(crate) struct Link {
    pub(crate) place: u32,
    pub(crate) older: Option<u32>,
}

/// Places under keys: each key has the link of the place that was noted last.
#[derive(Drop)]
pub(crate) struct PlaceIndex {
    pub(crate) newest: HashMap<(u32, usize), u32>,
    pub(crate) links: Vec<Link>,
    ghost descends: { Descends links.items },
    ghost there: { AreThere newest links.items },
}

impl PlaceIndex {
    pub(crate) fn new(alloc: Global) -> PlaceIndex {
        PlaceIndex {
            newest: HashMap::new(alloc),
            links: Vec::new(alloc),
        }
    }

    /// Notes a place under a key. What was noted stays, also where memory runs out.
    pub(crate) fn note(&mut self, view: u32, id: usize, place: u32) -> Result<(), NoMemory>
        ensures keeps { (v i p : ℕ) → IsNoted self.old.links.items (newest_of self.old.newest v i) p →
            IsNoted self.new.links.items (newest_of self.new.newest v i) p }
        ensures noted { OnOk result (IsNoted self.new.links.items (newest_of self.new.newest view id) place) }
    {
        let older = self.newest.get(&(view, id)).copied();
        let number = self.links.len();
        if number >= u32::MAX as usize {
            return Err(NoMemory);
        }
        self.links.push(Link { place, older })?;
        self.newest.insert((view, id), number as u32)?;
        Ok(())
    }

    fn link(&self, number: u32) -> Option<Link>
        ensures { result ≡ slice_get self.now.links.items number }
    {
        self.links.get(number as usize).copied()
    }

    /// The places that were noted under a key.
    pub(crate) fn noted(&self, alloc: Global, view: u32, id: usize) -> Result<Vec<u32>, NoMemory>
        ensures { IfOk result (λ places. (p : ℕ) → IsNoted self.now.links.items (newest_of self.now.newest view id) p → Contains places.items p) }
    {
        let mut places = Vec::new(alloc);
        let mut at = self.newest.get(&(view, id)).copied();
        while let Some(number) = at {
            let Some(link) = self.link(number) else {
                return Ok(places);
            };
            places.push(link.place)?;
            at = link.older;
        }
        Ok(places)
    }

    /// The places that were noted under 0 or another number in a view.
    pub(crate) fn noted_at_either(
        &self,
        alloc: Global,
        view: u32,
        id: usize,
    ) -> Result<Vec<u32>, NoMemory>
        ensures zero { IfOk result (λ places. (p : ℕ) → IsNoted self.now.links.items (newest_of self.now.newest view 0) p → Contains places.items p) }
        ensures other { IfOk result (λ places. (p : ℕ) → IsNoted self.now.links.items (newest_of self.now.newest view id) p → Contains places.items p) }
    {
        let mut places = self.noted(alloc, view, 0)?;
        if id == 0 {
            return Ok(places);
        }
        let more = self.noted(alloc, view, id)?;
        append(&mut places, &more)?;
        Ok(places)
    }
}

/// Adds the places of a list behind those of another.
fn append(places: &mut Vec<u32>, more: &[u32]) -> Result<(), NoMemory>
    ensures { OnOk result (places.new.items ≡ places.old.items ++ more.now) }
{
    for place in more {
        places.push(*place)?;
    }
    Ok(())
}
