ghost use Rattle.std.specs.Prelude.{◌≡◌, ◌++◌, ◌∷◌, [], ◌⊎◌, ℕ, OnOk};
ghost use Rattle.m3_types_subtype.specs.Reaching.{Has, IsVisited};

use m3_base::NoMemory;
use std::alloc::Global;
use std::collections::BTreeSet;

/// Types that are reached, each once, in the order in which they were.
#[derive(Drop)]
pub(crate) struct Reached {
    seen: BTreeSet<usize>,
    pub(crate) places: Vec<usize>,
}

impl Reached {
    pub(crate) fn new(alloc: Global) -> Reached
        ensures kept { IsVisited result.seen result.places.items }
        ensures none { result.places.items ≡ [] }
    {
        Reached {
            seen: BTreeSet::new(alloc),
            places: Vec::new(alloc),
        }
    }

    /// Adds a type, unless it is there.
    pub(crate) fn add(&mut self, place: usize) -> Result<(), NoMemory>
        requires { IsVisited self.old.seen self.old.places.items }
        ensures kept { OnOk result (IsVisited self.new.seen self.new.places.items) }
        ensures has { OnOk result (Has self.new.places.items place) }
        ensures adds { OnOk result ((self.new.places.items ≡ self.old.places.items)
            ⊎ (self.new.places.items ≡ self.old.places.items ++ place ∷ [])) }
    {
        if self.seen.insert(place)? {
            self.places.push(place)?;
        }
        Ok(())
    }
}
