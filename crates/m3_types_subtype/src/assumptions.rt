ghost use Rattle.std.specs.Prelude.{◌≡◌, ℕ, length, OnOk, [], All};
ghost use Rattle.m3_types_subtype.specs.Classes.{parent_of, SameClass};
ghost use Rattle.m3_types_subtype.specs.Assumptions.{IsKept, AddsPair, AddsPairs};
ghost use Rattle.m3_types_subtype.specs.Sameness.{Matched};

use crate::partition::Partition;
use m3_base::NoMemory;
use std::alloc::Global;

/// The types that are taken to be the same while two types are compared: their classes, and the pairs
/// that made them, each of which joined two classes.
#[derive(Drop)]
pub(crate) struct Assumptions {
    pub(crate) classes: Partition,
    pub(crate) pairs: Vec<(usize, usize)>,
}

impl Assumptions {
    pub(crate) fn new(alloc: Global) -> Assumptions
        ensures kept { IsKept (parent_of result.classes.parents) result.pairs.items }
        ensures none { result.pairs.items ≡ [] }
    {
        Assumptions {
            classes: Partition::new(alloc),
            pairs: Vec::new(alloc),
        }
    }

    /// Takes two types to be the same.
    pub(crate) fn assume(&mut self, x: usize, y: usize) -> Result<(), NoMemory>
        requires { IsKept (parent_of self.old.classes.parents) self.old.pairs.items }
        ensures kept { OnOk result (IsKept (parent_of self.new.classes.parents) self.new.pairs.items) }
        ensures joined { OnOk result (SameClass (parent_of self.new.classes.parents) x y) }
        ensures keeps { OnOk result ((i j : ℕ) →
            SameClass (parent_of self.old.classes.parents) i j → SameClass (parent_of self.new.classes.parents) i j) }
        ensures adds { OnOk result (AddsPair x y self.old.pairs.items self.new.pairs.items) }
    {
        if self.classes.join(x, y)? {
            self.pairs.push((x, y))?;
        }
        Ok(())
    }

    /// Takes the types at each place of two lists to be the same.
    pub(crate) fn assume_all(&mut self, xs: &[usize], ys: &[usize]) -> Result<(), NoMemory>
        requires kept { IsKept (parent_of self.old.classes.parents) self.old.pairs.items }
        requires alike { length xs.now ≡ length ys.now }
        ensures kept { OnOk result (IsKept (parent_of self.new.classes.parents) self.new.pairs.items) }
        ensures joined { OnOk result (Matched (SameClass (parent_of self.new.classes.parents)) xs.now ys.now) }
        ensures keeps { OnOk result ((i j : ℕ) →
            SameClass (parent_of self.old.classes.parents) i j → SameClass (parent_of self.new.classes.parents) i j) }
        ensures adds { OnOk result (AddsPairs xs.now ys.now self.old.pairs.items self.new.pairs.items) }
    {
        for (i, x) in xs.iter().enumerate() {
            self.assume(*x, ys[i])?;
        }
        Ok(())
    }
}
