ghost use Rattle.std.specs.Prelude.{◌≡◌, ℕ, ◌+◌, ◌≤◌, ◌<◌, ◌⊎◌, IfOk, OnOk, false, if◌then◌else◌};
ghost use Rattle.m3_types_subtype.specs.Classes.{parent_of, root_of, SameClass, root_count, Joins, MovesRoot};

use m3_base::NoMemory;
use std::alloc::Global;
use std::collections::BTreeMap;

/// Classes of numbers that are taken to be equal, as a forest in a map (Tarjan's union and find). Each
/// number is in a class of its own at first. A look-up shortens the way that it went.
#[derive(Drop)]
pub(crate) struct Partition {
    pub(crate) parents: BTreeMap<usize, usize>,
    ghost descends: { (i : ℕ) → parent_of parents i ≤ i },
}

impl Partition {
    pub(crate) fn new(alloc: Global) -> Partition
        ensures { (i : ℕ) → parent_of result.parents i ≡ i }
    {
        Partition {
            parents: BTreeMap::new(alloc),
        }
    }

    fn parent(&self, i: usize) -> usize
        ensures { result ≡ parent_of self.now.parents i }
    {
        self.parents.get(&i).copied().unwrap_or(i)
    }

    /// Makes the parent's parent the parent of a number. Where memory is short the way stays as long.
    fn lift(&mut self, i: usize, top: usize)
        requires { top ≡ parent_of self.old.parents (parent_of self.old.parents i) }
        ensures classes { (j : ℕ) → root_of (parent_of self.new.parents) j ≡ root_of (parent_of self.old.parents) j }
        ensures count { (n : ℕ) → root_count (parent_of self.new.parents) n ≡ root_count (parent_of self.old.parents) n }
    {
        let _ = self.parents.insert(i, top);
    }

    /// The root of a number's class.
    fn root(&mut self, i: usize) -> usize
        ensures root { result ≡ root_of (parent_of self.old.parents) i }
        ensures classes { (j : ℕ) → root_of (parent_of self.new.parents) j ≡ root_of (parent_of self.old.parents) j }
        ensures count { (n : ℕ) → root_count (parent_of self.new.parents) n ≡ root_count (parent_of self.old.parents) n }
        ensures stands { parent_of self.new.parents result ≡ result }
        ensures below { result ≤ i }
    {
        let mut at = i;
        loop {
            let up = self.parent(at);
            if up == at {
                return at;
            }
            let top = self.parent(up);
            self.lift(at, top);
            at = top;
        }
    }

    /// Puts a root below another, lower one.
    fn link(&mut self, high: usize, low: usize) -> Result<(), NoMemory>
        requires low { parent_of self.old.parents low ≡ low }
        requires high { parent_of self.old.parents high ≡ high }
        requires apart { low < high }
        ensures roots { OnOk result ((j : ℕ) →
            MovesRoot high low (root_of (parent_of self.old.parents) j) (root_of (parent_of self.new.parents) j)) }
        ensures count { OnOk result ((n : ℕ) → high < n →
            root_count (parent_of self.new.parents) n + 1 ≡ root_count (parent_of self.old.parents) n) }
    {
        self.parents.insert(high, low)?;
        Ok(())
    }

    /// Takes two numbers to be equal: their classes become one. Whether they were two.
    pub(crate) fn join(&mut self, a: usize, b: usize) -> Result<bool, NoMemory>
        ensures joined { IfOk result (λ _. SameClass (parent_of self.new.parents) a b) }
        ensures apart { IfOk result (λ two. two ≡ false → SameClass (parent_of self.old.parents) a b) }
        ensures keeps { IfOk result (λ _. (i j : ℕ) →
            SameClass (parent_of self.old.parents) i j → SameClass (parent_of self.new.parents) i j) }
        ensures only { IfOk result (λ _. (i j : ℕ) → SameClass (parent_of self.new.parents) i j →
            Joins (SameClass (parent_of self.old.parents)) a b i j) }
        ensures count { IfOk result (λ two. (n : ℕ) → a < n → b < n →
            root_count (parent_of self.new.parents) n + (if two then 1 else 0) ≡ root_count (parent_of self.old.parents) n) }
    {
        let x = self.root(a);
        let y = self.root(b);
        if x == y {
            return Ok(false);
        }
        if x < y {
            self.link(y, x)?;
        } else {
            self.link(x, y)?;
        }
        Ok(true)
    }
}
