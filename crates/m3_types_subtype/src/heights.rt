ghost use Rattle.std.specs.Prelude.{◌≡◌, ◌+◌, ℕ, List, IfOk, IfSome, OnOk};
ghost use Rattle.std.specs.Ordering.{nat_cmp};
ghost use Rattle.std.specs.BTreeMap.{get};
ghost use Rattle.m3_types_subtype.specs.Heights.{HasHeight, AreHeights};
ghost use Rattle.m3_types.specs.declared.nodes.TypeNode.{TypeNode as ATypeNode};

use m3_base::NoMemory;
use m3_types::{TypeNode, named_above_at};
use std::alloc::Global;
use std::collections::BTreeMap;

fn plus(height: usize, steps: usize) -> Option<usize>
    ensures { IfSome result (λ sum. sum ≡ height + steps) }
{
    height.checked_add(steps)
}

/// How many types stand above some types by their own definitions, one above the other. Same types
/// have the same height.
#[derive(Drop)]
pub(crate) struct Heights {
    known: BTreeMap<usize, usize>,
}

impl Heights {
    pub(crate) fn new(alloc: Global) -> Heights
        ensures { (nodes : List ATypeNode) → AreHeights nodes result.known }
    {
        Heights {
            known: BTreeMap::new(alloc),
        }
    }

    fn known(&self, place: usize) -> Option<usize>
        ensures { result ≡ get nat_cmp self.now.known place }
    {
        self.known.get(&place).copied()
    }

    /// The height of a type; none where it has none, since it stands above itself.
    fn count(&self, nodes: &[TypeNode], place: usize) -> Option<usize>
        requires { AreHeights nodes.now self.now.known }
        ensures { IfSome result (λ height. HasHeight nodes.now place height) }
    {
        let mut at = place;
        for steps in 0..nodes.len() {
            if let Some(height) = self.known(at) {
                return plus(height, steps);
            }
            match named_above_at(nodes, at) {
                Some(above) => at = above.0 as usize,
                None => return Some(steps),
            }
        }
        None
    }

    fn note(&mut self, place: usize, height: usize) -> Result<(), NoMemory>
        ensures { (nodes : List ATypeNode) → AreHeights nodes self.old.known → HasHeight nodes place height → AreHeights nodes self.new.known }
    {
        self.known.insert(place, height)?;
        Ok(())
    }

    /// The height of a type, which is noted together with that of the type above it.
    pub(crate) fn tell(
        &mut self,
        nodes: &[TypeNode],
        place: usize,
    ) -> Result<Option<usize>, NoMemory>
        requires { AreHeights nodes.now self.old.known }
        ensures kept { OnOk result (AreHeights nodes.now self.new.known) }
        ensures height { IfOk result (λ told. IfSome told (λ height. HasHeight nodes.now place height)) }
    {
        let told = self.count(nodes, place);
        let Some(height) = told else {
            return Ok(None);
        };
        self.note(place, height)?;
        self.note_above(nodes, place, height)?;
        Ok(Some(height))
    }

    fn note_above(
        &mut self,
        nodes: &[TypeNode],
        place: usize,
        height: usize,
    ) -> Result<(), NoMemory>
        requires kept { AreHeights nodes.now self.old.known }
        requires height { HasHeight nodes.now place height }
        ensures { OnOk result (AreHeights nodes.now self.new.known) }
    {
        let Some(above) = named_above_at(nodes, place) else {
            return Ok(());
        };
        if height > 0 {
            self.note(above.0 as usize, height - 1)?;
        }
        Ok(())
    }
}
