use crate::heads::heads_of;
use crate::partition::Partition;
use crate::uses::Uses;
use m3_base::NoMemory;
use m3_types::{TypeGraph, TypeId};
use std::alloc::Global;

/// The types of a graph in classes: two types are in one class where their definitions, written out
/// without end, are equal.
///
/// The classes are the coarsest ones in which types of equal heads have parts of equal classes. They are
/// found by splitting, where each type is moved only into pieces of at most half a class (Hopcroft 1971).
#[derive(Drop)]
pub struct Classes {
    numbers: Vec<u32>,
}

impl Classes {
    /// The classes of all types of a graph.
    pub fn of(alloc: Global, graph: &TypeGraph) -> Result<Classes, NoMemory> {
        let heads = heads_of(alloc, &graph.nodes)?;
        let uses = Uses::of(alloc, &graph.nodes)?;
        let mut partition = Partition::of(alloc, &heads)?;
        partition.refine(&uses)?;
        Ok(Classes {
            numbers: partition.into_classes(),
        })
    }

    /// The number of a type's class, below the number of types; None for what is no type of the graph.
    pub fn number(&self, t: TypeId) -> Option<u32> {
        self.numbers.get(t.0 as usize).copied()
    }
}
