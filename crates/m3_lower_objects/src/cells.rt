use crate::forms::node_of;
use crate::objects::{Objects, parent_of, unveiled};
use m3_base::{NoMemory, place_number};
use m3_types::{Secret, TypeId, TypeNode};
use m3_types_partition::Classes;
use m3_types_sizes::SizedTypes;
use std::alloc::Global;

/// The number of the types of heap cells: 0 is a text and 1 a thread, and types that are the same
/// have one number. A type's number is above that of its parent.
#[derive(Drop)]
pub struct Cells {
    /// The number of each type's cells, by the type's place.
    numbers: Vec<Option<u32>>,
    /// One type for each number from 2 on.
    types: Vec<TypeId>,
}

/// The number of texts.
pub const TEXT_CELL: u32 = 0;

/// The number of thread cells.
pub const THREAD_CELL: u32 = 1;

/// Whether heap cells of the type are made or tested under a number from 2 on.
fn has_number(node: TypeNode) -> bool {
    match node {
        TypeNode::RefTo(_, _)
        | TypeNode::Object(_, _, _, _, _)
        | TypeNode::OpenArray(_)
        | TypeNode::Mutex
        | TypeNode::Root
        | TypeNode::Opaque(_, Secret::Condition) => true,
        _ => false,
    }
}

/// A type with what it is sorted by: how many types are above it, and then its place.
#[derive(Clone, Copy, PartialEq, Eq, PartialOrd, Ord)]
struct Candidate {
    depth: u32,
    place: u32,
}

impl Cells {
    /// The numbers of the cells of some types.
    pub fn of(alloc: Global, types: &SizedTypes, objects: &Objects) -> Result<Cells, NoMemory> {
        let count = types.graph.nodes.len();
        let mut cells = Cells {
            numbers: vec![in alloc; None; count]?,
            types: Vec::new(alloc),
        };
        let classes = Classes::of(alloc, &types.graph)?;
        let mut by_class = vec![in alloc; None; count]?;
        for candidate in &candidates_of(alloc, types, objects)? {
            let t = TypeId(candidate.place);
            if let Some(class) = classes.number(t) {
                cells.add(t, class as usize, &mut by_class)?;
            }
        }
        Ok(cells)
    }

    /// Gives a type the number of its class, or a new number where the class has none yet.
    fn add(
        &mut self,
        t: TypeId,
        class: usize,
        by_class: &mut Vec<Option<u32>>,
    ) -> Result<(), NoMemory> {
        let number = match by_class.get(class) {
            Some(Some(number)) => *number,
            _ => {
                let number = place_number(self.types.len().saturating_add(2))?;
                self.types.push(t)?;
                number
            }
        };
        set_number(by_class, class, number);
        set_number(&mut self.numbers, t.0 as usize, number);
        Ok(())
    }

    /// The number of the cells of a reference type, or of the copies of an open array type; none
    /// where its values aren't all cells of one type.
    pub fn number(&self, types: &SizedTypes, t: TypeId) -> Option<u32> {
        let shown = unveiled(types, t);
        match node_of(types, shown) {
            TypeNode::Text => Some(TEXT_CELL),
            TypeNode::Opaque(_, Secret::Thread) => Some(THREAD_CELL),
            _ => match self.numbers.get(shown.0 as usize) {
                Some(number) => *number,
                None => None,
            },
        }
    }

    /// One type for each number from 2 on, in order.
    pub fn types(&self) -> &[TypeId] {
        self.types.as_slice()
    }

    /// The number of a type's parent: that of ROOT for MUTEX, for Condition and for an object type
    /// whose parent is ROOT; none for ROOT itself and for every type that is no object type.
    pub fn parent(&self, types: &SizedTypes, t: TypeId) -> Option<u32> {
        match node_of(types, t) {
            TypeNode::Object(_, _, _, _, _) => match parent_of(types, t) {
                Some(parent) => self.number(types, parent),
                None => None,
            },
            TypeNode::Mutex | TypeNode::Opaque(_, Secret::Condition) => self.root(types),
            _ => None,
        }
    }

    fn root(&self, types: &SizedTypes) -> Option<u32> {
        for (place, t) in self.types.iter().enumerate() {
            if let TypeNode::Root = node_of(types, *t) {
                return match u32::try_from(place.saturating_add(2)) {
                    Ok(number) => Some(number),
                    Err(_) => None,
                };
            }
        }
        None
    }
}

fn set_number(numbers: &mut Vec<Option<u32>>, place: usize, number: u32) {
    if place < numbers.len() {
        numbers[place] = Some(number);
    }
}

fn candidates_of(
    alloc: Global,
    types: &SizedTypes,
    objects: &Objects,
) -> Result<Vec<Candidate>, NoMemory> {
    let mut candidates = Vec::new(alloc);
    for (place, at) in types.graph.nodes.iter().enumerate() {
        if has_number(*at) {
            let place = place_number(place)?;
            candidates.push(Candidate {
                depth: depth_of(*at, objects, TypeId(place)),
                place,
            })?;
        }
    }
    candidates.sort()?;
    Ok(candidates)
}

/// A number that is above that of the parent: ROOT comes first, then MUTEX and Condition.
fn depth_of(node: TypeNode, objects: &Objects, t: TypeId) -> u32 {
    match node {
        TypeNode::Root => 0,
        TypeNode::Object(_, _, _, _, _) => objects.depth(t).saturating_add(1),
        _ => 1,
    }
}
