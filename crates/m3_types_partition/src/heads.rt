use crate::marks::mark_of;
use m3_base::{NoMemory, place_number};
use m3_types::{TypeNode, heads_match_at};
use std::alloc::Global;

/// A definition with the mark that it is sorted by.
#[derive(Clone, Copy, PartialEq, Eq, PartialOrd, Ord)]
struct Marked {
    mark: u64,
    place: u32,
}

/// Definitions in classes of those that are equal but for the places that they name.
#[derive(Drop)]
struct Heads {
    /// The class of each definition.
    numbers: Vec<u32>,
    /// One definition of each class.
    examples: Vec<u32>,
}

impl Heads {
    /// Puts a definition into the class that it belongs to, one of those from a place on or a new one.
    fn add(&mut self, nodes: &[TypeNode], place: u32, first: usize) -> Result<(), NoMemory> {
        let mut class = self.examples.len();
        for other in first..self.examples.len() {
            if self.matches(nodes, other, place) {
                class = other;
                break;
            }
        }
        if class == self.examples.len() {
            self.examples.push(place)?;
        }
        let class = place_number(class)?;
        if (place as usize) < self.numbers.len() {
            self.numbers[place as usize] = class;
        }
        Ok(())
    }

    fn matches(&self, nodes: &[TypeNode], class: usize, place: u32) -> bool {
        match self.examples.get(class) {
            Some(example) => heads_match_at(nodes, *example as usize, place as usize),
            None => false,
        }
    }
}

fn marked_nodes(alloc: Global, nodes: &[TypeNode]) -> Result<Vec<Marked>, NoMemory> {
    let mut marked = Vec::new(alloc);
    for (place, node) in nodes.iter().enumerate() {
        let place = place_number(place)?;
        marked.push(Marked {
            mark: mark_of(*node, place),
            place,
        })?;
    }
    marked.sort()?;
    Ok(marked)
}

/// For each definition the number of its class: the definitions of a class are equal but for the places
/// that they name. Only those of equal marks are compared.
pub(crate) fn heads_of(alloc: Global, nodes: &[TypeNode]) -> Result<Vec<u32>, NoMemory> {
    let marked = marked_nodes(alloc, nodes)?;
    let mut heads = Heads {
        numbers: vec![in alloc; 0u32; nodes.len()]?,
        examples: Vec::new(alloc),
    };
    let mut first = 0usize;
    let mut mark = 0u64;
    for at in &marked {
        if at.mark != mark {
            mark = at.mark;
            first = heads.examples.len();
        }
        heads.add(nodes, at.place, first)?;
    }
    let Heads { numbers, .. } = heads;
    Ok(numbers)
}
