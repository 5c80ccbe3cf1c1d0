use m3_base::{NoMemory, place_number};
use m3_types::{TypeNode, parts_at};
use std::alloc::Global;

/// That a definition has another one as its part of a number.
#[derive(Clone, Copy, PartialEq, Eq, PartialOrd, Ord)]
pub(crate) struct Use {
    pub(crate) part: u32,
    pub(crate) label: u32,
    pub(crate) user: u32,
}

/// For each definition, those that have it as a part.
#[derive(Drop)]
pub(crate) struct Uses {
    /// By what is used.
    uses: Vec<Use>,
    /// For each definition the place of the first of its uses.
    starts: Vec<u32>,
}

impl Uses {
    /// The uses of all definitions of a list. A part that is past its end is left out.
    pub(crate) fn of(alloc: Global, nodes: &[TypeNode]) -> Result<Uses, NoMemory> {
        let mut uses = Vec::new(alloc);
        for place in 0..nodes.len() {
            let parts = parts_at(alloc, nodes, place)?;
            add_uses(&mut uses, place_number(place)?, &parts, nodes.len())?;
        }
        uses.sort()?;
        let starts = starts_of(alloc, &uses, nodes.len())?;
        Ok(Uses { uses, starts })
    }

    /// Adds the uses of a definition to a list.
    pub(crate) fn add_to(&self, node: u32, list: &mut Vec<Use>) -> Result<(), NoMemory> {
        for place in self.start(node)..self.start(node.saturating_add(1)) {
            if let Some(at) = self.uses.get(place as usize) {
                list.push(*at)?;
            }
        }
        Ok(())
    }

    fn start(&self, node: u32) -> u32 {
        match self.starts.get(node as usize) {
            Some(start) => *start,
            None => 0,
        }
    }
}

fn add_uses(uses: &mut Vec<Use>, user: u32, parts: &[usize], count: usize) -> Result<(), NoMemory> {
    for (label, part) in parts.iter().enumerate() {
        if *part < count {
            uses.push(Use {
                part: place_number(*part)?,
                label: place_number(label)?,
                user,
            })?;
        }
    }
    Ok(())
}

/// For each of so many definitions the place of the first of its uses in the sorted list, and behind them
/// the length of the list.
fn starts_of(alloc: Global, uses: &[Use], count: usize) -> Result<Vec<u32>, NoMemory> {
    let mut starts = Vec::new(alloc);
    for (place, at) in uses.iter().enumerate() {
        pad(&mut starts, at.part as usize, place_number(place)?)?;
    }
    pad(&mut starts, count, place_number(uses.len())?)?;
    Ok(starts)
}

/// Makes the list so long that it has an item at a place.
fn pad(starts: &mut Vec<u32>, place: usize, item: u32) -> Result<(), NoMemory> {
    for _ in starts.len()..place.saturating_add(1) {
        starts.push(item)?;
    }
    Ok(())
}
