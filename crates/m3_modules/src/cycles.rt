use m3_base::{NoMemory, place_number, rules};
use m3_link_scopes::Linker;
use m3_syntax::{Import, Name, Unit};
use std::alloc::Global;

/// Which units lead to which, along any number of steps once it is closed.
#[derive(Drop)]
pub struct Reachability {
    rows: Vec<Vec<bool>>,
}

impl Reachability {
    /// No unit leads to any.
    pub fn new(alloc: Global, units: usize) -> Result<Reachability, NoMemory> {
        let mut rows = Vec::new(alloc);
        for _ in 0..units {
            rows.push(vec![in alloc; false; units]?)?;
        }
        Ok(Reachability { rows })
    }

    /// One unit leads to another by one step.
    pub fn add(&mut self, from: u32, to: u32) {
        if let Some(row) = self.rows.get_mut(from as usize) {
            if let Some(leads) = row.get_mut(to as usize) {
                *leads = true;
            }
        }
    }

    pub fn has(&self, from: u32, to: u32) -> bool {
        match self.rows.get(from as usize) {
            Some(row) => row.get(to as usize).copied().unwrap_or(false),
            None => false,
        }
    }

    /// Adds what several steps lead to: through each unit in turn.
    pub fn close(&mut self) -> Result<(), NoMemory> {
        for through in 0..self.rows.len() {
            let Some(onward) = self.rows.get(through) else {
                return Ok(());
            };
            let onward = onward.clone()?;
            self.extend(through, onward.as_slice());
        }
        Ok(())
    }

    /// Adds to the rows that lead to a unit what it leads to.
    fn extend(&mut self, through: usize, onward: &[bool]) {
        for row in self.rows.iter_mut() {
            if row.get(through).copied().unwrap_or(false) {
                join(row.as_mut_slice(), onward);
            }
        }
    }
}

fn join(row: &mut [bool], onward: &[bool]) {
    for (leads, also) in row.iter_mut().zip(onward) {
        if *also {
            *leads = true;
        }
    }
}

/// Refuses the first import that lies on a cycle of given interfaces (rule 22).
pub fn judge_imports<'a>(
    linker: &mut Linker<'a>,
    alloc: Global,
    units: &[Unit<'a>],
) -> Result<(), NoMemory> {
    let reach = import_reach(linker, alloc)?;
    for (place, unit) in units.iter().enumerate() {
        judge_unit(linker, &reach, unit, place)?;
    }
    Ok(())
}

fn is_given_interface(linker: &Linker<'_>, unit: u32) -> bool {
    match linker.infos.get(unit as usize) {
        Some(info) => info.is_interface && !info.is_built_in,
        None => false,
    }
}

/// What imports of given interfaces lead to.
fn import_reach(linker: &Linker<'_>, alloc: Global) -> Result<Reachability, NoMemory> {
    let mut reach = Reachability::new(alloc, linker.infos.len())?;
    for (place, info) in linker.infos.iter().enumerate() {
        if let Ok(from) = u32::try_from(place) {
            if is_given_interface(linker, from) {
                for to in &info.imports {
                    reach.add(from, *to);
                }
            }
        }
    }
    reach.close()?;
    Ok(reach)
}

fn judge_unit<'a>(
    linker: &mut Linker<'a>,
    reach: &Reachability,
    unit: &Unit<'a>,
    place: usize,
) -> Result<(), NoMemory> {
    linker.unit = place_number(place)?;
    if !is_given_interface(linker, linker.unit) {
        return Ok(());
    }
    for import in unit.imports {
        match import {
            Import::Interfaces { items, .. } => {
                for item in *items {
                    judge_import(linker, reach, item.interface);
                }
            }
            Import::Names { interface, .. } => judge_import(linker, reach, *interface),
        }
    }
    Ok(())
}

fn judge_import<'a>(linker: &mut Linker<'a>, reach: &Reachability, interface: Name<'a>) {
    let Some(target) = linker.interfaces.get(&interface.text).copied() else {
        return;
    };
    let is_cycle = target == linker.unit || reach.has(target, linker.unit);
    if is_cycle && is_given_interface(linker, target) {
        linker.note(interface.pos, rules::IMPORT_CYCLE);
    }
}
