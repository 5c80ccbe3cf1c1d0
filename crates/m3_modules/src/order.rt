use crate::cycles::Reachability;
use m3_base::{NoMemory, place_number};
use m3_link_scopes::UnitInfo;
use std::alloc::Global;

/// The modules in the order in which their bodies run: next is always the earliest in command order
/// that has not run and whose awaited modules have run, and last the module that exports Main.
pub fn body_order(
    alloc: Global,
    infos: &[UnitInfo<'_>],
    main: Option<u32>,
) -> Result<Vec<u32>, NoMemory> {
    let depends = dependences(alloc, infos)?;
    let mut left = modules(alloc, infos, main)?;
    let mut order = Vec::new(alloc);
    for _ in 0..infos.len() {
        if let Some(place) = next_module(&depends, left.as_slice()) {
            if place < left.len() {
                order.push(left.remove(place))?;
            }
        }
    }
    if let Some(main) = main {
        order.push(main)?;
    }
    Ok(order)
}

/// The modules but the one that exports Main, in command order.
fn modules(alloc: Global, infos: &[UnitInfo<'_>], main: Option<u32>) -> Result<Vec<u32>, NoMemory> {
    let mut modules = Vec::new(alloc);
    for (place, info) in infos.iter().enumerate() {
        let unit = place_number(place)?;
        if !info.is_interface && main != Some(unit) {
            modules.push(unit)?;
        }
    }
    Ok(modules)
}

/// The place of the first module that waits for none of those that are left.
fn next_module(depends: &Reachability, left: &[u32]) -> Option<usize> {
    left.iter().position(|unit| {
        left.iter().all(|other| !depends.has(*unit, *other) || depends.has(*other, *unit))
    })
}

/// Which modules depend on which: a module on each that exports an interface which it uses, and on
/// what these depend on.
fn dependences(alloc: Global, infos: &[UnitInfo<'_>]) -> Result<Reachability, NoMemory> {
    let uses = uses(alloc, infos)?;
    let mut depends = Reachability::new(alloc, infos.len())?;
    for (place, info) in infos.iter().enumerate() {
        let module = place_number(place)?;
        for exported in &info.exports {
            add_users(&mut depends, &uses, infos, *exported, module)?;
        }
    }
    depends.close()?;
    Ok(depends)
}

/// Each module that uses an interface depends on one that exports it.
fn add_users(
    depends: &mut Reachability,
    uses: &Reachability,
    infos: &[UnitInfo<'_>],
    exported: u32,
    exporter: u32,
) -> Result<(), NoMemory> {
    for (place, info) in infos.iter().enumerate() {
        let user = place_number(place)?;
        if !info.is_interface && uses.has(user, exported) {
            depends.add(user, exporter);
        }
    }
    Ok(())
}

/// Which interfaces each unit uses: those that it imports or exports, and what these import.
fn uses(alloc: Global, infos: &[UnitInfo<'_>]) -> Result<Reachability, NoMemory> {
    let mut uses = Reachability::new(alloc, infos.len())?;
    for (place, info) in infos.iter().enumerate() {
        let unit = place_number(place)?;
        for other in &info.imports {
            uses.add(unit, *other);
        }
        for other in &info.exports {
            uses.add(unit, *other);
        }
    }
    uses.close()?;
    Ok(uses)
}
