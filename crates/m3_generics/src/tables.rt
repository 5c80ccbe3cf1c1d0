use m3_base::NoMemory;
use m3_syntax::{Unit, UnitKind};
use std::alloc::Global;
use std::collections::{HashMap, HashSet};

/// The units of a program that instances speak of, by their names. Of two with one name the first
/// counts; the linker refuses the later one.
#[derive(Drop)]
pub struct Tables<'a> {
    interfaces: HashSet<&'a [u8]>,
    generic_interfaces: HashMap<&'a [u8], usize>,
    generic_modules: HashMap<&'a [u8], usize>,
}

/// The interfaces that every program has.
const BUILT_IN: [&[u8]; 5] = [b"Main", b"IO", b"Text", b"Word", b"Thread"];

impl<'a> Tables<'a> {
    pub fn new(alloc: Global, units: &[Unit<'a>]) -> Result<Tables<'a>, NoMemory> {
        let mut tables = Tables {
            interfaces: HashSet::new(alloc),
            generic_interfaces: HashMap::new(alloc),
            generic_modules: HashMap::new(alloc),
        };
        for name in BUILT_IN {
            tables.interfaces.insert(name)?;
        }
        for (place, unit) in units.iter().enumerate() {
            tables.add(place, unit)?;
        }
        Ok(tables)
    }

    fn add(&mut self, place: usize, unit: &Unit<'a>) -> Result<(), NoMemory> {
        let name = unit.name.text;
        match unit.kind {
            UnitKind::Interface | UnitKind::InterfaceInstance { .. } => {
                self.interfaces.insert(name)?;
            }
            UnitKind::GenericInterface { .. } => {
                if !self.generic_interfaces.contains_key(&name) {
                    self.generic_interfaces.insert(name, place)?;
                }
            }
            UnitKind::GenericModule { .. } => {
                if !self.generic_modules.contains_key(&name) {
                    self.generic_modules.insert(name, place)?;
                }
            }
            UnitKind::Module { .. } | UnitKind::ModuleInstance { .. } => {}
        }
        Ok(())
    }

    /// Whether an interface has this name.
    pub fn is_interface(&self, name: &'a [u8]) -> bool {
        self.interfaces.contains(&name)
    }

    /// The place of the generic interface of this name in the list of units.
    pub fn generic_interface(&self, name: &'a [u8]) -> Option<usize> {
        self.generic_interfaces.get(&name).copied()
    }

    /// The place of the generic module of this name in the list of units.
    pub fn generic_module(&self, name: &'a [u8]) -> Option<usize> {
        self.generic_modules.get(&name).copied()
    }
}
