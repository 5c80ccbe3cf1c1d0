use m3_base::NoMemory;
use m3_core::Value;
use m3_lower_objects::parent_of;
use m3_lower_storage::Storage;
use m3_types::{ConstId, ConstValue, Initial, Method, Override, TypeId, TypeNode};
use std::alloc::Global;

/// A table of methods: their names, and what each is bound to.
#[derive(Drop)]
struct Table<'a> {
    names: Vec<&'a [u8]>,
    /// The number of a procedure in the image and 1 more, or 0 for NIL.
    codes: Vec<u32>,
}

impl<'a> Table<'a> {
    fn new(alloc: Global) -> Table<'a> {
        Table {
            names: Vec::new(alloc),
            codes: Vec::new(alloc),
        }
    }

    fn inherit(&mut self, above: &Table<'a>) -> Result<(), NoMemory> {
        for name in &above.names {
            self.names.push(*name)?;
        }
        self.codes.extend_from_slice(&above.codes)?;
        Ok(())
    }

    /// Binds the newest method of each name anew. Of two overrides of one name the first counts.
    fn override_all(&mut self, storage: &Storage, overrides: &[Override]) {
        for again in overrides.iter().rev() {
            if let Some(place) = newest(&self.names, again.name)
                && let Some(code) = self.codes.get_mut(place)
            {
                *code = constant_code(storage, again.value);
            }
        }
    }

    fn add_methods(&mut self, storage: &Storage, methods: &[Method<'a>]) -> Result<(), NoMemory> {
        for method in methods {
            self.names.push(method.name)?;
            self.codes.push(bound_to(storage, method.default))?;
        }
        Ok(())
    }
}

/// The last place of a name.
fn newest(names: &[&[u8]], name: &[u8]) -> Option<usize> {
    let mut found = None;
    for (place, other) in names.iter().enumerate() {
        if *other == name {
            found = Some(place);
        }
    }
    found
}

/// The table of methods of each cell type, by its number from 2 on.
#[derive(Drop)]
pub(crate) struct Tables<'a> {
    tables: Vec<Table<'a>>,
}

impl<'a> Tables<'a> {
    /// The tables of all cell types. A type stands behind its parent.
    pub(crate) fn of(alloc: Global, storage: &Storage<'a>) -> Result<Tables<'a>, NoMemory> {
        let mut tables = Tables {
            tables: Vec::new(alloc),
        };
        for kind in storage.cells.types() {
            tables.add_table(alloc, storage, *kind)?;
        }
        Ok(tables)
    }

    /// The table of a cell type, by its number.
    fn table(&self, number: u32) -> Option<&Table<'a>> {
        match number.checked_sub(2) {
            Some(place) => self.tables.get(place as usize),
            None => None,
        }
    }

    /// What the methods of a cell type are bound to, by its number.
    pub(crate) fn codes(&self, alloc: Global, number: u32) -> Result<Vec<u32>, NoMemory> {
        match self.table(number) {
            Some(table) => Ok(Vec::from_slice(alloc, &table.codes)?),
            None => Ok(Vec::new(alloc)),
        }
    }

    fn add_table(
        &mut self,
        alloc: Global,
        storage: &Storage<'a>,
        kind: TypeId,
    ) -> Result<(), NoMemory> {
        let mut table = Table::new(alloc);
        if let TypeNode::Object(_, _, _, methods, overrides) = storage.node(kind) {
            if let Some(number) = parent_number(storage, kind)
                && let Some(above) = self.table(number)
            {
                table.inherit(above)?;
            }
            table.override_all(storage, overrides);
            table.add_methods(storage, methods)?;
        }
        self.tables.push(table)?;
        Ok(())
    }
}

/// The number of the cells of an object type's parent.
fn parent_number(storage: &Storage, kind: TypeId) -> Option<u32> {
    let types = storage.types;
    match parent_of(types, kind) {
        Some(parent) => storage.cells.number(types, parent),
        None => None,
    }
}

/// What the default of a method is bound to.
fn bound_to(storage: &Storage, default: Option<Initial>) -> u32 {
    let Some(default) = default else {
        return 0;
    };
    match storage.values.get(default.source as usize) {
        Some(Value::Procedure(procedure)) => code_of(*procedure),
        _ => constant_code(storage, default.value),
    }
}

fn code_of(procedure: u32) -> u32 {
    procedure.saturating_add(3)
}

fn constant_code(storage: &Storage, constant: ConstId) -> u32 {
    match storage.types.graph.nodes.get(constant.0 as usize) {
        Some(TypeNode::Constant(ConstValue::Procedure(procedure))) => code_of(*procedure),
        _ => 0,
    }
}
