use crate::memory::Memory;
use bumpalo::Bump;
use m3_core::{Arm, CaseBranch, CoreStmt, Handler, TypeBranch};
use std::alloc::Global;

/// Rows of one kind that are open, each inside the one before it. The innermost stands last.
#[derive(Drop)]
pub struct Open<'a, T> {
    pub items: Vec<T>,
    arena: &'a Bump,
}

impl<'a, T: Copy> Open<'a, T> {
    pub fn new(alloc: Global, arena: &'a Bump) -> Open<'a, T> {
        let items = Vec::new(alloc);
        Open { items, arena }
    }

    /// Adds a part to the innermost row.
    pub fn add(&mut self, memory: &mut Memory, part: T) {
        let added = self.items.push(part);
        memory.note(added.is_ok());
    }

    /// Closes the innermost row, which begins at a place, and gives it.
    pub fn close(&mut self, memory: &mut Memory, first: usize) -> &'a [T] {
        let row: &'a [T] = match self.items.get(first..) {
            Some(row) => match self.arena.try_alloc_slice_copy(row) {
                Ok(row) => &*row,
                Err(_) => {
                    memory.note(false);
                    &[]
                }
            },
            None => &[],
        };
        self.items.truncate(first);
        row
    }
}

/// What was checked of the statements that are open: the rows in them so far.
#[derive(Drop)]
pub struct Rows<'a> {
    pub statements: Open<'a, CoreStmt<'a>>,
    pub arms: Open<'a, Arm<'a>>,
    pub cases: Open<'a, CaseBranch<'a>>,
    pub types: Open<'a, TypeBranch<'a>>,
    pub handlers: Open<'a, Handler<'a>>,
}

/// Where the rows begin that a statement opens.
#[derive(Clone, Copy)]
pub struct Marks {
    pub statements: usize,
    pub arms: usize,
    pub cases: usize,
    pub types: usize,
    pub handlers: usize,
}

impl<'a> Rows<'a> {
    pub fn new(alloc: Global, arena: &'a Bump) -> Rows<'a> {
        Rows {
            statements: Open::new(alloc, arena),
            arms: Open::new(alloc, arena),
            cases: Open::new(alloc, arena),
            types: Open::new(alloc, arena),
            handlers: Open::new(alloc, arena),
        }
    }

    /// Where rows begin that are opened here.
    pub fn marks(&self) -> Marks {
        Marks {
            statements: self.statements.items.len(),
            arms: self.arms.items.len(),
            cases: self.cases.items.len(),
            types: self.types.items.len(),
            handlers: self.handlers.items.len(),
        }
    }
}
