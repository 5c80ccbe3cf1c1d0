use crate::memory::Memory;
use crate::rows::{Marks, Rows};
use m3_check_bodies::{Body, Procedures};
use m3_check_state::Checker;
use m3_core::CoreStmt;
use m3_types::TypeId;

/// What walks over the statements of a program: what checks the expressions in them, the body in
/// which they stand, and the procedures that were checked.
#[derive(Drop)]
pub struct Walk<'p, 'a> {
    pub checker: Checker<'p, 'a>,
    pub body: Body<'a>,
    /// The bodies around it, the innermost last.
    around: Vec<Body<'a>>,
    pub procedures: Procedures<'a>,
    pub memory: Memory,
    pub rows: Rows<'a>,
}

impl<'p, 'a> Walk<'p, 'a> {
    /// A walk outside all bodies.
    pub fn new(checker: Checker<'p, 'a>) -> Walk<'p, 'a> {
        let body = Body::new(&checker, 0, None);
        let around = Vec::new(checker.alloc);
        let procedures = Vec::new(checker.alloc);
        let rows = Rows::new(checker.alloc, checker.arena);
        Walk {
            checker,
            body,
            around,
            procedures,
            memory: Memory::new(),
            rows,
        }
    }

    /// Goes into the body of a procedure.
    pub fn enter(&mut self, number: u32, due: Option<TypeId>) {
        let body = Body::new(&self.checker, number, due);
        let around = std::mem::replace(&mut self.body, body);
        let added = self.around.push(around);
        self.memory.note(added.is_ok());
    }

    /// Goes back to the body around, and gives the one that is left.
    pub fn leave(&mut self) -> Body<'a> {
        let around = match self.around.pop() {
            Some(around) => around,
            None => Body::new(&self.checker, 0, None),
        };
        std::mem::replace(&mut self.body, around)
    }

    /// Where rows begin that are opened here.
    pub fn marks(&self) -> Marks {
        self.rows.marks()
    }

    /// Adds a statement to the innermost row.
    pub fn put(&mut self, checked: CoreStmt<'a>) {
        self.rows.statements.add(&mut self.memory, checked);
    }

    /// Closes the innermost row of statements, which begins where `marks` says, and gives it.
    pub fn close(&mut self, marks: &Marks) -> &'a [CoreStmt<'a>] {
        self.rows
            .statements
            .close(&mut self.memory, marks.statements)
    }
}
