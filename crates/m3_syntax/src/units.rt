use crate::names::Name;
use crate::statements::{Block, Decl, Stmt};
use bumpalo::Bump;
use m3_base::Pos;

/// What an arena keeps for a unit. The box ends what the prover counts of a type that holds units: all
/// fields that its references lead to.
pub type Kept<'a, T> = &'a Box<T, &'a Bump>;

/// A unit (the report, section 2.5): a file's whole text. Its place is that of its first token, and
/// `closing` is the name behind its last END. The block of an interface has declarations alone; an
/// instance has no imports, and nothing in its block.
#[derive(Clone, Copy)]
pub struct Unit<'a> {
    pub pos: Pos,
    pub is_unsafe: bool,
    pub name: Name<'a>,
    pub kind: UnitKind<'a>,
    pub imports: &'a [Import<'a>],
    pub block: Kept<'a, Block<'a>>,
    pub closing: Name<'a>,
    /// How many tokens its file has.
    pub tokens: u32,
}

/// What a unit is. A module without EXPORTS exports the interface of its own name.
#[derive(Clone, Copy)]
pub enum UnitKind<'a> {
    Interface,
    /// `INTERFACE I = G(A1, A2) END I.`
    InterfaceInstance {
        generic: Name<'a>,
        actuals: &'a [Name<'a>],
    },
    Module {
        exports: Option<&'a [Name<'a>]>,
    },
    /// `MODULE M = G(A1, A2) END M.`
    ModuleInstance {
        exports: Option<&'a [Name<'a>]>,
        generic: Name<'a>,
        actuals: &'a [Name<'a>],
    },
    GenericInterface {
        formals: &'a [Name<'a>],
    },
    GenericModule {
        formals: &'a [Name<'a>],
    },
}

impl<'a> Unit<'a> {
    /// Its declarations.
    pub fn declarations(&self) -> &'a [Decl<'a>] {
        self.block.declarations
    }

    /// The statements of a module's body; none of another unit.
    pub fn statements(&self) -> &'a [Stmt<'a>] {
        self.block.body
    }
}

/// What a unit imports, by the place of the first word: interfaces, or names of one interface.
#[derive(Clone, Copy)]
pub enum Import<'a> {
    Interfaces {
        pos: Pos,
        items: &'a [ImportItem<'a>],
    },
    Names {
        pos: Pos,
        interface: Name<'a>,
        names: &'a [Name<'a>],
    },
}

/// An imported interface, with the name that it has here where AS gives one.
#[derive(Clone, Copy)]
pub struct ImportItem<'a> {
    pub interface: Name<'a>,
    pub alias: Option<Name<'a>>,
}
