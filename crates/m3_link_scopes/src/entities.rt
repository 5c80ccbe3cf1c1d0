use crate::predeclared::Predeclared;
use m3_base::Pos;

/// What a name stands for, by its place in the program's list.
#[derive(Clone, Copy, PartialEq, Eq, PartialOrd, Ord, Hash)]
pub struct EntityId(pub u32);

/// What a name stands for.
#[derive(Clone, Copy)]
pub struct Entity<'a> {
    /// The unit that declares it, by its place in the program's units.
    pub unit: u32,
    pub name: &'a [u8],
    /// The place of its name where it is declared.
    pub pos: Pos,
    pub kind: EntityKind,
    /// What declares it, by its place in the program's list. None for a name that an import or a
    /// statement makes.
    pub declaration: Option<u32>,
    /// Whether it is a procedure that is declared with a body.
    pub has_body: bool,
    /// The procedure around it; none at the outermost scope of a unit.
    pub procedure: Option<EntityId>,
    /// Whether the outermost scope of its unit declares it.
    pub is_outermost: bool,
    /// Of a procedure's head in an interface: the procedure of a module that is its body.
    pub body: Option<EntityId>,
    /// Of an opaque type: the full revelation, by its place in the program's list.
    pub revealed: Option<u32>,
}

#[derive(Clone, Copy, PartialEq, Eq)]
pub enum EntityKind {
    Constant,
    Type,
    Opaque,
    Exception,
    Variable,
    Procedure,
    Formal,
    /// The variable of a FOR.
    For,
    /// A name of a WITH.
    With,
    /// The variable of a handler.
    Handler,
    /// The variable of a branch of TYPECASE.
    TypeCase,
    /// An imported interface, by its place in the program's units.
    Import(u32),
    /// A name that stands for nothing, since its refusal was noted.
    Unknown,
    Predeclared(Predeclared),
}
