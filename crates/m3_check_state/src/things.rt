use m3_base::Pos;
use m3_core::{Base, BuiltinCall, Chain, CoreExpr};
use m3_link_scopes::{EntityId, Predeclared};
use m3_syntax::{Kept, Name};
use m3_types::TypeId;

impl State {
    /// Whether it is a designator.
    pub fn is_designator(self) -> bool {
        match self {
            State::Place { is_designator, .. } => is_designator,
            State::Value => false,
        }
    }

    /// Whether it is a place that may be written.
    pub fn is_writable(self) -> bool {
        match self {
            State::Place { is_writable, .. } => is_writable,
            State::Value => false,
        }
    }
}

/// A value: its expression and its type.
#[derive(Clone, Copy)]
pub struct Valued<'a> {
    pub kept: Kept<'a, CoreExpr<'a>>,
    pub kind: TypeId,
    /// Whether it is what a formal or a name of WITH holds, which may be a procedure inside
    /// another.
    pub may_be_inner: bool,
}

impl<'a> Valued<'a> {
    /// The expression.
    pub fn core(&self) -> &'a CoreExpr<'a> {
        &**self.kept
    }
}

/// A chain in the making: its steps are those of the checker's list from `start` to `end`.
#[derive(Clone, Copy)]
pub struct Draft<'a> {
    pub pos: Pos,
    pub base: Kept<'a, Base<'a>>,
    pub start: usize,
    pub end: usize,
    pub state: State,
    pub kind: TypeId,
    pub may_be_inner: bool,
}

/// What a chain gives so far.
#[derive(Clone, Copy, PartialEq, Eq)]
pub enum State {
    /// A place; whether it may be written, and whether it is a designator or a part of a new
    /// variable that holds a value.
    Place {
        is_writable: bool,
        is_designator: bool,
    },
    Value,
}

/// A method of the object that a chain gives: the object type that declares it, its place there,
/// and its signature.
#[derive(Clone, Copy)]
pub struct Method<'a> {
    pub object: Draft<'a>,
    pub owner: TypeId,
    pub place: u32,
    pub signature: TypeId,
}

/// INC or DEC: the place that it changes, and the amount where one is written.
#[derive(Clone, Copy)]
pub struct Change<'a> {
    pub pos: Pos,
    pub is_decrement: bool,
    pub target: &'a Chain<'a>,
    pub amount: Option<&'a CoreExpr<'a>>,
}

/// What an operand is.
#[derive(Clone, Copy)]
pub enum Thing<'a> {
    /// Nothing: its refusal was noted.
    Bad,
    Value(Valued<'a>),
    Chain(Draft<'a>),
    Type(TypeId),
    /// A predeclared routine.
    Predeclared(Predeclared),
    /// A routine of a built-in interface.
    Routine(EntityId),
    Method(Method<'a>),
    /// An imported interface.
    Interface,
    Exception,
    /// A call without result.
    Call(Draft<'a>),
    Builtin(Kept<'a, BuiltinCall<'a>>),
    Change(Kept<'a, Change<'a>>),
}

/// An actual of a call or a part of a constructor: what it is, the place of its first token, its
/// name where it has one, and the place of the name of an inner procedure where it is nothing
/// else.
#[derive(Clone, Copy)]
pub struct Given<'a> {
    pub pos: Pos,
    pub name: Option<Name<'a>>,
    pub inner: Option<Pos>,
    pub thing: Thing<'a>,
}
