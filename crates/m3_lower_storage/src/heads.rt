use crate::variables::{Room, VarPlace};
use m3_base::Pos;
use m3_core::VarKind;
use m3_types::TypeId;

/// What is known of a procedure or a module body without its statements.
#[derive(Clone, Copy)]
pub struct Head<'a> {
    /// 0 for a procedure of the outermost scope of its unit, and 1 more inside each procedure.
    pub level: u32,
    /// The procedure around it.
    pub outer: Option<u32>,
    pub result: Option<TypeId>,
    /// The places of the exceptions that it may raise, rising; none where it may raise any.
    pub raises: Option<&'a [u32]>,
    /// The place of its first token, where the fault Raises is reported.
    pub pos: Pos,
    /// The place of its END, where the fault NoReturn is reported.
    pub end: Pos,
    /// How many formals it has.
    pub formals: u32,
    /// How many variables it has, its formals among them.
    pub variables: u32,
    /// The place of its first variable among those of all procedures.
    pub(crate) first: u32,
    /// The slots and temporaries that its variables take.
    pub room: Room,
}

/// A variable of a procedure.
#[derive(Clone, Copy)]
pub struct Variable {
    pub kind: VarKind,
    pub place: VarPlace,
    /// Its place among the shown variables of its procedure, if it is one of these.
    pub shown: Option<u32>,
    /// Its address is taken, or a procedure inside its own reaches it.
    pub is_shared: bool,
    /// A formal that is written.
    pub is_written: bool,
}
