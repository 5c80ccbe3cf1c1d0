use m3_base::Pos;
use m3_core::{ExcDef, ProcDef, Text, Value, VarDef};
use m3_types::TypeId;

/// The lists of a checked program.
#[derive(Clone, Copy)]
pub struct Lists<'a> {
    pub procs: &'a [ProcDef<'a>],
    pub globals: &'a [VarDef<'a>],
    pub exceptions: &'a [ExcDef<'a>],
    pub texts: &'a [Text<'a>],
    pub order: &'a [u32],
    pub values: &'a [Value<'a>],
    pub files: &'a [&'a [u8]],
    pub alerted: u32,
    /// The number of the unit of each variable.
    pub units: &'a [u32],
    pub written: &'a [WrittenType],
}

/// A type expression that is more than a name: the number of its unit, its place, and its type.
#[derive(Clone, Copy)]
pub struct WrittenType {
    pub unit: u32,
    pub pos: Pos,
    pub kind: TypeId,
}
