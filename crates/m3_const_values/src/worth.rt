use m3_base::Pos;
use m3_core::Value;
use m3_link_scopes::{EntityId, Predeclared};
use m3_types::TypeId;

/// A broken rule, with its place.
#[derive(Clone, Copy, PartialEq, Eq, PartialOrd, Ord)]
pub struct Reason {
    pub pos: Pos,
    pub rule: u16,
}

impl Reason {
    /// The lesser of two reasons: that of the earlier place, and at one place of the lesser rule.
    pub fn first(self, other: Reason) -> Reason {
        if other < self { other } else { self }
    }
}

/// The value of an expression, or why it is no constant.
#[derive(Clone, Copy)]
pub enum Known<'a> {
    Value(Value<'a>),
    Varies(Reason),
}

/// What a well formed value is worth: its type and its value.
#[derive(Clone, Copy)]
pub struct Worth<'a> {
    pub kind: TypeId,
    pub value: Known<'a>,
    /// Whether it is a variable or a part of one that no reference leads to.
    pub is_fixed: bool,
}

/// What an operand is.
#[derive(Clone, Copy)]
pub enum Thing<'a> {
    /// Nothing: it breaks a rule, or lacks something.
    Bad,
    Value(Worth<'a>),
    Type(TypeId),
    Predeclared(Predeclared),
    /// A routine of a built-in interface.
    Routine(EntityId),
    /// A method of an object, by its signature.
    Method(TypeId),
    /// An imported interface.
    Interface(u32),
    /// A call without result, by its place.
    Nothing(Pos),
    /// An exception.
    Other,
}

impl Known<'_> {
    /// The reason why it is no constant, or one that is given.
    pub fn reason_or(self, pos: Pos, rule: u16) -> Reason {
        match self {
            Known::Varies(reason) => reason,
            Known::Value(_) => Reason { pos, rule },
        }
    }
}
