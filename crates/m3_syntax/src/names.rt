use m3_base::Pos;

/// An identifier, as it stands in a source.
#[derive(Clone, Copy)]
pub struct Name<'a> {
    pub text: &'a [u8],
    pub pos: Pos,
}

/// A name, or a name of an interface with the interface's name before it: `x` or `I.x`.
#[derive(Clone, Copy)]
pub struct Qualid<'a> {
    pub first: Name<'a>,
    pub second: Option<Name<'a>>,
}

/// What names a type: a qualified name, `ROOT` or `UNTRACED ROOT`.
#[derive(Clone, Copy)]
pub enum TypeName<'a> {
    Named(Qualid<'a>),
    Root(Pos),
    UntracedRoot(Pos),
}

impl TypeName<'_> {
    /// The place of its first token.
    pub fn pos(self) -> Pos {
        match self {
            TypeName::Named(name) => name.first.pos,
            TypeName::Root(pos) | TypeName::UntracedRoot(pos) => pos,
        }
    }
}

/// The exceptions that a procedure may raise: `RAISES ANY`, or a set, which is empty where no RAISES
/// is written.
#[derive(Clone, Copy)]
pub enum Raises<'a> {
    Any,
    Only(&'a [Qualid<'a>]),
}

/// How a formal takes its actual. VALUE is the mode of a formal that names none.
#[derive(Clone, Copy, PartialEq, Eq)]
pub enum Mode {
    Value,
    Var,
    Readonly,
}
