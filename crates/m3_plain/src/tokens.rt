use crate::plain::Arith;

/// What a token of the plain form is.
#[derive(Clone, Copy, PartialEq, Eq)]
pub enum Kind {
    Module,
    Main,
    Import,
    Io,
    Begin,
    End,
    PutInt,
    Semicolon,
    Dot,
    Open,
    Close,
    Operator(Arith),
    Literal(i64),
}

/// A token, and the line on which it stands, counted from 1.
#[derive(Clone, Copy, PartialEq, Eq)]
pub struct Token {
    pub kind: Kind,
    pub line: u32,
}
