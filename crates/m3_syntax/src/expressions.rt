use crate::names::{Mode, Name, Qualid, Raises, TypeName};
use m3_base::Pos;

/// An expression (the report, section 2.6). Its place is that of its first token. What stands in a row,
/// as operators of one level, selectors and prefix signs, is a list, so that no chain is deep. The parts
/// of a tree stand in the arena that it was read into.
#[cycle(expressions)]
#[derive(Clone, Copy)]
pub enum Expr<'a> {
    /// Operands with operators of one level between them, which group to the left.
    Operations {
        pos: Pos,
        first: &'a Expr<'a>,
        rest: &'a [Operation<'a>],
    },
    /// `NOT`, once or more, by the places of these words.
    Not {
        pos: Pos,
        words: &'a [Pos],
        operand: &'a Expr<'a>,
    },
    /// `+` and `-` before an operand, once or more, the outermost first.
    Signed {
        pos: Pos,
        signs: &'a [PrefixSign],
        operand: &'a Expr<'a>,
    },
    /// An operand with selectors behind it, at least one.
    Selected {
        pos: Pos,
        operand: &'a Expr<'a>,
        selectors: &'a [Selector<'a>],
    },
    Name(Name<'a>),
    Number {
        pos: Pos,
        value: i64,
    },
    CharLit {
        pos: Pos,
        value: u8,
    },
    /// A text literal as it is written, with its marks and escapes.
    TextLit {
        pos: Pos,
        text: &'a [u8],
    },
    Parenthesis {
        pos: Pos,
        inner: &'a Expr<'a>,
    },
    /// A set, record or array of a type: `T {a, b, ..}`. `is_filled` tells that `..` ends it.
    Constructor {
        pos: Pos,
        kind: &'a TypeExp<'a>,
        brace: Pos,
        elements: &'a [Element<'a>],
        is_filled: bool,
    },
    /// Nothing: it stands only in what was read past an error, which no caller is given.
    Missing {
        pos: Pos,
    },
}

impl Expr<'_> {
    /// The place of its first token.
    pub fn pos(&self) -> Pos {
        match self {
            Expr::Name(name) => name.pos,
            Expr::Operations { pos, .. }
            | Expr::Not { pos, .. }
            | Expr::Signed { pos, .. }
            | Expr::Selected { pos, .. }
            | Expr::Number { pos, .. }
            | Expr::CharLit { pos, .. }
            | Expr::TextLit { pos, .. }
            | Expr::Parenthesis { pos, .. }
            | Expr::Constructor { pos, .. }
            | Expr::Missing { pos } => *pos,
        }
    }
}

/// The operators between two operands.
#[derive(Clone, Copy, PartialEq, Eq)]
pub enum Operator {
    Or,
    And,
    Equal,
    NotEqual,
    Less,
    LessEqual,
    Greater,
    GreaterEqual,
    In,
    Plus,
    Minus,
    Concatenate,
    Times,
    /// `/`, the symmetric difference of sets.
    Slash,
    Div,
    Mod,
}

/// An operator with its place and its right operand.
#[cycle(expressions)]
#[derive(Clone, Copy)]
pub struct Operation<'a> {
    pub operator: Operator,
    pub pos: Pos,
    pub right: &'a Expr<'a>,
}

/// A sign before an operand, and whether it is a minus.
#[derive(Clone, Copy)]
pub struct PrefixSign {
    pub pos: Pos,
    pub is_minus: bool,
}

/// What selects a part of the operand before it, or calls it.
#[cycle(expressions)]
#[derive(Clone, Copy)]
pub enum Selector<'a> {
    /// `^`
    Dereference(Pos),
    /// `.name`, by the name.
    Member(Name<'a>),
    /// `[a, b]`, by the place of its bracket.
    Index(Pos, &'a [Expr<'a>]),
    /// `(a, b)`, by the place of its parenthesis.
    Call(Pos, &'a [Actual<'a>]),
}

/// An actual of a call. What is both an expression and a type is an expression.
#[cycle(expressions)]
#[derive(Clone, Copy)]
pub enum Actual<'a> {
    Value(&'a Expr<'a>),
    Named(Name<'a>, &'a Expr<'a>),
    Type(&'a TypeExp<'a>),
}

/// An element of a constructor.
#[cycle(expressions)]
#[derive(Clone, Copy)]
pub enum Element<'a> {
    Value(&'a Expr<'a>),
    Range(&'a Expr<'a>, &'a Expr<'a>),
    Named(Name<'a>, &'a Expr<'a>),
}

/// A type expression (the report, section 2.2). Its place is that of its first token.
#[cycle(expressions)]
#[derive(Clone, Copy)]
pub enum TypeExp<'a> {
    Named(TypeName<'a>),
    Parenthesis {
        pos: Pos,
        inner: &'a TypeExp<'a>,
    },
    /// An array by its index types, outermost first; without one it is open.
    Array {
        pos: Pos,
        indexes: &'a [TypeExp<'a>],
        element: &'a TypeExp<'a>,
    },
    Bits {
        pos: Pos,
        width: &'a Expr<'a>,
        target: &'a TypeExp<'a>,
    },
    Enumeration {
        pos: Pos,
        members: &'a [Name<'a>],
    },
    /// `P OBJECT .. END OBJECT .. END`: the parent where one is named, and then each part, at least one,
    /// of which each is the parent of the next.
    Object {
        pos: Pos,
        parent: Option<TypeName<'a>>,
        parts: &'a [ObjectPart<'a>],
    },
    Procedure {
        pos: Pos,
        signature: Signature<'a>,
    },
    Record {
        pos: Pos,
        fields: &'a [Field<'a>],
    },
    Ref {
        pos: Pos,
        is_untraced: bool,
        brand: Option<Brand<'a>>,
        target: &'a TypeExp<'a>,
    },
    Set {
        pos: Pos,
        base: &'a TypeExp<'a>,
    },
    Subrange {
        pos: Pos,
        first: &'a Expr<'a>,
        last: &'a Expr<'a>,
    },
    /// Nothing: it stands only in what was read past an error, which no caller is given.
    Missing {
        pos: Pos,
    },
}

impl TypeExp<'_> {
    /// The place of its first token.
    pub fn pos(&self) -> Pos {
        match self {
            TypeExp::Named(name) => name.pos(),
            TypeExp::Parenthesis { pos, .. }
            | TypeExp::Array { pos, .. }
            | TypeExp::Bits { pos, .. }
            | TypeExp::Enumeration { pos, .. }
            | TypeExp::Object { pos, .. }
            | TypeExp::Procedure { pos, .. }
            | TypeExp::Record { pos, .. }
            | TypeExp::Ref { pos, .. }
            | TypeExp::Set { pos, .. }
            | TypeExp::Subrange { pos, .. }
            | TypeExp::Missing { pos } => *pos,
        }
    }
}

/// `BRANDED`, with the text that brands, where one is written.
#[cycle(expressions)]
#[derive(Clone, Copy)]
pub struct Brand<'a> {
    pub pos: Pos,
    pub text: Option<&'a Expr<'a>>,
}

/// `OBJECT .. END` with its brand, by the place of its first token.
#[cycle(expressions)]
#[derive(Clone, Copy)]
pub struct ObjectPart<'a> {
    pub pos: Pos,
    pub brand: Option<Brand<'a>>,
    pub fields: &'a [Field<'a>],
    pub methods: &'a [Method<'a>],
    pub overrides: &'a [Override<'a>],
}

/// The type and the value that a declaration gives to its names: at least one of them.
#[cycle(expressions)]
#[derive(Clone, Copy)]
pub enum Init<'a> {
    Typed(&'a TypeExp<'a>, Option<&'a Expr<'a>>),
    Untyped(&'a Expr<'a>),
}

/// Fields of one type and default.
#[cycle(expressions)]
#[derive(Clone, Copy)]
pub struct Field<'a> {
    pub names: &'a [Name<'a>],
    pub init: Init<'a>,
}

/// A method with its signature, without the object itself, and its default.
#[cycle(expressions)]
#[derive(Clone, Copy)]
pub struct Method<'a> {
    pub name: Name<'a>,
    pub signature: Signature<'a>,
    pub default: Option<&'a Expr<'a>>,
}

/// `name := value` under OVERRIDES.
#[cycle(expressions)]
#[derive(Clone, Copy)]
pub struct Override<'a> {
    pub name: Name<'a>,
    pub value: &'a Expr<'a>,
}

/// Formals of one mode, type and default, by the place of their first token.
#[cycle(expressions)]
#[derive(Clone, Copy)]
pub struct Formal<'a> {
    pub pos: Pos,
    pub mode: Mode,
    pub names: &'a [Name<'a>],
    pub init: Init<'a>,
}

/// The formals, the result and the exceptions of a procedure, by the place of its parenthesis.
#[cycle(expressions)]
#[derive(Clone, Copy)]
pub struct Signature<'a> {
    pub pos: Pos,
    pub formals: &'a [Formal<'a>],
    pub result: Option<&'a TypeExp<'a>>,
    pub raises: Raises<'a>,
}
