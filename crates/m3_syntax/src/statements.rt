use crate::expressions::{Actual, Expr, Init, Signature, TypeExp};
use crate::names::{Name, Qualid};
use m3_base::Pos;

/// A statement (the report, section 2.3). Its place is that of its first token.
#[cycle(statements)]
#[derive(Clone, Copy)]
pub enum Stmt<'a> {
    Assign {
        pos: Pos,
        target: &'a Expr<'a>,
        value: &'a Expr<'a>,
    },
    /// A call, with the place of its parenthesis.
    Call {
        pos: Pos,
        callee: &'a Expr<'a>,
        parenthesis: Pos,
        actuals: &'a [Actual<'a>],
    },
    Block(Block<'a>),
    Case {
        pos: Pos,
        value: &'a Expr<'a>,
        branches: &'a [CaseBranch<'a>],
        otherwise: Else<'a>,
    },
    Exit {
        pos: Pos,
    },
    Eval {
        pos: Pos,
        value: &'a Expr<'a>,
    },
    For {
        pos: Pos,
        name: Name<'a>,
        first: &'a Expr<'a>,
        last: &'a Expr<'a>,
        step: Option<&'a Expr<'a>>,
        body: &'a [Stmt<'a>],
    },
    /// IF with each of its ELSIFs, at least one arm.
    If {
        pos: Pos,
        arms: &'a [Arm<'a>],
        otherwise: Else<'a>,
    },
    Lock {
        pos: Pos,
        mutex: &'a Expr<'a>,
        body: &'a [Stmt<'a>],
    },
    Loop {
        pos: Pos,
        body: &'a [Stmt<'a>],
    },
    Raise {
        pos: Pos,
        exception: Qualid<'a>,
        argument: Option<&'a Expr<'a>>,
    },
    Repeat {
        pos: Pos,
        body: &'a [Stmt<'a>],
        condition: &'a Expr<'a>,
    },
    Return {
        pos: Pos,
        value: Option<&'a Expr<'a>>,
    },
    TryExcept {
        pos: Pos,
        body: &'a [Stmt<'a>],
        handlers: &'a [Handler<'a>],
        otherwise: Else<'a>,
    },
    TryFinally {
        pos: Pos,
        body: &'a [Stmt<'a>],
        last: &'a [Stmt<'a>],
    },
    TypeCase {
        pos: Pos,
        value: &'a Expr<'a>,
        branches: &'a [TypeBranch<'a>],
        otherwise: Else<'a>,
    },
    While {
        pos: Pos,
        condition: &'a Expr<'a>,
        body: &'a [Stmt<'a>],
    },
    With {
        pos: Pos,
        bindings: &'a [Binding<'a>],
        body: &'a [Stmt<'a>],
    },
}

/// Declarations with the statements that follow BEGIN, and the place of END.
#[cycle(statements)]
#[derive(Clone, Copy)]
pub struct Block<'a> {
    pub pos: Pos,
    pub declarations: &'a [Decl<'a>],
    pub body: &'a [Stmt<'a>],
    pub end: Pos,
}

/// A condition, behind IF or ELSIF, with its statements.
#[cycle(statements)]
#[derive(Clone, Copy)]
pub struct Arm<'a> {
    pub pos: Pos,
    pub condition: &'a Expr<'a>,
    pub body: &'a [Stmt<'a>],
}

/// The statements behind ELSE: none where no ELSE is written.
#[cycle(statements)]
#[derive(Clone, Copy)]
pub struct Else<'a> {
    pub is_written: bool,
    pub body: &'a [Stmt<'a>],
}

/// A branch of CASE.
#[cycle(statements)]
#[derive(Clone, Copy)]
pub struct CaseBranch<'a> {
    pub labels: &'a [Label<'a>],
    pub body: &'a [Stmt<'a>],
}

/// A label of CASE: one value, or all from the first to the last.
#[derive(Clone, Copy)]
pub struct Label<'a> {
    pub first: &'a Expr<'a>,
    pub last: Option<&'a Expr<'a>>,
}

/// A handler of TRY EXCEPT, with the name that its argument gets.
#[cycle(statements)]
#[derive(Clone, Copy)]
pub struct Handler<'a> {
    pub exceptions: &'a [Qualid<'a>],
    pub argument: Option<Name<'a>>,
    pub body: &'a [Stmt<'a>],
}

/// A branch of TYPECASE, with the name that the value gets in it.
#[cycle(statements)]
#[derive(Clone, Copy)]
pub struct TypeBranch<'a> {
    pub kinds: &'a [TypeExp<'a>],
    pub name: Option<Name<'a>>,
    pub body: &'a [Stmt<'a>],
}

/// `name = value` under WITH.
#[derive(Clone, Copy)]
pub struct Binding<'a> {
    pub name: Name<'a>,
    pub value: &'a Expr<'a>,
}

/// What one word declares (the report, section 2.4): a list of declarations behind CONST, TYPE,
/// EXCEPTION, VAR or REVEAL, or one procedure. Its place is that of the word.
#[cycle(statements)]
#[derive(Clone, Copy)]
pub enum Decl<'a> {
    Const {
        pos: Pos,
        constants: &'a [ConstDecl<'a>],
    },
    Type {
        pos: Pos,
        types: &'a [TypeDecl<'a>],
    },
    Exception {
        pos: Pos,
        exceptions: &'a [ExceptionDecl<'a>],
    },
    Var {
        pos: Pos,
        variables: &'a [VarDecl<'a>],
    },
    /// A procedure's head, and its body where one is written.
    Procedure {
        pos: Pos,
        name: Name<'a>,
        signature: Signature<'a>,
        body: Option<ProcedureBody<'a>>,
    },
    Reveal {
        pos: Pos,
        reveals: &'a [Revelation<'a>],
    },
}

#[derive(Clone, Copy)]
pub struct ConstDecl<'a> {
    pub name: Name<'a>,
    pub kind: Option<&'a TypeExp<'a>>,
    pub value: &'a Expr<'a>,
}

/// A type's name with its definition, or where it is opaque with its bound.
#[derive(Clone, Copy)]
pub struct TypeDecl<'a> {
    pub name: Name<'a>,
    pub is_opaque: bool,
    pub kind: &'a TypeExp<'a>,
}

#[derive(Clone, Copy)]
pub struct ExceptionDecl<'a> {
    pub name: Name<'a>,
    pub argument: Option<&'a TypeExp<'a>>,
}

/// Variables of one type and initial value.
#[derive(Clone, Copy)]
pub struct VarDecl<'a> {
    pub names: &'a [Name<'a>],
    pub init: Init<'a>,
}

/// A procedure's block, with the name behind its END.
#[cycle(statements)]
#[derive(Clone, Copy)]
pub struct ProcedureBody<'a> {
    pub block: Block<'a>,
    pub closing: Name<'a>,
}

/// What is revealed of an opaque type: itself, or where the reveal is partial a supertype.
#[derive(Clone, Copy)]
pub struct Revelation<'a> {
    pub name: Qualid<'a>,
    pub is_partial: bool,
    pub kind: &'a TypeExp<'a>,
}
