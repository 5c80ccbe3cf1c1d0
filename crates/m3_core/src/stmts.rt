use crate::calls::BuiltinCall;
use crate::chains::Chain;
use crate::exprs::CoreExpr;
use m3_base::Pos;
use m3_types::TypeId;

/// A checked statement. `pos` is the place of its first token. A variable is one of the procedure's
/// own, by its place in its formals and locals.
#[cycle(statements)]
#[derive(Clone, Copy)]
pub enum CoreStmt<'a> {
    /// Fixes the target, evaluates the value with its checks, compares the shapes where
    /// `checks_shape` (Shape at the value's place), and writes. Values are copied as if wholly read
    /// first.
    Assign {
        pos: Pos,
        target: &'a Chain<'a>,
        value: &'a CoreExpr<'a>,
        checks_shape: bool,
    },
    /// A chain that ends in a call without result.
    Call {
        pos: Pos,
        call: &'a Chain<'a>,
    },
    /// A routine without result.
    Builtin {
        pos: Pos,
        call: &'a BuiltinCall<'a>,
    },
    /// INC or DEC: fixes the target, evaluates the amount (1 where none is written), reads,
    /// computes (Overflow at `pos`), checks the target's type (Range at `pos`), and writes.
    Change {
        pos: Pos,
        is_decrement: bool,
        target: &'a Chain<'a>,
        amount: Option<&'a CoreExpr<'a>>,
    },
    /// Makes the variables with their defaults, stores the initial values in order, and runs the
    /// body. The block of a module itself makes none.
    Block {
        pos: Pos,
        variables: &'a [u32],
        initial: &'a [CoreStmt<'a>],
        body: &'a [CoreStmt<'a>],
    },
    /// Runs the branch with the value's label, else the ELSE, else faults with NoCase at `pos`.
    Case {
        pos: Pos,
        value: &'a CoreExpr<'a>,
        branches: &'a [CaseBranch<'a>],
        otherwise: Else<'a>,
    },
    /// Leaves the innermost loop.
    Exit {
        pos: Pos,
    },
    Eval {
        pos: Pos,
        value: &'a CoreExpr<'a>,
    },
    /// Evaluates first, last and step (1 where none is written) once. Each turn has a new variable,
    /// and its end is a point.
    For {
        pos: Pos,
        variable: u32,
        first: &'a CoreExpr<'a>,
        last: &'a CoreExpr<'a>,
        step: Option<&'a CoreExpr<'a>>,
        body: &'a [CoreStmt<'a>],
    },
    /// IF with its ELSIFs.
    If {
        pos: Pos,
        arms: &'a [Arm<'a>],
        otherwise: Else<'a>,
    },
    /// The end of a turn is a point.
    Loop {
        pos: Pos,
        body: &'a [CoreStmt<'a>],
    },
    /// Raises an exception, by its place in the program's list.
    Raise {
        pos: Pos,
        exception: u32,
        argument: Option<&'a CoreExpr<'a>>,
    },
    /// The end of a turn is a point, before the test.
    Repeat {
        pos: Pos,
        body: &'a [CoreStmt<'a>],
        condition: &'a CoreExpr<'a>,
    },
    Return {
        pos: Pos,
        value: Option<&'a CoreExpr<'a>>,
    },
    /// The first handler of an exception that leaves the body runs; the ELSE handles every other
    /// way of leaving it too, RETURN and EXIT included.
    TryExcept {
        pos: Pos,
        body: &'a [CoreStmt<'a>],
        handlers: &'a [Handler<'a>],
        otherwise: Else<'a>,
    },
    /// `last` runs whatever way the body ends; if it ends otherwise than normally, that counts
    /// instead.
    TryFinally {
        pos: Pos,
        body: &'a [CoreStmt<'a>],
        last: &'a [CoreStmt<'a>],
    },
    /// Runs the first branch with a type of the value (NIL has each reference type), else the ELSE,
    /// else faults with NoTypecase at `pos`.
    TypeCase {
        pos: Pos,
        value: &'a CoreExpr<'a>,
        branches: &'a [TypeBranch<'a>],
        otherwise: Else<'a>,
    },
    /// The end of a turn is a point.
    While {
        pos: Pos,
        condition: &'a CoreExpr<'a>,
        body: &'a [CoreStmt<'a>],
    },
    /// Binds the names in order, each seeing those before it. Each binding is a node of its own.
    With {
        pos: Pos,
        bindings: &'a [WithBinding<'a>],
        body: &'a [CoreStmt<'a>],
    },
}

/// The values of a label of CASE, from the first to the last; none where the last is less.
#[derive(Clone, Copy)]
pub struct LabelRange {
    pub first: i64,
    pub last: i64,
}

#[cycle(statements)]
#[derive(Clone, Copy)]
pub struct CaseBranch<'a> {
    pub ranges: &'a [LabelRange],
    pub body: &'a [CoreStmt<'a>],
}

/// The statements behind ELSE: none where no ELSE is written.
#[cycle(statements)]
#[derive(Clone, Copy)]
pub struct Else<'a> {
    pub is_written: bool,
    pub body: &'a [CoreStmt<'a>],
}

#[cycle(statements)]
#[derive(Clone, Copy)]
pub struct Arm<'a> {
    pub condition: &'a CoreExpr<'a>,
    pub body: &'a [CoreStmt<'a>],
}

/// A handler, with the variable that gets the exception's argument.
#[cycle(statements)]
#[derive(Clone, Copy)]
pub struct Handler<'a> {
    pub exceptions: &'a [u32],
    pub variable: Option<u32>,
    pub body: &'a [CoreStmt<'a>],
}

/// A branch of TYPECASE, with the variable that gets the value.
#[cycle(statements)]
#[derive(Clone, Copy)]
pub struct TypeBranch<'a> {
    pub types: &'a [TypeId],
    pub variable: Option<u32>,
    pub body: &'a [CoreStmt<'a>],
}

/// A name of WITH: it stands for a place, or for a new variable that holds a value.
#[derive(Clone, Copy)]
pub struct WithBinding<'a> {
    pub variable: u32,
    pub bound: Bound<'a>,
}

#[derive(Clone, Copy)]
pub enum Bound<'a> {
    Place(&'a Chain<'a>),
    Value(&'a CoreExpr<'a>),
}
