use crate::chains::Chain;
use crate::exprs::CoreExpr;
use m3_base::Pos;
use m3_types::TypeId;

/// An actual, in the order of evaluation: as written, and behind these the defaults. `formal` is
/// the place of its formal in the signature, from 0, and `kind` the formal's type.
#[cycle(expressions)]
#[derive(Clone, Copy)]
pub enum Actual<'a> {
    /// The value goes into a new variable: a VALUE formal, or what a READONLY formal then stands
    /// for. Where a VALUE formal is an open array and the value ends in a read, the place that is
    /// read stays fixed until the array is copied.
    Value {
        formal: u32,
        kind: TypeId,
        value: &'a CoreExpr<'a>,
    },
    /// The formal stands for the place, which is an array of the formal's shape: where
    /// `checks_shape`, it faults with Shape at the place's first token if it isn't.
    Place {
        formal: u32,
        kind: TypeId,
        place: &'a Chain<'a>,
        checks_shape: bool,
    },
}

/// A call of a routine of a built-in interface, or of a predeclared function that computes from
/// values alone. The actuals stand in the order of the formals, and `order` names them in the order
/// of evaluation. Each check comes right behind the parts that it needs. `kind` is none where the
/// routine gives no result.
#[cycle(expressions)]
#[derive(Clone, Copy)]
pub struct BuiltinCall<'a> {
    pub pos: Pos,
    pub routine: Routine,
    pub actuals: &'a [CoreExpr<'a>],
    pub order: &'a [u32],
    pub kind: Option<TypeId>,
}

/// The routines of the built-in interfaces, and behind them the predeclared functions MIN, MAX, ORD
/// and VAL, which alone pass no point.
#[derive(Clone, Copy, PartialEq, Eq)]
pub enum Routine {
    Put,
    PutInt,
    PutChar,
    GetChar,
    EndOfInput,
    TextCat,
    TextEqual,
    TextGetChar,
    TextLength,
    TextEmpty,
    TextSub,
    TextFromChar,
    WordPlus,
    WordTimes,
    WordMinus,
    WordDivide,
    WordMod,
    WordLess,
    WordLessEqual,
    WordGreater,
    WordGreaterEqual,
    WordAnd,
    WordOr,
    WordXor,
    WordNot,
    WordShift,
    WordRotate,
    Fork,
    Join,
    Wait,
    Acquire,
    Release,
    Signal,
    Broadcast,
    MySelf,
    Alert,
    TestAlert,
    AlertWait,
    AlertJoin,
    Min,
    Max,
    Ord,
    Val,
}
