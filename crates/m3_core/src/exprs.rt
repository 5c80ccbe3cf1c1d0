use crate::calls::BuiltinCall;
use crate::chains::Chain;
use crate::values::ValueId;
use m3_base::Pos;
use m3_types::TypeId;

/// A checked expression. `pos` is the place of its first token, and `kind` its type.
#[cycle(expressions)]
#[derive(Clone, Copy)]
pub enum CoreExpr<'a> {
    /// A value of an ordinal type, by its number.
    Number {
        pos: Pos,
        kind: TypeId,
        value: i64,
    },
    /// The cell of a text of the program, by its place in the program's texts.
    Text {
        pos: Pos,
        kind: TypeId,
        text: u32,
    },
    /// NIL, of a reference or procedure type.
    Nil {
        pos: Pos,
        kind: TypeId,
    },
    /// A procedure of the outermost scope of a unit, by its number.
    Procedure {
        pos: Pos,
        kind: TypeId,
        procedure: u32,
    },
    /// A procedure inside another, with the activation around it at this moment.
    InnerProcedure {
        pos: Pos,
        kind: TypeId,
        procedure: u32,
    },
    /// A constant set, record or array, by its place in the program's constants.
    Constant {
        pos: Pos,
        kind: TypeId,
        value: ValueId,
    },
    /// What a chain gives, which is a value.
    Chain(&'a Chain<'a>),
    /// The call of a routine that gives a result.
    Builtin(&'a BuiltinCall<'a>),
    /// Operators before an operand in a row, at least one, the outermost first.
    Prefixed {
        pos: Pos,
        kind: TypeId,
        operators: &'a [Prefix],
        operand: &'a CoreExpr<'a>,
    },
    /// Operands with operators of one level between them, which group to the left; at least one.
    Operations {
        pos: Pos,
        first: &'a CoreExpr<'a>,
        rest: &'a [Operation<'a>],
    },
    /// The set of the elements, each in the set's base type.
    SetOf {
        pos: Pos,
        kind: TypeId,
        elements: &'a [SetElement<'a>],
    },
    /// The array of the elements in order. Where `is_filled`, the last stands for all that follow
    /// it. Rows of an open array type have one shape: it faults with Shape at the first that
    /// differs, right behind its evaluation.
    ArrayOf {
        pos: Pos,
        kind: TypeId,
        elements: &'a [CoreExpr<'a>],
        is_filled: bool,
    },
    /// The record of the fields, each once: as written, and behind these the defaults.
    RecordOf {
        pos: Pos,
        kind: TypeId,
        fields: &'a [FieldValue<'a>],
    },
    /// A new cell of type `made`: evaluates the sizes of its open dimensions (each faults with Size
    /// at its place where it is below 0), or the bindings, passes the point, makes the cell with
    /// its defaults, and stores the bindings.
    New {
        pos: Pos,
        kind: TypeId,
        made: TypeId,
        sizes: &'a [CoreExpr<'a>],
        bindings: &'a [Binding<'a>],
    },
    /// The value of the operand as one of type `kind`, with a check that faults at `pos`.
    Convert {
        pos: Pos,
        kind: TypeId,
        check: Conversion,
        operand: &'a CoreExpr<'a>,
    },
    /// Whether the referent of a value has a type (ISTYPE); NIL has each.
    TypeTest {
        pos: Pos,
        kind: TypeId,
        operand: &'a CoreExpr<'a>,
        tested: TypeId,
    },
    /// FIRST, LAST or NUMBER of an array, whose place is fixed.
    ArrayLimit {
        pos: Pos,
        kind: TypeId,
        limit: ArrayLimit,
        array: &'a Chain<'a>,
    },
}

impl CoreExpr<'_> {
    /// The place of its first token.
    pub fn pos(&self) -> Pos {
        match self {
            CoreExpr::Chain(chain) => chain.pos,
            CoreExpr::Builtin(call) => call.pos,
            CoreExpr::Number { pos, .. }
            | CoreExpr::Text { pos, .. }
            | CoreExpr::Nil { pos, .. }
            | CoreExpr::Procedure { pos, .. }
            | CoreExpr::InnerProcedure { pos, .. }
            | CoreExpr::Constant { pos, .. }
            | CoreExpr::Prefixed { pos, .. }
            | CoreExpr::Operations { pos, .. }
            | CoreExpr::SetOf { pos, .. }
            | CoreExpr::ArrayOf { pos, .. }
            | CoreExpr::RecordOf { pos, .. }
            | CoreExpr::New { pos, .. }
            | CoreExpr::Convert { pos, .. }
            | CoreExpr::TypeTest { pos, .. }
            | CoreExpr::ArrayLimit { pos, .. } => *pos,
        }
    }
}

/// An operator before an operand, with its place, where a minus or ABS faults with Overflow.
#[derive(Clone, Copy)]
pub struct Prefix {
    pub operator: PrefixOperator,
    pub pos: Pos,
}

#[derive(Clone, Copy, PartialEq, Eq)]
pub enum PrefixOperator {
    Not,
    Minus,
    Abs,
}

/// An operator with its place and its right operand, and the type of what it gives.
#[cycle(expressions)]
#[derive(Clone, Copy)]
pub struct Operation<'a> {
    pub operator: Operator,
    pub pos: Pos,
    pub right: &'a CoreExpr<'a>,
    pub kind: TypeId,
}

/// The operators between two operands. Those on integers fault with Overflow or DivZero at their
/// place.
#[derive(Clone, Copy, PartialEq, Eq)]
pub enum Operator {
    /// Evaluates the right operand only where the left one is FALSE.
    Or,
    /// Evaluates the right operand only where the left one is TRUE.
    And,
    Plus,
    Minus,
    Times,
    Div,
    Mod,
    Union,
    Difference,
    Intersection,
    SymmetricDifference,
    /// Passes a point and makes a new text; faults with Nil at the operand that is NIL, the left
    /// one before the right one is evaluated.
    Concatenate,
    /// Whether the left operand is a member of the set on the right.
    In,
    Compare(Relation, Compared),
}

/// How two values are compared.
#[derive(Clone, Copy, PartialEq, Eq)]
pub enum Relation {
    Equal,
    NotEqual,
    Less,
    LessEqual,
    Greater,
    GreaterEqual,
}

/// What is compared: numbers; sets, by inclusion; references, by identity; procedures, by body and
/// environment; records and arrays part by part, where an operand that ends in a read stays a
/// fixed place until both are evaluated (arrays of unequal shape are unequal).
#[derive(Clone, Copy, PartialEq, Eq)]
pub enum Compared {
    Ordinals,
    Sets,
    References,
    Procedures,
    Structures,
}

/// An element of a set, or all from the first to the last.
#[cycle(expressions)]
#[derive(Clone, Copy)]
pub enum SetElement<'a> {
    One(&'a CoreExpr<'a>),
    Range(&'a CoreExpr<'a>, &'a CoreExpr<'a>),
}

/// The value of a field, by the field's place in the record type.
#[cycle(expressions)]
#[derive(Clone, Copy)]
pub struct FieldValue<'a> {
    pub field: u32,
    pub value: &'a CoreExpr<'a>,
}

/// What NEW stores in a field of the new cell. The owner is the object type whose part declares the
/// field, none for the field of a record behind a REF.
#[cycle(expressions)]
#[derive(Clone, Copy)]
pub struct Binding<'a> {
    pub owner: Option<TypeId>,
    pub field: u32,
    pub value: &'a CoreExpr<'a>,
}

/// A check on a value that is converted to a type.
#[derive(Clone, Copy, PartialEq, Eq)]
pub enum Conversion {
    /// Faults with Range where the ordinal type has no such value.
    Range,
    /// Faults with Narrow where the value is neither NIL nor of the reference type.
    Narrow,
    /// Faults with Shape where the array hasn't the shape of the type.
    Shape,
    /// Faults with NestedProc where the value is a procedure inside another.
    Nested,
}

#[derive(Clone, Copy, PartialEq, Eq)]
pub enum ArrayLimit {
    First,
    Last,
    Number,
}
