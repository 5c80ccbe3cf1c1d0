use crate::calls::{Actual, Callee, Raised, Service};
use crate::marks::Shown;
use m3_base::{FaultKind, Pos};

/// A temporary, or a number.
#[derive(Clone, Copy, PartialEq, Eq)]
pub enum Operand {
    Temp(u32),
    Number(i64),
}

/// A word of memory.
#[derive(Clone, Copy, PartialEq, Eq)]
pub enum MemoryWord {
    /// A slot of the own frame.
    Slot(u32),
    /// The environment with which the procedure was called: the frame of the activation around it.
    Environment,
    /// A word of the globals, counted from their start.
    Global(u32),
    /// The word at the address in a temporary plus a number.
    At { base: u32, offset: i32 },
}

/// An operation. `to` is the temporary that it sets. Sums of words are modulo 2^64; a relation and
/// a checked operator read words as integers in two's complement.
#[derive(Clone, Copy)]
pub enum MidOp<'a> {
    Number {
        to: u32,
        value: i64,
    },
    Move {
        to: u32,
        from: u32,
    },
    Arith {
        to: u32,
        operator: WordOperator,
        left: Operand,
        right: Operand,
    },
    /// Faults with Overflow or DivZero at `pos`, and then sets nothing.
    Checked {
        to: u32,
        operator: CheckedOperator,
        left: Operand,
        right: Operand,
        pos: Pos,
    },
    /// 1 where the relation holds, else 0.
    Compare {
        to: u32,
        relation: Relation,
        left: Operand,
        right: Operand,
    },
    Load {
        to: u32,
        from: MemoryWord,
    },
    Store {
        at: MemoryWord,
        from: Operand,
    },
    /// The address of a slot of the own frame.
    SlotAddress {
        to: u32,
        slot: u32,
    },
    /// The address of the own frame, which is the environment of the procedures inside this one.
    FrameAddress {
        to: u32,
    },
    /// The address of a word of the globals.
    GlobalAddress {
        to: u32,
        word: u32,
    },
    /// The cell of a text of the program.
    TextCell {
        to: u32,
        text: u32,
    },
    /// The address of the words of a constant of the program.
    ConstantAddress {
        to: u32,
        constant: u32,
    },
    /// An address in an array: `array` plus `words` times the index plus `offset`. The array is a
    /// tidy pointer or an address; nothing is loaded.
    Index {
        to: u32,
        array: u32,
        index: Operand,
        words: u64,
        offset: i64,
    },
    /// Copies words from the address in one temporary to that in another, as if all were read
    /// first.
    Copy {
        to_address: u32,
        from_address: u32,
        words: Operand,
    },
    /// For i from 0 below `words`, rising: the word at `at` + `distance` + i becomes the one at
    /// `at` + i.
    Fill {
        at: u32,
        words: Operand,
        distance: Operand,
    },
    /// 1 where as many words at two addresses are equal one by one, else 0.
    EqualWords {
        to: u32,
        left: u32,
        right: u32,
        words: Operand,
    },
    /// Goes on where the relation holds, else the run ends with a fault.
    Check {
        relation: Relation,
        left: Operand,
        right: Operand,
        fault: FaultKind,
        pos: Pos,
    },
    /// 1 where the cell's type is `tested` or has it among its parents, by the numbers of cell
    /// types; else 0. The cell isn't NIL.
    TypeTest {
        to: u32,
        cell: u32,
        tested: u32,
    },
    /// What a method of an object is: its procedure's number in the image and 1 more, or 0 for NIL.
    /// The method is named by its place in the object's table. The object isn't NIL.
    MethodOf {
        to: u32,
        object: u32,
        method: u32,
    },
    /// The byte of a text at a place below its length.
    TextByte {
        to: u32,
        text: u32,
        index: Operand,
    },
    /// 1 where two texts have equal bytes, else 0. Neither is NIL.
    EqualTexts {
        to: u32,
        left: u32,
        right: u32,
    },
    /// A point, and then the call. `result` gets the result of one word. `raised` tells the
    /// exception by which the procedure was left, where it can be left by one.
    Call {
        callee: Callee,
        actuals: &'a [Actual],
        result: Option<u32>,
        raised: Option<Raised>,
        shown: &'a [Shown],
    },
    /// A point, and then a new cell of the type with this number, 0 behind its header and sizes.
    /// The sizes of its open dimensions stand in slots in a row, the first of which is named; none
    /// is below 0.
    Make {
        to: u32,
        cell: u32,
        sizes: Option<u32>,
        shown: &'a [Shown],
    },
    /// A point, and then a service of the machine. `to` gets its result, and `raised` 1 where the
    /// service raises Thread.Alerted and 0 where not. `pos` is the place of its fault, if it has
    /// one.
    Service {
        service: Service,
        operands: &'a [Operand],
        to: Option<u32>,
        raised: Option<u32>,
        pos: Pos,
        shown: &'a [Shown],
    },
    /// A point without an action.
    Point {
        shown: &'a [Shown],
    },
}

/// Operators on words, which set a result for all words.
#[derive(Clone, Copy, PartialEq, Eq)]
pub enum WordOperator {
    Add,
    Subtract,
    Multiply,
    And,
    Or,
    Xor,
    /// Word.Shift and Word.Rotate of the left word by the right one.
    Shift,
    Rotate,
}

/// Operators that may fault.
#[derive(Clone, Copy, PartialEq, Eq)]
pub enum CheckedOperator {
    Add,
    Subtract,
    Multiply,
    /// The floor of the quotient; DivZero comes before Overflow.
    Div,
    Mod,
    /// On words read without a sign; DivZero alone.
    DivUnsigned,
    ModUnsigned,
}

/// A relation between two words, read as integers, or without a sign where it says so.
#[derive(Clone, Copy, PartialEq, Eq)]
pub enum Relation {
    Equal,
    NotEqual,
    Less,
    LessEqual,
    LessUnsigned,
    LessEqualUnsigned,
}
