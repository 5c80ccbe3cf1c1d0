use crate::marks::ForMark;
use crate::ops::{MidOp, Operand, Relation};
use m3_base::{FaultKind, Pos};

/// What a word is to a collector (Diwan, Moss and Hudson, PLDI 1992).
#[derive(Clone, Copy, PartialEq, Eq)]
pub enum Kind {
    /// No pointer: a number, or an address in a stack, the globals or the constants.
    Number,
    /// A tidy pointer: 0, the start of a heap cell, or an address below the heap.
    Tidy,
    /// A derived pointer: a sum and difference of addresses and numbers.
    Address,
}

/// A procedure. At its start each temporary, and each slot that holds no formal, is 0.
#[derive(Clone, Copy)]
pub struct Proc<'a> {
    /// The kind of each temporary, by its number.
    pub temps: &'a [Kind],
    /// The words of the frame behind its header of three words: slot n is word 3 + n.
    pub slots: &'a [Slot],
    /// How many slots hold the words of formals: the first ones.
    pub formals: u32,
    pub blocks: &'a [Block<'a>],
    /// The block at which the procedure begins.
    pub start: u32,
    pub loops: &'a [ForMark<'a>],
}

/// A word of the frame. Its kind is Address only where it is the address of a formal by reference,
/// which the caller describes; the word behind that one is the base of the address, or 0.
#[derive(Clone, Copy, PartialEq, Eq)]
pub struct Slot {
    pub kind: Kind,
    /// Whether its address is taken, or an inner procedure reaches it; then it may change at each
    /// point.
    pub is_shared: bool,
}

/// Operations that are carried out in order, and what comes then.
#[derive(Clone, Copy)]
pub struct Block<'a> {
    pub ops: &'a [MidOp<'a>],
    pub end: End,
}

/// How a block ends.
#[derive(Clone, Copy)]
pub enum End {
    Goto(u32),
    /// Goes on at `yes` where the relation holds, else at `no`.
    If {
        relation: Relation,
        left: Operand,
        right: Operand,
        yes: u32,
        no: u32,
    },
    /// The procedure returns, with a result of one word or with none. A wider result was stored
    /// before, at the address that the caller gave.
    Return {
        value: Option<Operand>,
    },
    /// The run ends with a fault at this place.
    FaultAt {
        kind: FaultKind,
        pos: Pos,
    },
    /// The procedure is left by an exception: its place in the program's list and 1 more, and its
    /// argument as a number or as a tidy pointer; what is not used of these two is 0.
    Raise {
        exception: Operand,
        number: Operand,
        tidy: Operand,
    },
}
