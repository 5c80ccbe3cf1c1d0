use bumpalo::Bump;
use m3_base::{FaultKind, Pos};
use m3_mid::{
    AccessMark, Block, CheckedOperator, End, ForMark, Kind, MemoryWord, MidOp, Operand, Proc,
    Relation, Slot, WordOperator,
};
use m3_mid_text::Text;
use std::alloc::AllocError;
use std::io;

const HERE: Pos = Pos {
    file: 1,
    line: 20,
    col: 3,
};

/// Sums, relations and checks.
fn sums<'a>(arena: &'a Bump) -> Result<&'a [MidOp<'a>], AllocError> {
    let row: [MidOp<'a>; 6] = [
        MidOp::Number { to: 0, value: -5 },
        MidOp::Move { to: 1, from: 0 },
        MidOp::Arith {
            to: 0,
            operator: WordOperator::Xor,
            left: Operand::Temp(1),
            right: Operand::Number(7),
        },
        MidOp::Checked {
            to: 0,
            operator: CheckedOperator::Div,
            left: Operand::Number(9),
            right: Operand::Temp(0),
            pos: HERE,
        },
        MidOp::Compare {
            to: 1,
            relation: Relation::LessEqualUnsigned,
            left: Operand::Temp(0),
            right: Operand::Temp(1),
        },
        MidOp::Check {
            relation: Relation::NotEqual,
            left: Operand::Temp(2),
            right: Operand::Number(0),
            fault: FaultKind::Nil,
            pos: HERE,
        },
    ];
    Ok(&*arena.try_alloc_slice_copy(&row)?)
}

/// Words of memory.
fn loads<'a>(arena: &'a Bump) -> Result<&'a [MidOp<'a>], AllocError> {
    let row: [MidOp<'a>; 8] = [
        MidOp::Load {
            to: 0,
            from: MemoryWord::Slot(2),
        },
        MidOp::Load {
            to: 0,
            from: MemoryWord::Environment,
        },
        MidOp::Store {
            at: MemoryWord::Global(4),
            from: Operand::Temp(0),
        },
        MidOp::Store {
            at: MemoryWord::At {
                base: 3,
                offset: -2,
            },
            from: Operand::Number(1),
        },
        MidOp::Copy {
            to_address: 3,
            from_address: 2,
            words: Operand::Number(8),
        },
        MidOp::Fill {
            at: 3,
            words: Operand::Temp(0),
            distance: Operand::Number(1),
        },
        MidOp::EqualWords {
            to: 1,
            left: 2,
            right: 3,
            words: Operand::Number(4),
        },
        MidOp::Index {
            to: 3,
            array: 2,
            index: Operand::Temp(0),
            words: 2,
            offset: 1,
        },
    ];
    Ok(&*arena.try_alloc_slice_copy(&row)?)
}

fn blocks(arena: &Bump) -> Result<&[Block<'_>], AllocError> {
    let row = arena.try_alloc_slice_copy(&[
        Block {
            ops: sums(arena)?,
            end: End::If {
                relation: Relation::Less,
                left: Operand::Temp(0),
                right: Operand::Number(3),
                yes: 1,
                no: 2,
            },
        },
        Block {
            ops: loads(arena)?,
            end: End::Goto(0),
        },
        Block {
            ops: &[],
            end: End::FaultAt {
                kind: FaultKind::NoCase,
                pos: HERE,
            },
        },
    ])?;
    Ok(row)
}

fn loops(arena: &Bump) -> Result<&[ForMark<'_>], AllocError> {
    let accesses = &*arena.try_alloc_slice_copy(&[AccessMark {
        block: 1,
        op: 7,
        array: 2,
        words: 2,
    }])?;
    let row = arena.try_alloc_slice_copy(&[ForMark {
        before: 0,
        turn: 1,
        index: 0,
        accesses,
    }])?;
    Ok(row)
}

fn slots(arena: &Bump) -> Result<&[Slot], AllocError> {
    let row = arena.try_alloc_slice_copy(&[
        Slot {
            kind: Kind::Address,
            is_shared: false,
        },
        Slot {
            kind: Kind::Tidy,
            is_shared: false,
        },
        Slot {
            kind: Kind::Number,
            is_shared: true,
        },
    ])?;
    Ok(row)
}

/// Operations on words of temporaries and of memory.
pub fn print_words(rt: &impl Print, arena: &Bump) -> io::Result<()> {
    let p = Proc {
        temps: &[Kind::Number, Kind::Number, Kind::Tidy, Kind::Address],
        slots: slots(arena)?,
        formals: 2,
        blocks: blocks(arena)?,
        start: 0,
        loops: loops(arena)?,
    };
    print!(rt; "{}", Text(&p))
}
