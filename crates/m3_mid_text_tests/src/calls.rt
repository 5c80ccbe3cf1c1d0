use bumpalo::Bump;
use m3_base::Pos;
use m3_mid::{
    Actual, Block, Callee, End, Held, Kind, MidOp, Operand, Proc, Raised, Service, Shown,
};
use m3_mid_text::Text;
use std::alloc::AllocError;
use std::io;

const HERE: Pos = Pos {
    file: 0,
    line: 7,
    col: 12,
};

/// Addresses and questions.
fn questions<'a>(arena: &'a Bump) -> Result<&'a [MidOp<'a>], AllocError> {
    let row: [MidOp<'a>; 9] = [
        MidOp::SlotAddress { to: 0, slot: 2 },
        MidOp::FrameAddress { to: 0 },
        MidOp::GlobalAddress { to: 0, word: 9 },
        MidOp::TextCell { to: 1, text: 2 },
        MidOp::ConstantAddress { to: 0, constant: 3 },
        MidOp::TypeTest {
            to: 0,
            cell: 1,
            tested: 4,
        },
        MidOp::MethodOf {
            to: 0,
            object: 1,
            method: 2,
        },
        MidOp::TextByte {
            to: 0,
            text: 1,
            index: Operand::Number(6),
        },
        MidOp::EqualTexts {
            to: 0,
            left: 1,
            right: 2,
        },
    ];
    Ok(&*arena.try_alloc_slice_copy(&row)?)
}

/// The variables that are shown.
fn shown(arena: &Bump) -> Result<&[Shown], AllocError> {
    let row = arena.try_alloc_slice_copy(&[
        Shown {
            var: 0,
            at: Held::Temp(1),
        },
        Shown {
            var: 4,
            at: Held::Slot(2),
        },
    ])?;
    Ok(row)
}

fn passed(arena: &Bump) -> Result<&[Actual], AllocError> {
    let row = arena.try_alloc_slice_copy(&[
        Actual::Word(Operand::Temp(1)),
        Actual::Slots { first: 2, count: 3 },
        Actual::Reference {
            address: 3,
            base: Operand::Number(0),
        },
    ])?;
    Ok(row)
}

/// A call of each kind.
fn calls<'a>(
    arena: &'a Bump,
    passed: &'a [Actual],
    shown: &'a [Shown],
) -> Result<&'a [MidOp<'a>], AllocError> {
    let call = MidOp::Call {
        callee: Callee::Outermost(3),
        actuals: passed,
        result: Some(0),
        raised: Some(Raised {
            exception: 5,
            number: 6,
            tidy: 7,
        }),
        shown,
    };
    let row = arena.try_alloc_slice_copy(&[
        call,
        plain_call(
            Callee::Inner {
                procedure: 4,
                environment: 0,
            },
            &[],
        ),
        plain_call(
            Callee::Value {
                code: 5,
                environment: 6,
            },
            &[],
        ),
        plain_call(Callee::Method(1), passed),
    ])?;
    Ok(row)
}

fn plain_call(callee: Callee, actuals: &[Actual]) -> MidOp<'_> {
    MidOp::Call {
        callee,
        actuals,
        result: None,
        raised: None,
        shown: &[],
    }
}

/// The other operations with a point.
fn points<'a>(arena: &'a Bump, shown: &'a [Shown]) -> Result<&'a [MidOp<'a>], AllocError> {
    let thread = &*arena.try_alloc_slice_copy(&[Operand::Temp(1)])?;
    let part = &*arena.try_alloc_slice_copy(&[
        Operand::Temp(1),
        Operand::Number(0),
        Operand::Temp(0),
    ])?;
    let row = arena.try_alloc_slice_copy(&[
        MidOp::Make {
            to: 1,
            cell: 5,
            sizes: Some(2),
            shown,
        },
        MidOp::Service {
            service: Service::AlertJoin,
            operands: thread,
            to: Some(2),
            raised: Some(0),
            pos: HERE,
            shown: &[],
        },
        MidOp::Service {
            service: Service::Subtext,
            operands: part,
            to: None,
            raised: None,
            pos: HERE,
            shown,
        },
        MidOp::Point { shown },
    ])?;
    Ok(row)
}

fn blocks(arena: &Bump) -> Result<&[Block<'_>], AllocError> {
    let shown = shown(arena)?;
    let row = arena.try_alloc_slice_copy(&[
        Block {
            ops: questions(arena)?,
            end: End::Return { value: None },
        },
        Block {
            ops: calls(arena, passed(arena)?, shown)?,
            end: End::Return {
                value: Some(Operand::Temp(0)),
            },
        },
        Block {
            ops: points(arena, shown)?,
            end: End::Raise {
                exception: Operand::Temp(5),
                number: Operand::Number(0),
                tidy: Operand::Temp(7),
            },
        },
    ])?;
    Ok(row)
}

/// Addresses, questions, calls and services.
pub fn print_calls(rt: &impl Print, arena: &Bump) -> io::Result<()> {
    let p = Proc {
        temps: &[Kind::Number],
        slots: &[],
        formals: 0,
        blocks: blocks(arena)?,
        start: 1,
        loops: &[],
    };
    print!(rt; "{}", Text(&p))
}
