ghost use Rattle.m3_isa.specs.Instructions.{IsInstruction};

use super::{Parts, step_over};
use m3_heap::{Closed, SemiSpace, Store};
use m3_isa::{Instr, Op, Regs, Step, Words, decode, encode};
use std::fmt::{Debug, Display};
use std::process::Abort;
use std::test::Fail;

// What was found is what was wanted.
fn expect<T: PartialEq + Debug + Drop>(rt: &impl Abort, found: T, wanted: T, what: &impl Display) {
    assert_eq!(rt; found, wanted, "{what}");
}

// The instruction with these fields, by its bytes.
fn instruction(rt: &impl Abort, op: Op, a: u8, b: u8, imm: i32) -> Instr
    ensures { IsInstruction result }
{
    let Some(i) = decode(encode(Instr {
        op,
        a,
        b,
        c: 0,
        imm,
    })) else {
        panic!(rt; "{op:?} is no instruction");
    };
    i
}

// A cell's address is in register 1, that of the globals in register 2: words are put and loaded in
// both, a header isn't put, and nothing past the globals.
static STEPS: [(Op, u8, u8, i32, Step); 5] = [
    (Op::St, 3, 1, 3, Step::Went),
    (Op::St, 3, 2, 15, Step::Went),
    (Op::St, 3, 2, 16, Step::Trapped(2)),
    (Op::St, 3, 1, 0, Step::Trapped(2)),
    (Op::Ld, 4, 1, 3, Step::Went),
];

// A cell of four words in a heap of 64, of which 60 stay free.
#[test]
fn both_parts(rt: HostRuntime) -> Result<(), Fail> {
    let mut heap = SemiSpace::new(rt.alloc(), 64)?;
    let cell = heap.allocate(1, 4).expect(&rt, "64 words have room for 4");
    let mut memory = Parts {
        globals: [0; 16],
        heap: Closed { store: heap },
    };
    let mut regs = Regs {
        r: [0; 16],
        pc: 0,
        fp: 0,
    };
    regs.r[1] = cell;
    regs.r[2] = 1 << 32;
    regs.r[3] = 77;
    for (row, (op, a, b, imm, wanted)) in STEPS.iter().enumerate() {
        let i = instruction(&rt, *op, *a, *b, *imm);
        expect(&rt, step_over(&i, &mut regs, &mut memory), *wanted, &row);
    }
    let words = (regs.r[4], memory.load((1 << 32) + 15), memory.load(cell));
    expect(&rt, words, (77, Some(77), Some(1 + (4 << 32))), &"words");
    expect(&rt, memory.heap.free_words(), 60, &"free words");
    Ok(())
}
