ghost use Rattle.std.specs.Prelude.{ℕ, ◌+◌, ◌-◌, ◌^◌, ◌&&◌, ◌||◌, nat_le, nat_lt, if◌then◌else◌, Some, None, slice_index};
ghost use Rattle.m3_isa.specs.Instructions.{IsInstruction};
ghost use Rattle.std.proofs.Common.{arith};
ghost use Rattle.std.proofs.lemmas.Bool.Decides.{nat_tests};

use m3_isa::{Instr, Op, Regs, Step, Words, decode, encode, step};
use std::fmt::{Debug, Display};
use std::process::Abort;

// Sixteen words that can be replaced, and four constants.
const HOME: u64 = 1 << 40;

const FIXED: u64 = 1 << 50;

#[derive(Clone, Copy)]
struct Shelf {
    words: [u64; 16],
}

impl Words for Shelf {
    ghost holds = { λ s at. if nat_le (2 ^ 40) at && nat_lt at (2 ^ 40 + 16)
        then Some (slice_index s.words (at - 2 ^ 40))
        else (if nat_le (2 ^ 50) at && nat_lt at (2 ^ 50 + 4) then Some (at - 2 ^ 50) else None) };

    ghost writable = { λ s at. nat_le (2 ^ 40) at && nat_lt at (2 ^ 40 + 16) };

    ghost keeps = { λ _ _. Unit {0} };

    ghost readable = { λ s x h. Prim.grind (arith, nat_tests) };

    ghost low = { λ s x h. Prim.grind (arith, nat_tests) };

    ghost keeps_itself = { λ _. tt };

    ghost keeps_on = { λ _ _ _ _ _. tt };

    fn load(&self, at: u64) -> Option<u64> {
        if HOME <= at && at < HOME + 16 {
            Some(self.words[(at - HOME) as usize])
        } else if FIXED <= at && at < FIXED + 4 {
            Some(at - FIXED)
        } else {
            None
        }
    }

    fn store(&mut self, at: u64, word: u64) -> bool {
        if HOME <= at && at < HOME + 16 {
            self.words[(at - HOME) as usize] = word;
            true
        } else {
            false
        }
    }
}

const UNTOUCHED: u64 = 0x1111_2222_3333_4444;

const ALL: u64 = u64::MAX;

// INTEGER's ends.
const LEAST: i64 = i64::MIN;

const GREATEST: i64 = i64::MAX;

// The word of a number.
fn int(n: i64) -> u64 {
    n.cast_unsigned()
}

// What was found is what was wanted.
fn expect<T: PartialEq + Debug + Drop>(rt: &impl Abort, found: T, wanted: T, what: &impl Display) {
    assert_eq!(rt; found, wanted, "{what}");
}

// The instruction with these fields, by its bytes.
fn instruction(rt: &impl Abort, op: Op, fields: [u8; 3], imm: i32) -> Instr
    ensures { IsInstruction result }
{
    let [a, b, c] = fields;
    let i = Instr { op, a, b, c, imm };
    let Some(read) = decode(encode(i)) else {
        panic!(rt; "{i:?} is no instruction");
    };
    expect(rt, read, i, &"an instruction read again");
    read
}

// Registers 0, 1 and 2 have these words, 3 to 15 have 7; instruction 5; the frame at HOME.
fn registers(words: [u64; 3]) -> Regs {
    let mut r = [7; 16];
    r[0] = words[0];
    r[1] = words[1];
    r[2] = words[2];
    Regs { r, pc: 5, fp: HOME }
}

// Word k is 100 + k.
const WORDS: [u64; 16] = [
    100, 101, 102, 103, 104, 105, 106, 107, 108, 109, 110, 111, 112, 113, 114, 115,
];

// How an instruction ends over this memory, with register 0 and the place after it. Nothing else
// has changed.
fn left(rt: &impl Abort, i: &Instr, words: [u64; 3], memory: [u64; 16]) -> (Step, u64, u32)
    requires { IsInstruction i.now }
{
    let mut regs = registers(words);
    let mut mem = Shelf { words: memory };
    let ended = step(i, &mut regs, &mut mem);
    let found = (ended, regs.r[0], regs.pc);
    regs.r[0] = words[0];
    regs.pc = 5;
    expect(rt, regs, registers(words), &"the other registers");
    expect(rt, mem.words, memory, &"the memory");
    found
}

// What an instruction does to register 0 and to the place.
#[derive(Clone, Copy)]
enum Want {
    Gives(i64),
    GoesOn,
    // To instruction 40.
    Jumps,
    Traps,
}

use Want::{Gives, GoesOn, Jumps, Traps};

fn wanted(want: Want, before: u64) -> (Step, u64, u32) {
    match want {
        Gives(number) => (Step::Went, int(number), 6),
        GoesOn => (Step::Went, before, 6),
        Jumps => (Step::Went, before, 40),
        Traps => (Step::Trapped(2), before, 5),
    }
}

// An operation with what registers 1 and 2 hold, and what it does.
type Row = (Op, i64, i64, Want);

fn try_rows(rt: &impl Abort, fields: [u8; 3], imm: i32, rows: &[Row]) {
    for (row, (op, x, y, want)) in rows.iter().enumerate() {
        let i = instruction(rt, *op, fields, imm);
        let found = left(rt, &i, [UNTOUCHED, int(*x), int(*y)], WORDS);
        expect(rt, found, wanted(*want, UNTOUCHED), &row);
    }
}

// Operations on registers 1 and 2 that answer in register 0.
static OPERATIONS: [Row; 49] = [
    (Op::Add, 1, 2, Gives(3)),
    (Op::Add, -1, 1, Gives(0)),
    (Op::Add, LEAST, LEAST, Gives(0)),
    (Op::Add, GREATEST, 1, Gives(LEAST)),
    (Op::Sub, 3, 5, Gives(-2)),
    (Op::Sub, 0, 1, Gives(-1)),
    (Op::Sub, LEAST, 1, Gives(GREATEST)),
    (Op::Mul, 3, 5, Gives(15)),
    (Op::Mul, 1 << 32, 1 << 32, Gives(0)),
    (Op::Mul, -1, -1, Gives(1)),
    (Op::Mul, LEAST, 2, Gives(0)),
    (Op::And, 12, 10, Gives(8)),
    (Op::Or, 12, 10, Gives(14)),
    (Op::Xor, 12, 10, Gives(6)),
    (Op::Xor, -1, 1, Gives(-2)),
    (Op::Seq, 4, 4, Gives(1)),
    (Op::Seq, 4, 5, Gives(0)),
    (Op::Slt, -1, 0, Gives(1)),
    (Op::Slt, 0, -1, Gives(0)),
    (Op::Slt, LEAST, GREATEST, Gives(1)),
    (Op::Slt, GREATEST, LEAST, Gives(0)),
    (Op::Slt, 5, 5, Gives(0)),
    (Op::Sltu, -1, 0, Gives(0)),
    (Op::Sltu, 0, -1, Gives(1)),
    (Op::Sltu, LEAST, GREATEST, Gives(0)),
    (Op::Sltu, 5, 5, Gives(0)),
    (Op::Shf, 5, 0, Gives(5)),
    (Op::Shf, 5, 1, Gives(10)),
    (Op::Shf, 1, 63, Gives(LEAST)),
    (Op::Shf, 3, 63, Gives(LEAST)),
    (Op::Shf, -1, 64, Gives(0)),
    (Op::Shf, 1, 64, Gives(0)),
    (Op::Shf, 1, -1, Gives(0)),
    (Op::Shf, 16, -4, Gives(1)),
    (Op::Shf, -1, -63, Gives(1)),
    (Op::Shf, LEAST, -63, Gives(1)),
    (Op::Shf, -1, -64, Gives(0)),
    (Op::Shf, -1, GREATEST, Gives(0)),
    (Op::Shf, -1, LEAST, Gives(0)),
    (Op::Rot, 1, 0, Gives(1)),
    (Op::Rot, 1, 63, Gives(LEAST)),
    (Op::Rot, 1, 64, Gives(1)),
    (Op::Rot, LEAST, 1, Gives(1)),
    (Op::Rot, LEAST + 1, 1, Gives(3)),
    (Op::Rot, 1, -1, Gives(LEAST)),
    (Op::Rot, 1, -63, Gives(2)),
    (Op::Rot, 1, -64, Gives(1)),
    (Op::Rot, 3, LEAST, Gives(3)),
    (Op::Rot, 3, GREATEST, Gives(LEAST + 1)),
];

// Operations that answer in register 0, or jump where there is no answer.
static CHECKED: [Row; 46] = [
    (Op::Addo, 1, 2, Gives(3)),
    (Op::Addo, GREATEST, 1, Jumps),
    (Op::Addo, LEAST, -1, Jumps),
    (Op::Addo, LEAST, GREATEST, Gives(-1)),
    (Op::Addo, GREATEST, 0, Gives(GREATEST)),
    (Op::Subo, 5, 7, Gives(-2)),
    (Op::Subo, LEAST, 1, Jumps),
    (Op::Subo, GREATEST, -1, Jumps),
    (Op::Subo, 0, LEAST, Jumps),
    (Op::Subo, -1, LEAST, Gives(GREATEST)),
    (Op::Mulo, 3, -5, Gives(-15)),
    (Op::Mulo, 1 << 31, 1 << 31, Gives(1 << 62)),
    (Op::Mulo, 1 << 32, 1 << 31, Jumps),
    (Op::Mulo, -(1 << 32), 1 << 31, Gives(LEAST)),
    (Op::Mulo, LEAST, -1, Jumps),
    (Op::Mulo, LEAST, 1, Gives(LEAST)),
    (Op::Divf, 7, 2, Gives(3)),
    (Op::Divf, -7, 2, Gives(-4)),
    (Op::Divf, 7, -2, Gives(-4)),
    (Op::Divf, -7, -2, Gives(3)),
    (Op::Divf, 6, -2, Gives(-3)),
    (Op::Divf, 0, -5, Gives(0)),
    (Op::Divf, -1, GREATEST, Gives(-1)),
    (Op::Divf, 1, LEAST, Gives(-1)),
    (Op::Divf, LEAST, LEAST, Gives(1)),
    (Op::Divf, LEAST, 1, Gives(LEAST)),
    (Op::Divf, LEAST, 2, Gives(-(1 << 62))),
    (Op::Divf, GREATEST, -1, Gives(-GREATEST)),
    (Op::Divf, LEAST, -1, Jumps),
    (Op::Divf, 1, 0, Jumps),
    (Op::Modf, 7, 2, Gives(1)),
    (Op::Modf, -7, 2, Gives(1)),
    (Op::Modf, 7, -2, Gives(-1)),
    (Op::Modf, -7, -2, Gives(-1)),
    (Op::Modf, 6, -2, Gives(0)),
    (Op::Modf, LEAST, -1, Gives(0)),
    (Op::Modf, GREATEST, LEAST, Gives(-1)),
    (Op::Modf, -1, GREATEST, Gives(GREATEST - 1)),
    (Op::Modf, 5, 0, Jumps),
    (Op::Divu, 7, 2, Gives(3)),
    (Op::Divu, -1, 2, Gives(GREATEST)),
    (Op::Divu, -1, -1, Gives(1)),
    (Op::Divu, 1, 0, Jumps),
    (Op::Modu, 7, 2, Gives(1)),
    (Op::Modu, -1, 10, Gives(5)),
    (Op::Modu, 1, 0, Jumps),
];

// Jumps that compare registers 1 and 2, and those that compare register 1 with 0.
static JUMPS: [Row; 7] = [
    (Op::Blt, -1, 0, Jumps),
    (Op::Blt, 0, -1, GoesOn),
    (Op::Blt, 3, 3, GoesOn),
    (Op::Bltu, -1, 0, GoesOn),
    (Op::Bltu, 0, -1, Jumps),
    (Op::Beq, 3, 3, Jumps),
    (Op::Beq, 3, 4, GoesOn),
];

static ZERO_JUMPS: [Row; 4] = [
    (Op::Bz, 0, 0, Jumps),
    (Op::Bz, LEAST, 0, GoesOn),
    (Op::Bnz, 0, 0, GoesOn),
    (Op::Bnz, LEAST, 0, Jumps),
];

static JUMP: [Row; 1] = [(Op::Jmp, 0, 0, Jumps)];

#[test]
fn operations_and_jumps(rt: HostRuntime) {
    try_rows(&rt, [0, 1, 2], 0, &OPERATIONS);
    try_rows(&rt, [0, 1, 2], 40, &CHECKED);
    try_rows(&rt, [1, 2, 0], 40, &JUMPS);
    try_rows(&rt, [1, 0, 0], 40, &ZERO_JUMPS);
    try_rows(&rt, [0, 0, 0], 40, &JUMP);
}

// Operations with a number, on one register (its number is second) or on none; loads, and stores
// that trap: at and just outside the ends of each range. Register 1 holds the fourth.
static NUMBERS: [(Op, u8, i32, u64, Option<u64>); 25] = [
    (Op::Li, 0, -1, 0, Some(ALL)),
    (Op::Li, 0, i32::MIN, 0, Some(0xffff_ffff_8000_0000)),
    (Op::Li, 0, 5, 0, Some(5)),
    (Op::Lih, 0, -2, 0, Some(0xffff_fffe_3333_4444)),
    (Op::Lih, 0, 1, 0, Some(0x0000_0001_3333_4444)),
    (Op::Con, 0, 5, 0, Some(FIXED + 5)),
    (Op::Con, 0, -1, 0, Some(FIXED - 1)),
    (Op::Glb, 0, 7, 0, Some((1 << 32) + 7)),
    (Op::Slot, 0, 3, 0, Some(HOME + 3)),
    (Op::Slot, 0, -3, 0, Some(HOME - 3)),
    (Op::Lds, 0, 15, 0, Some(115)),
    (Op::Move, 1, 0, 9, Some(9)),
    (Op::Addi, 1, -9, 9, Some(0)),
    (Op::Addi, 1, -10, 9, Some(ALL)),
    (Op::Ld, 1, 0, HOME, Some(100)),
    (Op::Ld, 1, 15, HOME, Some(115)),
    (Op::Ld, 1, 16, HOME, None),
    (Op::Ld, 1, -1, HOME, None),
    (Op::Ld, 1, 3, FIXED, Some(3)),
    (Op::Ld, 1, 4, FIXED, None),
    (Op::Ld, 1, -1, FIXED, None),
    (Op::Ld, 1, 1, ALL, None),
    (Op::St, 1, 16, HOME, None),
    (Op::St, 1, -1, HOME, None),
    (Op::St, 1, 0, FIXED, None),
];

#[test]
fn numbers_and_loads(rt: HostRuntime) {
    for (row, (op, b, imm, x, want)) in NUMBERS.iter().enumerate() {
        let i = instruction(&rt, *op, [0, *b, 0], *imm);
        let found = left(&rt, &i, [UNTOUCHED, *x, 0], WORDS);
        expect(&rt, found, answer(*want, UNTOUCHED), &row);
    }
}

// What an instruction that answers in register 0 leaves, or one that traps.
fn answer(want: Option<u64>, before: u64) -> (Step, u64, u32) {
    match want {
        Some(word) => (Step::Went, word, 6),
        None => wanted(Traps, before),
    }
}

// Two texts of nine bytes that differ past them, and one that differs in them.
const TEXTS: [u64; 16] = [
    0, 9, 55, 0x1_07, 0, 9, 55, 0x2_07, 0, 9, 55, 0x2_08, 0, 8, 55, 0,
];

// EQW, TEQ and TGET, which answer in register 0, and what the three registers hold.
static COMPARISONS: [(Op, [u64; 3], Option<u64>); 18] = [
    (Op::Eqw, [0, 0, ALL], Some(1)),
    (Op::Eqw, [3, HOME, HOME + 4], Some(1)),
    (Op::Eqw, [4, HOME, HOME + 4], Some(0)),
    (Op::Eqw, [4, HOME, HOME + 13], None),
    (Op::Eqw, [4, HOME + 13, HOME], None),
    (Op::Eqw, [ALL, HOME, HOME], None),
    (Op::Teq, [7, HOME, HOME + 4], Some(1)),
    (Op::Teq, [7, HOME, HOME + 8], Some(0)),
    (Op::Teq, [7, HOME, HOME + 12], Some(0)),
    (Op::Teq, [7, HOME, HOME], Some(1)),
    (Op::Teq, [7, HOME + 15, HOME], None),
    (Op::Teq, [7, HOME, HOME + 15], None),
    (Op::Tget, [7, HOME, 0], Some(55)),
    (Op::Tget, [7, HOME, 7], Some(0)),
    (Op::Tget, [7, HOME, 8], Some(7)),
    (Op::Tget, [7, HOME, 9], Some(1)),
    (Op::Tget, [7, HOME, 112], None),
    (Op::Tget, [7, HOME, 111], Some(0)),
];

#[test]
fn comparisons(rt: HostRuntime) {
    for (row, (op, words, want)) in COMPARISONS.iter().enumerate() {
        let i = instruction(&rt, *op, [0, 1, 2], 0);
        let found = left(&rt, &i, *words, TEXTS);
        expect(&rt, found, answer(*want, words[0]), &row);
    }
}

// Words that are to stand in the memory from a place on, all others being as they were.
type Put = (usize, &'static [u64]);

// ST, STS, COPY and FILL: fields, number, what registers 0, 1 and 2 hold, and what is put, or none
// where it traps. COPY takes the words from register 1 on to register 0 on, FILL repeats them, and
// register 1 counts, register 2 is the distance.
static PUTS: [(Op, [u8; 3], i32, [u64; 3], Option<Put>); 17] = [
    (Op::St, [0, 1, 0], 0, [9, HOME, 0], Some((0, &[9]))),
    (Op::St, [0, 1, 0], 15, [9, HOME, 0], Some((15, &[9]))),
    (Op::Sts, [0, 0, 0], 2, [9, 0, 0], Some((2, &[9]))),
    (
        Op::Copy,
        [0, 1, 2],
        0,
        [HOME + 2, HOME, 4],
        Some((2, &[100, 101, 102, 103])),
    ),
    (
        Op::Copy,
        [0, 1, 2],
        0,
        [HOME, HOME + 2, 4],
        Some((0, &[102, 103, 104, 105])),
    ),
    (Op::Copy, [0, 1, 2], 0, [HOME, HOME, 16], Some((0, &[]))),
    (Op::Copy, [0, 1, 2], 0, [0, ALL, 0], Some((0, &[]))),
    (
        Op::Copy,
        [0, 1, 2],
        0,
        [HOME + 12, FIXED, 4],
        Some((12, &[0, 1, 2, 3])),
    ),
    (Op::Copy, [0, 1, 2], 0, [HOME, FIXED, 5], None),
    (Op::Copy, [0, 1, 2], 0, [FIXED, HOME, 1], None),
    (Op::Copy, [0, 1, 2], 0, [HOME + 13, HOME, 4], None),
    (Op::Copy, [0, 1, 2], 0, [HOME, HOME, ALL], None),
    (
        Op::Fill,
        [0, 1, 2],
        0,
        [HOME, 4, 3],
        Some((3, &[100, 101, 102, 100])),
    ),
    (Op::Fill, [0, 1, 2], 0, [0, 0, 1], Some((0, &[]))),
    (Op::Fill, [0, 1, 2], 0, [HOME, 16, 0], Some((0, &[]))),
    (Op::Fill, [0, 1, 2], 0, [HOME, 16, 1], None),
    (
        Op::Fill,
        [0, 1, 2],
        0,
        [HOME + 1, 2, ALL],
        Some((0, &[101, 102])),
    ),
];

// The words of the memory with what is put.
fn with(put: Put) -> [u64; 16] {
    let (place, words) = put;
    let mut all = WORDS;
    for (k, word) in words.iter().enumerate() {
        if place < 16 && k < 16 - place {
            all[place + k] = *word;
        }
    }
    all
}

#[test]
fn stores_and_blocks(rt: HostRuntime) {
    for (row, (op, fields, imm, words, want)) in PUTS.iter().enumerate() {
        let i = instruction(&rt, *op, *fields, *imm);
        let mut regs = registers(*words);
        let mut mem = Shelf { words: WORDS };
        let ended = step(&i, &mut regs, &mut mem);
        match want {
            Some(put) => {
                expect(&rt, ended, Step::Went, &row);
                expect(&rt, mem.words, with(*put), &row);
            }
            None => expect(&rt, ended, Step::Trapped(2), &row),
        }
        expect(&rt, regs.r, registers(*words).r, &row);
    }
}

// Each number from 1 to 73 is an operation, forty of them plain; the others change nothing.
#[test]
fn operations(rt: HostRuntime) {
    let mut others = 0u32;
    for number in 0..=255u8 {
        let Some(i) = decode([number, 0, 0, 0, 0, 0, 0, 0]) else {
            assert!(rt; number == 0 || number > 73, "{number}");
            continue;
        };
        expect(&rt, i.op as u8, number, &"its number");
        let mut regs = registers([0, 3, 4]);
        let mut mem = Shelf { words: WORDS };
        if step(&i, &mut regs, &mut mem) == Step::Other {
            others = others.saturating_add(1);
            expect(&rt, regs, registers([0, 3, 4]), &number);
            expect(&rt, mem.words, WORDS, &number);
        }
    }
    expect(&rt, others, 33, &"operations that aren't plain");
}

static BYTES: [([u8; 8], bool); 13] = [
    ([2, 3, 0, 0, 0xfe, 0xff, 0xff, 0xff], true),
    ([1, 15, 15, 0, 0, 0, 0, 0], true),
    ([1, 16, 0, 0, 0, 0, 0, 0], false),
    ([1, 0, 16, 0, 0, 0, 0, 0], false),
    ([1, 0, 0, 1, 0, 0, 0, 0], false),
    ([1, 0, 0, 0, 0, 0, 0, 1], false),
    ([11, 0, 0, 16, 0, 0, 0, 0], false),
    ([33, 1, 0, 0, 0, 0, 0, 0], false),
    ([33, 0, 0, 0, 0, 0, 0, 0x80], true),
    ([47, 0, 0, 0, 1, 0, 0, 0], false),
    ([48, 255, 0, 0, 9, 0, 0, 0], true),
    ([48, 0, 1, 0, 9, 0, 0, 0], false),
    ([54, 15, 15, 15, 99, 0, 0, 0], true),
];

#[test]
fn bytes(rt: HostRuntime) {
    let i = instruction(&rt, Op::Li, [3, 0, 0], -2);
    expect(&rt, encode(i), BYTES[0].0, &"LI 3, -2");
    for (row, (bytes, is_good)) in BYTES.iter().enumerate() {
        let read = decode(*bytes);
        expect(&rt, read.is_some(), *is_good, &row);
        if let Some(i) = read {
            expect(&rt, encode(i), *bytes, &row);
        }
    }
}
