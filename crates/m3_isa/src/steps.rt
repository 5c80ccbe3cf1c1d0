ghost use Rattle.std.specs.Prelude.{◌≡◌, ◌≢◌, ◌<◌, ◌+◌, ◌*◌, ◌/◌, ◌%◌, ◌^◌, ℕ, false};
ghost use Rattle.std.specs.Prelude.{slice_set, if◌then◌else◌};
ghost use Rattle.std.specs.Int.{cast_unsigned, w32};
ghost use Rattle.m3_isa.specs.Instructions.{IsInstruction};
ghost use Rattle.m3_isa.specs.Effects.{effect, at_hand, CarriesOut, KeepsOnTrap, is_among};
ghost use Rattle.m3_isa.specs.Effects.{CarriesOutReading, CarriesOutWriting};
ghost use Rattle.m3_isa.specs.Effects.{loads, stores, copies, fills, filled, takes_byte};
ghost use Rattle.m3_isa.specs.Effects.{compares, compares_texts, compares_bytes};
ghost use Rattle.m3_isa.specs.Effects.{given_if_there, counter_after};
ghost use Rattle.m3_base.specs.Words.{add_words};

use crate::answers::Step;
use crate::arithmetic::{difference, product, quotient, quotient_down, rest, rest_up, sum};
use crate::instructions::{Instr, Op};
use crate::memory::Words;
use crate::registers::{Regs, signed, word};
use crate::{arithmetic, blocks};

// Two blocks of so many words or bytes, by their addresses.
#[derive(Clone, Copy)]
struct Blocks {
    length: u64,
    left: u64,
    right: u64,
}

// Where the constants and the globals begin.
const CONSTANTS: u64 = 1 << 50;

const GLOBALS: u64 = 1 << 32;

/// Carries out one plain instruction.
pub fn step<W: Words>(i: &Instr, regs: &mut Regs, mem: &mut W) -> Step
    requires { IsInstruction i.now }
    ensures effect { CarriesOut (effect i.now regs.old (W.holds mem.old) (W.writable mem.old))
        result regs.old (W.holds mem.old) regs.new (W.holds mem.new) }
    ensures trap { KeepsOnTrap i.now result regs.old (W.holds mem.old) (W.holds mem.new) }
    ensures writable { (at : ℕ) → W.writable mem.new at ≡ W.writable mem.old at }
    ensures keeps { W.keeps mem.old mem.new }
{
    carry_out(i, &mut regs.r, &mut regs.pc, regs.fp, mem)
}

/// Carries out one plain instruction on registers that stand beside the number of the instruction
/// and the first address of the newest frame, as a loop over instructions holds them. It is meant
/// for one such loop: it becomes part of its caller, and none of the three is passed on by
/// reference.
#[inline(always)]
pub fn carry_out<W: Words>(i: &Instr, r: &mut [u64; 16], pc: &mut u32, fp: u64, mem: &mut W) -> Step
    requires { IsInstruction i.now }
    ensures effect { CarriesOut
        (effect i.now (at_hand r.old pc.old fp) (W.holds mem.old) (W.writable mem.old))
        result (at_hand r.old pc.old fp) (W.holds mem.old)
        (at_hand r.new pc.new fp) (W.holds mem.new) }
    ensures trap { KeepsOnTrap i.now result (at_hand r.old pc.old fp) (W.holds mem.old)
        (W.holds mem.new) }
    ensures other { result ≡ Step.Other → mem.new ≡ mem.old }
    ensures writable { (at : ℕ) → W.writable mem.new at ≡ W.writable mem.old at }
    ensures keeps { W.keeps mem.old mem.new }
{
    match i.op {
        Op::Move => gives(i.a, word(r, i.b), r, pc),
        Op::Li => gives(i.a, i64::from(i.imm).cast_unsigned(), r, pc),
        Op::Lih => gives(i.a, with_high(word(r, i.a), i.imm), r, pc),
        Op::Con => gives(i.a, arithmetic::moved(CONSTANTS, i.imm), r, pc),
        Op::Glb => gives(i.a, arithmetic::moved(GLOBALS, i.imm), r, pc),
        Op::Slot => gives(i.a, arithmetic::moved(fp, i.imm), r, pc),
        Op::Lds => load(i.a, arithmetic::moved(fp, i.imm), r, pc, mem),
        Op::Sts => store(arithmetic::moved(fp, i.imm), word(r, i.a), pc, mem),
        Op::Ld => load(i.a, arithmetic::moved(word(r, i.b), i.imm), r, pc, mem),
        Op::St => store(
            arithmetic::moved(word(r, i.b), i.imm),
            word(r, i.a),
            pc,
            mem,
        ),
        Op::Add => gives(i.a, word(r, i.b).wrapping_add(word(r, i.c)), r, pc),
        Op::Sub => gives(i.a, word(r, i.b).wrapping_sub(word(r, i.c)), r, pc),
        Op::Mul => gives(i.a, word(r, i.b).wrapping_mul(word(r, i.c)), r, pc),
        Op::Addi => gives(i.a, arithmetic::moved(word(r, i.b), i.imm), r, pc),
        Op::Addo => or_jump(i, sum(word(r, i.b), word(r, i.c)), r, pc),
        Op::Subo => or_jump(i, difference(word(r, i.b), word(r, i.c)), r, pc),
        Op::Mulo => or_jump(i, product(word(r, i.b), word(r, i.c)), r, pc),
        Op::Divf => or_jump(i, quotient_down(word(r, i.b), word(r, i.c)), r, pc),
        Op::Modf => or_jump(i, rest_up(word(r, i.b), word(r, i.c)), r, pc),
        Op::Divu => or_jump(i, quotient(word(r, i.b), word(r, i.c)), r, pc),
        Op::Modu => or_jump(i, rest(word(r, i.b), word(r, i.c)), r, pc),
        Op::And => gives(i.a, word(r, i.b) & word(r, i.c), r, pc),
        Op::Or => gives(i.a, word(r, i.b) | word(r, i.c), r, pc),
        Op::Xor => gives(i.a, word(r, i.b) ^ word(r, i.c), r, pc),
        Op::Shf => gives(i.a, arithmetic::shift(word(r, i.b), word(r, i.c)), r, pc),
        Op::Rot => gives(i.a, arithmetic::rotate(word(r, i.b), word(r, i.c)), r, pc),
        Op::Seq => gives(i.a, arithmetic::truth(word(r, i.b) == word(r, i.c)), r, pc),
        Op::Slt => gives(
            i.a,
            arithmetic::truth(signed(r, i.b) < signed(r, i.c)),
            r,
            pc,
        ),
        Op::Sltu => gives(i.a, arithmetic::truth(word(r, i.b) < word(r, i.c)), r, pc),
        Op::Jmp => jumps(i.imm, pc),
        Op::Bz => jumps_if(word(r, i.a) == 0, i.imm, pc),
        Op::Bnz => jumps_if(word(r, i.a) != 0, i.imm, pc),
        Op::Blt => jumps_if(signed(r, i.a) < signed(r, i.b), i.imm, pc),
        Op::Bltu => jumps_if(word(r, i.a) < word(r, i.b), i.imm, pc),
        Op::Beq => jumps_if(word(r, i.a) == word(r, i.b), i.imm, pc),
        Op::Tget => get_byte(i.a, word(r, i.b), word(r, i.c), r, pc, mem),
        Op::Copy => copy(word(r, i.c), word(r, i.b), word(r, i.a), pc, mem),
        Op::Fill => fill(word(r, i.b), word(r, i.a), word(r, i.c), pc, mem),
        Op::Eqw => {
            let both = Blocks {
                length: word(r, i.a),
                left: word(r, i.b),
                right: word(r, i.c),
            };
            compare(i.a, both, r, pc, mem)
        }
        Op::Teq => compare_texts(i.a, word(r, i.b), word(r, i.c), r, pc, mem),
        Op::Call
        | Op::Callr
        | Op::Callm
        | Op::Ret
        | Op::Meth
        | Op::Subt
        | Op::New
        | Op::Newo
        | Op::Point
        | Op::Fault
        | Op::Unc
        | Op::Endp
        | Op::Endt
        | Op::Cat
        | Op::Tchr
        | Op::Tsub
        | Op::Fork
        | Op::Join
        | Op::Acq
        | Op::Rel
        | Op::Wait
        | Op::Sig
        | Op::Bca
        | Op::Self_
        | Op::Put
        | Op::Putn
        | Op::Putc
        | Op::Alert
        | Op::Talert
        | Op::Await
        | Op::Ajoin
        | Op::Getc
        | Op::Eof => Step::Other,
    }
}

// Gives a register a word, and goes on.
#[inline(always)]
fn gives(a: u8, word: u64, r: &mut [u64; 16], pc: &mut u32) -> Step
    requires { a < 16 }
    ensures answer { result ≡ Step.Went }
    ensures registers { r.new ≡ slice_set r.old a word }
    ensures counter { pc.new ≡ (pc.old + 1) % 2 ^ 32 }
{
    r[a as usize] = word;
    *pc = pc.wrapping_add(1);
    Step::Went
}

// Jumps.
#[inline(always)]
fn jumps(imm: i32, pc: &mut u32) -> Step
    ensures answer { result ≡ Step.Went }
    ensures counter { pc.new ≡ cast_unsigned w32 imm }
{
    *pc = imm.cast_unsigned();
    Step::Went
}

// Goes on.
#[inline(always)]
fn goes_on(pc: &mut u32) -> Step
    ensures answer { result ≡ Step.Went }
    ensures counter { pc.new ≡ (pc.old + 1) % 2 ^ 32 }
{
    *pc = pc.wrapping_add(1);
    Step::Went
}

// Jumps where a test holds, else goes on.
#[inline(always)]
fn jumps_if(test: bool, imm: i32, pc: &mut u32) -> Step
    ensures answer { result ≡ Step.Went }
    ensures counter { pc.new ≡ (if test then cast_unsigned w32 imm else (pc.old + 1) % 2 ^ 32) }
{
    *pc = if test {
        imm.cast_unsigned()
    } else {
        pc.wrapping_add(1)
    };
    Step::Went
}

// Gives a register the word, or jumps where there is none.
#[inline(always)]
fn or_jump(i: &Instr, word: Option<u64>, r: &mut [u64; 16], pc: &mut u32) -> Step
    requires { i.now.a < 16 }
    ensures answer { result ≡ Step.Went }
    ensures registers { r.new ≡ given_if_there r.old i.now.a word }
    ensures counter { pc.new ≡ counter_after pc.old i.now.imm word }
{
    match word {
        Some(word) => gives(i.a, word, r, pc),
        None => jumps(i.imm, pc),
    }
}

// Gives a register the word at an address.
#[inline(always)]
fn load<W: Words>(a: u8, at: u64, r: &mut [u64; 16], pc: &mut u32, mem: &W) -> Step
    requires { a < 16 }
    ensures { CarriesOutReading (λ regs. loads regs (W.holds mem.now) a (W.holds mem.now at))
        result (W.holds mem.now) r.old pc.old r.new pc.new }
{
    match mem.load(at) {
        Some(word) => gives(a, word, r, pc),
        None => Step::Trapped(2),
    }
}

// Puts a word at an address.
#[inline(always)]
fn store<W: Words>(at: u64, word: u64, pc: &mut u32, mem: &mut W) -> Step
    ensures effect { CarriesOutWriting
        (λ regs. stores regs (W.holds mem.old) (W.writable mem.old) at word)
        result pc.old pc.new (W.holds mem.old) (W.holds mem.new) }
    ensures trap { result ≢ Step.Went → (x : ℕ) → W.holds mem.new x ≡ W.holds mem.old x }
    ensures plain { result ≢ Step.Other }
    ensures writable { (x : ℕ) → W.writable mem.new x ≡ W.writable mem.old x }
    ensures keeps { W.keeps mem.old mem.new }
{
    if mem.store(at, word) {
        goes_on(pc)
    } else {
        Step::Trapped(2)
    }
}

// Copies n words.
#[inline(always)]
fn copy<W: Words>(n: u64, from: u64, to: u64, pc: &mut u32, mem: &mut W) -> Step
    ensures effect { CarriesOutWriting
        (λ regs. copies regs (W.holds mem.old) (W.writable mem.old) n from to)
        result pc.old pc.new (W.holds mem.old) (W.holds mem.new) }
    ensures outside { (x : ℕ) → is_among x to n ≡ false → W.holds mem.new x ≡ W.holds mem.old x }
    ensures plain { result ≢ Step.Other }
    ensures writable { (x : ℕ) → W.writable mem.new x ≡ W.writable mem.old x }
    ensures keeps { W.keeps mem.old mem.new }
{
    if blocks::copy_words(n, from, to, mem) {
        goes_on(pc)
    } else {
        Step::Trapped(2)
    }
}

// Fills n words, each from one a distance below it.
#[inline(always)]
fn fill<W: Words>(n: u64, from: u64, distance: u64, pc: &mut u32, mem: &mut W) -> Step
    ensures effect { CarriesOutWriting
        (λ regs. fills regs (filled (W.holds mem.old) (W.writable mem.old) from distance n))
        result pc.old pc.new (W.holds mem.old) (W.holds mem.new) }
    ensures outside { (x : ℕ) → is_among x (add_words from distance) n ≡ false
        → W.holds mem.new x ≡ W.holds mem.old x }
    ensures plain { result ≢ Step.Other }
    ensures writable { (x : ℕ) → W.writable mem.new x ≡ W.writable mem.old x }
    ensures keeps { W.keeps mem.old mem.new }
{
    if blocks::fill_words(n, from, distance, mem) {
        goes_on(pc)
    } else {
        Step::Trapped(2)
    }
}

// Says in a register whether two blocks have the same words.
#[inline(always)]
fn compare<W: Words>(a: u8, both: Blocks, r: &mut [u64; 16], pc: &mut u32, mem: &W) -> Step
    requires { a < 16 }
    ensures { CarriesOutReading
        (λ regs. compares regs (W.holds mem.now) a both.length both.left both.right)
        result (W.holds mem.now) r.old pc.old r.new pc.new }
{
    match blocks::equal_words(both.length, both.left, both.right, mem) {
        Some(equal) => gives(a, arithmetic::truth(equal), r, pc),
        None => Step::Trapped(2),
    }
}

// Says in a register whether two texts have the same bytes.
#[inline(always)]
fn compare_texts<W: Words>(
    a: u8,
    left: u64,
    right: u64,
    r: &mut [u64; 16],
    pc: &mut u32,
    mem: &W,
) -> Step
    requires { a < 16 }
    ensures { CarriesOutReading (λ regs. compares_texts regs (W.holds mem.now) a left right
        (W.holds mem.now (add_words left 1)) (W.holds mem.now (add_words right 1)))
        result (W.holds mem.now) r.old pc.old r.new pc.new }
{
    let Some(bytes) = mem.load(left.wrapping_add(1)) else {
        return Step::Trapped(2);
    };
    let Some(others) = mem.load(right.wrapping_add(1)) else {
        return Step::Trapped(2);
    };
    if bytes != others {
        return gives(a, 0, r, pc);
    }
    let both = Blocks {
        length: bytes,
        left,
        right,
    };
    compare_bytes(a, both, r, pc, mem)
}

// Says in a register whether two texts of one length have the same bytes.
#[inline(always)]
fn compare_bytes<W: Words>(a: u8, both: Blocks, r: &mut [u64; 16], pc: &mut u32, mem: &W) -> Step
    requires { a < 16 }
    ensures { CarriesOutReading
        (λ regs. compares_bytes regs (W.holds mem.now) a both.length both.left both.right)
        result (W.holds mem.now) r.old pc.old r.new pc.new }
{
    match blocks::equal_bytes(both.length, both.left, both.right, mem) {
        Some(equal) => gives(a, arithmetic::truth(equal), r, pc),
        None => Step::Trapped(2),
    }
}

// Gives a register one byte of the text at an address.
#[inline(always)]
fn get_byte<W: Words>(a: u8, text: u64, n: u64, r: &mut [u64; 16], pc: &mut u32, mem: &W) -> Step
    requires { a < 16 }
    ensures { CarriesOutReading (λ regs. takes_byte regs (W.holds mem.now) a n
        (W.holds mem.now (add_words text (2 + n / 8))))
        result (W.holds mem.now) r.old pc.old r.new pc.new }
{
    match mem.load(text.wrapping_add(2 + n / 8)) {
        Some(word) => gives(a, arithmetic::byte(word, n % 8), r, pc),
        None => Step::Trapped(2),
    }
}

// A word with this number as its high half.
fn with_high(word: u64, high: i32) -> u64
    ensures { result ≡ cast_unsigned w32 high * 2 ^ 32 + word % 2 ^ 32 }
{
    u64::from(high.cast_unsigned()) * 0x1_0000_0000 + word % 0x1_0000_0000
}
