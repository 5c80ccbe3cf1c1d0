//! Calls, returns and what a cell's type tells, for a thread whose registers stand beside its next
//! instruction and its newest frame. An Err is how the run ends there; then nothing was done.
ghost use Rattle.std.specs.Prelude.{◌≡◌, ◌<◌, ◌+◌, ◌%◌, ◌^◌, ℕ, length, slice_index, Ok, IfOk};
ghost use Rattle.std.specs.Prelude.{OnErr};
ghost use Rattle.m3_isa.specs.Arithmetic.{flag};
ghost use Rattle.m3_isa.specs.Effects.{at_hand, answered};
ghost use Rattle.m3_image_decoded.specs.Ready.{image_of};
ghost use Rattle.m3_run_meaning.specs.Calls.{place_of, entering, framed, number_before, returning};
ghost use Rattle.m3_run_meaning.specs.Calls.{kind_at, method_at, method_called, TellsType};

use m3_base::Outcome;
use m3_image_decoded::Decoded;
use m3_isa::{Regs, Words};

/// Where a thread stands: at which instruction, and with which frame as its newest.
#[derive(Clone, Copy)]
pub struct Place {
    pub pc: u32,
    pub fp: u64,
}

/// The first address of a stack, and how many words it has.
#[derive(Clone, Copy)]
pub struct Stack {
    pub base: u64,
    pub words: u64,
}

impl Place {
    /// Where a thread with these registers stands.
    pub fn of(regs: &Regs) -> Place
        ensures { result ≡ place_of regs.now }
    {
        Place {
            pc: regs.pc,
            fp: regs.fp,
        }
    }

    /// At the next instruction.
    #[inline(always)]
    pub fn next(self) -> Place
        ensures pc { result.pc ≡ (self.pc + 1) % 2 ^ 32 }
        ensures fp { result.fp ≡ self.fp }
    {
        Place {
            pc: self.pc.wrapping_add(1),
            fp: self.fp,
        }
    }
}

/// The word in a register.
pub fn register(r: &[u64; 16], n: u8) -> u64
    requires { n < 16 }
    ensures { result ≡ slice_index r.now n }
{
    r[n as usize]
}

/// A test as a word.
pub fn truth(test: bool) -> u64
    ensures { result ≡ flag test }
{
    if test { 1 } else { 0 }
}

/// Goes on with a word in a register.
pub fn give(r: &mut [u64; 16], a: u8, word: u64, at: Place) -> Place
    requires { a < 16 }
    ensures { at_hand r.new result.pc result.fp ≡ answered (at_hand r.old at.pc at.fp) a word }
{
    r[a as usize] = word;
    at.next()
}

/// Where the frame of a procedure begins, if the procedure is there and the stack has the words.
#[inline(always)]
fn frame_for(image: &Decoded<'_>, number: u32, at: Place, stack: Stack) -> Result<Place, Outcome>
    requires { at.pc < length (image_of image.now).program.code }
    ensures { result ≡ entering (image_of image.now).program number stack at }
{
    let Some(callee) = image.proc(number) else {
        return Err(Outcome::Trap(3));
    };
    let Some(caller) = image.containing(at.pc) else {
        return Err(Outcome::Trap(1));
    };
    let frame = at.fp.wrapping_add(u64::from(caller.body));
    let place = frame.wrapping_sub(stack.base);
    if place >= stack.words {
        return Err(Outcome::Trap(2));
    }
    if stack.words - place < u64::from(callee.frame) {
        return Err(Outcome::StackFull);
    }
    Ok(Place {
        pc: callee.first,
        fp: frame,
    })
}

/// Enters the frame of a procedure, if the procedure is there and the stack has the words.
#[inline(always)]
pub fn enter<W: Words>(
    image: &Decoded<'_>,
    number: u32,
    at: Place,
    memory: &mut W,
    stack: Stack,
) -> Result<Place, Outcome>
    requires { at.pc < length (image_of image.now).program.code }
    ensures place { result ≡ entering (image_of image.now).program number stack at }
    ensures framed { IfOk result (λ to. (x : ℕ)
        → W.holds memory.new x ≡ framed to at (W.holds memory.old) (W.writable memory.old) x) }
    ensures refused { OnErr result (memory.new ≡ memory.old) }
    ensures keeps { W.keeps memory.old memory.new }
{
    let to = frame_for(image, number, at, stack)?;
    let _is_back_set = memory.store(to.fp, u64::from(at.pc) + 1);
    let _is_frame_set = memory.store(to.fp.wrapping_add(1), at.fp);
    Ok(to)
}

/// Returns to the caller's frame, if its instruction is in the code.
#[inline(always)]
pub fn leave<W: Words>(code: usize, at: Place, memory: &W) -> Result<Place, Outcome>
    ensures back { code < 2 ^ 32 → result ≡ returning code at (W.holds memory.now) }
    ensures found { IfOk result (λ to. returning code at (W.holds memory.now) ≡ Ok to) }
{
    let Some(back) = memory.load(at.fp) else {
        return Err(Outcome::Trap(2));
    };
    let Some(frame) = memory.load(at.fp.wrapping_add(1)) else {
        return Err(Outcome::Trap(2));
    };
    if back >= code as u64 || back >= 1 << 32 {
        return Err(Outcome::Trap(1));
    }
    Ok(Place {
        pc: back as u32,
        fp: frame,
    })
}

/// The number of the type of a cell.
fn kind_of<W: Words>(image: &Decoded<'_>, cell: u64, memory: &W) -> Result<u32, Outcome>
    ensures kind { result ≡ kind_at (image_of image.now).program.types (W.holds memory.now) cell }
    ensures within { IfOk result (λ n. n < length (image_of image.now).program.types) }
{
    let Some(header) = memory.load(cell) else {
        return Err(Outcome::Trap(2));
    };
    let number = header % (1 << 32);
    if number >= image.type_count() as u64 {
        return Err(Outcome::Trap(4));
    }
    Ok(number as u32)
}

/// A method of a cell: the number of its procedure and 1, or 0 for none.
pub fn method_of<W: Words>(
    image: &Decoded<'_>,
    cell: u64,
    number: u32,
    memory: &W,
) -> Result<u32, Outcome>
    ensures { result ≡ method_at (image_of image.now).program.types (W.holds memory.now) cell
        number }
{
    let kind = kind_of(image, cell, memory)?;
    let Some(shape) = image.shape(kind) else {
        return Err(Outcome::Trap(4));
    };
    match shape.method(number) {
        Some(method) => Ok(method),
        None => Err(Outcome::Trap(4)),
    }
}

/// Whether the type of a cell is that of a number or has it among its parents.
pub fn is_of_type<W: Words>(
    image: &Decoded<'_>,
    cell: u64,
    number: u32,
    memory: &W,
) -> Result<bool, Outcome>
    ensures { TellsType (image_of image.now).program.types
        (kind_at (image_of image.now).program.types (W.holds memory.now) cell) number result }
{
    let kind = kind_of(image, cell, memory)?;
    Ok(image.is_subtype(kind, number))
}

/// The number before one that isn't 0, which stands for none.
pub fn before(none: u32, behind: u64) -> Result<u32, Outcome>
    ensures { result ≡ number_before none behind }
{
    if behind == 0 {
        return Err(Outcome::Trap(none));
    }
    if behind > 1 << 32 {
        return Err(Outcome::Trap(3));
    }
    Ok((behind - 1) as u32)
}

/// The procedure that CALLM calls: a method of the cell that is the first argument.
pub fn called_method<W: Words>(
    image: &Decoded<'_>,
    number: u32,
    at: Place,
    memory: &W,
) -> Result<u32, Outcome>
    requires { at.pc < length (image_of image.now).program.code }
    ensures { result ≡ method_called (image_of image.now).program number at (W.holds memory.now) }
{
    let Some(caller) = image.containing(at.pc) else {
        return Err(Outcome::Trap(1));
    };
    let argument = at.fp.wrapping_add(u64::from(caller.body).wrapping_add(3));
    let Some(cell) = memory.load(argument) else {
        return Err(Outcome::Trap(2));
    };
    match method_of(image, cell, number, memory) {
        Ok(method) => before(4, u64::from(method)),
        Err(outcome) => Err(outcome),
    }
}
