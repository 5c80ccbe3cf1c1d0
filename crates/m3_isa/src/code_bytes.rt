ghost use Rattle.std.specs.Prelude.{◌≡◌, ◌↔◌, IsTrue, Some, IfSome, FitsSigned, slice_index, length};
ghost use Rattle.std.specs.Int.{w32};
ghost use Rattle.m3_isa.specs.Instructions.{IsInstruction, opcode, row_of};
ghost use Rattle.m3_isa.specs.CodeBytes.{bytes_of, operation, instruction_in, fields_fit, fields_in};
ghost use Rattle.m3_isa.specs.declared.instructions.Instr.{Instr as Instruction};

use crate::instructions::{Instr, Op};
use byteorder::{ByteOrder, LittleEndian};

// The operations in the order of their numbers, from 1.
static OPERATIONS: [Op; 73] = [
    Op::Move,
    Op::Li,
    Op::Lih,
    Op::Con,
    Op::Glb,
    Op::Slot,
    Op::Lds,
    Op::Sts,
    Op::Ld,
    Op::St,
    Op::Copy,
    Op::Fill,
    Op::Eqw,
    Op::Add,
    Op::Sub,
    Op::Mul,
    Op::Addi,
    Op::Addo,
    Op::Subo,
    Op::Mulo,
    Op::Divf,
    Op::Modf,
    Op::Divu,
    Op::Modu,
    Op::And,
    Op::Or,
    Op::Xor,
    Op::Shf,
    Op::Rot,
    Op::Seq,
    Op::Slt,
    Op::Sltu,
    Op::Jmp,
    Op::Bz,
    Op::Bnz,
    Op::Blt,
    Op::Bltu,
    Op::Beq,
    Op::Call,
    Op::Callr,
    Op::Callm,
    Op::Ret,
    Op::Meth,
    Op::Subt,
    Op::New,
    Op::Newo,
    Op::Point,
    Op::Fault,
    Op::Unc,
    Op::Endp,
    Op::Endt,
    Op::Cat,
    Op::Tchr,
    Op::Tsub,
    Op::Tget,
    Op::Teq,
    Op::Fork,
    Op::Join,
    Op::Acq,
    Op::Rel,
    Op::Wait,
    Op::Sig,
    Op::Bca,
    Op::Self_,
    Op::Put,
    Op::Putn,
    Op::Putc,
    Op::Alert,
    Op::Talert,
    Op::Await,
    Op::Ajoin,
    Op::Getc,
    Op::Eof,
];

/// The eight bytes of an instruction: the number of its operation, the three registers, and its
/// number, the lowest byte first.
pub fn encode(i: Instr) -> [u8; 8]
    ensures { result ≡ bytes_of i }
{
    let mut bytes = [i.op as u8, i.a, i.b, i.c, 0, 0, 0, 0];
    LittleEndian::write_i32(&mut bytes[4..], i.imm);
    bytes
}

/// The instruction that has these bytes, and none exactly where no instruction has them.
#[tactic(auto, unfolding(crate::specs::CodeBytes::instruction_in))]
pub fn decode(bytes: [u8; 8]) -> Option<Instr>
    ensures found { (i : Instruction) → IsInstruction i → FitsSigned w32 i.imm
        → bytes_of i ≡ bytes → result ≡ Some i }
    ensures sound { IfSome result (λ i. IsInstruction i × (bytes_of i ≡ bytes)) }
    ensures value { result ≡ instruction_in bytes }
{
    let op = operation(bytes[0])?;
    let i = laid_out(op, &bytes);
    if fits_row(i) { Some(i) } else { None }
}

/// The bytes of an instruction are those of no other.
pub fn same_instruction()
    ensures { (i : Instruction) → IsInstruction i → FitsSigned w32 i.imm → instruction_in (bytes_of i) ≡ Some i }
{}

// The operation of a number, where one has it.
fn operation(number: u8) -> Option<Op>
    ensures { result ≡ operation number }
{
    if number == 0 || number > 73 {
        return None;
    }
    Some(OPERATIONS[usize::from(number - 1)])
}

// The fields of an operation's eight bytes.
fn laid_out(op: Op, bytes: &[u8]) -> Instr
    requires eight { length bytes.now ≡ 8 }
    requires number { opcode op ≡ slice_index bytes.now 0 }
    ensures bytes { bytes_of result ≡ bytes.now }
    ensures fields { result ≡ fields_in op bytes.now }
    ensures imm { FitsSigned w32 result.imm }
{
    Instr {
        op,
        a: bytes[1],
        b: bytes[2],
        c: bytes[3],
        imm: LittleEndian::read_i32(&bytes[4..]),
    }
}

// Whether each field is as the operation's row has it.
fn fits_row(i: Instr) -> bool
    ensures row { IsTrue result ↔ IsInstruction i }
    ensures value { result ≡ fields_fit (row_of i.op) i }
{
    let row = i.op.row();
    row.a.fits(i.a) && row.b.fits(i.b) && row.c.fits(i.c) && row.imm.fits_imm(i.imm)
}
