/// What an instruction does, numbered from 1 as its first byte.
#[derive(Clone, Copy, Debug, PartialEq, Eq)]
pub enum Op {
    Move = 1,
    Li,
    Lih,
    Con,
    Glb,
    Slot,
    Lds,
    Sts,
    Ld,
    St,
    Copy,
    Fill,
    Eqw,
    Add,
    Sub,
    Mul,
    Addi,
    Addo,
    Subo,
    Mulo,
    Divf,
    Modf,
    Divu,
    Modu,
    And,
    Or,
    Xor,
    Shf,
    Rot,
    Seq,
    Slt,
    Sltu,
    Jmp,
    Bz,
    Bnz,
    Blt,
    Bltu,
    Beq,
    Call,
    Callr,
    Callm,
    Ret,
    Meth,
    Subt,
    New,
    Newo,
    Point,
    Fault,
    Unc,
    Endp,
    Endt,
    Cat,
    Tchr,
    Tsub,
    Tget,
    Teq,
    Fork,
    Join,
    Acq,
    Rel,
    Wait,
    Sig,
    Bca,
    Self_,
    Put,
    Putn,
    Putc,
    Alert,
    Talert,
    Await,
    Ajoin,
    Getc,
    Eof,
}

/// An instruction: the registers that `a`, `b` and `c` name, where its row of the table names them,
/// and a signed number.
#[derive(Clone, Copy, Debug, PartialEq, Eq)]
pub struct Instr {
    pub op: Op,
    pub a: u8,
    pub b: u8,
    pub c: u8,
    pub imm: i32,
}

impl Op {
    ghost use Rattle.std.specs.Prelude.{◌≡◌};
    ghost use Rattle.m3_isa.specs.Instructions.{is_point};

    /// Whether this is a point instruction, before which the machine may change threads and collect.
    pub fn is_point(self) -> bool
        ensures { result ≡ is_point self }
    {
        match self {
            Op::Call
            | Op::Callr
            | Op::Callm
            | Op::New
            | Op::Newo
            | Op::Point
            | Op::Cat
            | Op::Tchr
            | Op::Tsub
            | Op::Fork
            | Op::Join
            | Op::Acq
            | Op::Rel
            | Op::Wait
            | Op::Sig
            | Op::Bca
            | Op::Self_
            | Op::Put
            | Op::Putn
            | Op::Putc
            | Op::Alert
            | Op::Talert
            | Op::Await
            | Op::Ajoin
            | Op::Getc
            | Op::Eof => true,
            _ => false,
        }
    }
}
