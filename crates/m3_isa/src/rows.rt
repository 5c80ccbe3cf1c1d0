use crate::instructions::Op;

/// What a row of the instruction table says of a field: it names a register, it is a number, or it
/// isn't named and so is 0.
#[derive(Clone, Copy)]
pub enum Field {
    Register,
    Number,
    Unnamed,
}

/// What a row of the instruction table says of each field.
#[derive(Clone, Copy)]
pub struct Row {
    pub a: Field,
    pub b: Field,
    pub c: Field,
    pub imm: Field,
}

const EMPTY: Row = Row {
    a: Field::Unnamed,
    b: Field::Unnamed,
    c: Field::Unnamed,
    imm: Field::Unnamed,
};

const IMM: Row = Row {
    a: Field::Unnamed,
    b: Field::Unnamed,
    c: Field::Unnamed,
    imm: Field::Number,
};

const A: Row = Row {
    a: Field::Register,
    b: Field::Unnamed,
    c: Field::Unnamed,
    imm: Field::Unnamed,
};

const A_IMM: Row = Row {
    a: Field::Register,
    b: Field::Unnamed,
    c: Field::Unnamed,
    imm: Field::Number,
};

const A_B: Row = Row {
    a: Field::Register,
    b: Field::Register,
    c: Field::Unnamed,
    imm: Field::Unnamed,
};

const A_B_IMM: Row = Row {
    a: Field::Register,
    b: Field::Register,
    c: Field::Unnamed,
    imm: Field::Number,
};

const A_B_C: Row = Row {
    a: Field::Register,
    b: Field::Register,
    c: Field::Register,
    imm: Field::Unnamed,
};

const A_B_C_IMM: Row = Row {
    a: Field::Register,
    b: Field::Register,
    c: Field::Register,
    imm: Field::Number,
};

// The kind of a fault is a number and no register.
const FAULT: Row = Row {
    a: Field::Number,
    b: Field::Unnamed,
    c: Field::Unnamed,
    imm: Field::Number,
};

impl Op {
    ghost use Rattle.std.specs.Prelude.{◌≡◌};
    ghost use Rattle.m3_isa.specs.Instructions.{row_of};

    /// The row of this operation.
    pub(crate) fn row(self) -> Row
        ensures { result ≡ row_of self }
    {
        match self {
            Op::Move => A_B,
            Op::Li => A_IMM,
            Op::Lih => A_IMM,
            Op::Con => A_IMM,
            Op::Glb => A_IMM,
            Op::Slot => A_IMM,
            Op::Lds => A_IMM,
            Op::Sts => A_IMM,
            Op::Ld => A_B_IMM,
            Op::St => A_B_IMM,
            Op::Copy => A_B_C,
            Op::Fill => A_B_C,
            Op::Eqw => A_B_C,
            Op::Add => A_B_C,
            Op::Sub => A_B_C,
            Op::Mul => A_B_C,
            Op::Addi => A_B_IMM,
            Op::Addo => A_B_C_IMM,
            Op::Subo => A_B_C_IMM,
            Op::Mulo => A_B_C_IMM,
            Op::Divf => A_B_C_IMM,
            Op::Modf => A_B_C_IMM,
            Op::Divu => A_B_C_IMM,
            Op::Modu => A_B_C_IMM,
            Op::And => A_B_C,
            Op::Or => A_B_C,
            Op::Xor => A_B_C,
            Op::Shf => A_B_C,
            Op::Rot => A_B_C,
            Op::Seq => A_B_C,
            Op::Slt => A_B_C,
            Op::Sltu => A_B_C,
            Op::Jmp => IMM,
            Op::Bz => A_IMM,
            Op::Bnz => A_IMM,
            Op::Blt => A_B_IMM,
            Op::Bltu => A_B_IMM,
            Op::Beq => A_B_IMM,
            Op::Call => IMM,
            Op::Callr => A,
            Op::Callm => IMM,
            Op::Ret => EMPTY,
            Op::Meth => A_B_IMM,
            Op::Subt => A_B_IMM,
            Op::New => A_IMM,
            Op::Newo => A_B_IMM,
            Op::Point => EMPTY,
            Op::Fault => FAULT,
            Op::Unc => A,
            Op::Endp => EMPTY,
            Op::Endt => A,
            Op::Cat => A_B_C,
            Op::Tchr => A_B,
            Op::Tsub => A_B_C_IMM,
            Op::Tget => A_B_C,
            Op::Teq => A_B_C,
            Op::Fork => A_B,
            Op::Join => A_B_IMM,
            Op::Acq => A,
            Op::Rel => A_IMM,
            Op::Wait => A_B_IMM,
            Op::Sig => A,
            Op::Bca => A,
            Op::Self_ => A,
            Op::Put => A,
            Op::Putn => A,
            Op::Putc => A,
            Op::Alert => A,
            Op::Talert => A,
            Op::Await => A_B_C_IMM,
            Op::Ajoin => A_B_C_IMM,
            Op::Getc => A_IMM,
            Op::Eof => A,
        }
    }
}

impl Field {
    ghost use Rattle.std.specs.Prelude.{◌↔◌, IsTrue};
    ghost use Rattle.std.specs.Prelude.{◌≡◌};
    ghost use Rattle.m3_isa.specs.Instructions.{FitsField, FitsImm};
    ghost use Rattle.m3_isa.specs.CodeBytes.{field_fits, imm_fits};

    /// Whether a byte is what its row says.
    pub(crate) fn fits(self, n: u8) -> bool
        ensures fact { IsTrue result ↔ FitsField self n }
        ensures value { result ≡ field_fits self n }
    {
        match self {
            Field::Register => n < 16,
            Field::Number => true,
            Field::Unnamed => n == 0,
        }
    }

    /// Whether the number of an instruction is what its row says.
    pub(crate) fn fits_imm(self, n: i32) -> bool
        ensures fact { IsTrue result ↔ FitsImm self n }
        ensures value { result ≡ imm_fits self n }
    {
        match self {
            Field::Register | Field::Number => true,
            Field::Unnamed => n == 0,
        }
    }
}
