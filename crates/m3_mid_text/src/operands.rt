use m3_base::Pos;
use m3_mid::{MemoryWord, Operand};
use std::fmt;

/// A part of middle code, as its `Display` shows it: temporary 3 as `t3`, slot 3 as `s3`, word 3 of
/// the globals as `g3`, block 3 as `B3` and procedure 3 as `P3`.
#[derive(Clone, Copy)]
pub struct Text<T>(pub T);

impl fmt::Display for Text<Operand> {
    fn fmt<W: fmt::Write>(&self, f: &mut fmt::Formatter<W>) -> fmt::Result {
        match self.0 {
            Operand::Temp(temp) => write!(f, "t{temp}"),
            Operand::Number(number) => write!(f, "{number}"),
        }
    }
}

impl fmt::Display for Text<MemoryWord> {
    fn fmt<W: fmt::Write>(&self, f: &mut fmt::Formatter<W>) -> fmt::Result {
        match self.0 {
            MemoryWord::Slot(slot) => write!(f, "s{slot}"),
            MemoryWord::Environment => write!(f, "environment"),
            MemoryWord::Global(word) => write!(f, "g{word}"),
            MemoryWord::At { base, offset } => write!(f, "[t{base} + {offset}]"),
        }
    }
}

/// A place in a source: the number of its file, line and column.
impl fmt::Display for Text<Pos> {
    fn fmt<W: fmt::Write>(&self, f: &mut fmt::Formatter<W>) -> fmt::Result {
        let Pos { file, line, col } = self.0;
        write!(f, "{file}:{line}:{col}")
    }
}
