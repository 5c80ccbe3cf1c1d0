ghost use Rattle.std.specs.Prelude.{◌↔◌, IsTrue};
ghost use Rattle.m3_mid_valid.specs.Kinds.{HasKind, IsTemp, IsPlain, IsUntidy, IsNumber, IsTidy};
ghost use Rattle.m3_mid_valid.specs.Kinds.{IsWord, IsOperand, AreNumbers};

use m3_mid::{Kind, Operand};

/// What a procedure may name of its program.
#[derive(Clone, Copy)]
pub struct Surroundings<'a> {
    /// For each procedure of the program the words of its formals.
    pub formals: &'a [u32],
    pub global_words: u32,
    pub texts: u32,
    pub constants: u32,
    /// The types of cells have numbers below this one.
    pub types: u32,
    pub exceptions: u32,
}

/// Whether a temporary is there.
pub(crate) fn is_temp(temps: &[Kind], temp: u32) -> bool
    ensures { IsTrue result ↔ IsTemp temps.now temp }
{
    (temp as usize) < temps.len()
}

/// Whether a temporary is there and of a kind.
pub(crate) fn has_kind(temps: &[Kind], temp: u32, kind: Kind) -> bool
    ensures { IsTrue result ↔ HasKind temps.now temp kind }
{
    match temps.get(temp as usize) {
        Some(own) => *own == kind,
        None => false,
    }
}

/// Whether a temporary holds no derived pointer.
pub(crate) fn is_plain(temps: &[Kind], temp: u32) -> bool
    ensures { IsTrue result ↔ IsPlain temps.now temp }
{
    has_kind(temps, temp, Kind::Number) || has_kind(temps, temp, Kind::Tidy)
}

/// Whether a temporary may hold an address outside the heap.
pub(crate) fn is_untidy(temps: &[Kind], temp: u32) -> bool
    ensures { IsTrue result ↔ IsUntidy temps.now temp }
{
    has_kind(temps, temp, Kind::Number) || has_kind(temps, temp, Kind::Address)
}

/// Whether an operand is a number.
pub(crate) fn is_number(temps: &[Kind], operand: Operand) -> bool
    ensures { IsTrue result ↔ IsNumber temps.now operand }
{
    match operand {
        Operand::Temp(temp) => has_kind(temps, temp, Kind::Number),
        Operand::Number(_) => true,
    }
}

/// Whether an operand is NIL or a tidy pointer.
pub(crate) fn is_tidy(temps: &[Kind], operand: Operand) -> bool
    ensures { IsTrue result ↔ IsTidy temps.now operand }
{
    match operand {
        Operand::Temp(temp) => has_kind(temps, temp, Kind::Tidy),
        Operand::Number(number) => number == 0,
    }
}

/// Whether an operand is a number or a tidy pointer.
pub(crate) fn is_word(temps: &[Kind], operand: Operand) -> bool
    ensures { IsTrue result ↔ IsWord temps.now operand }
{
    match operand {
        Operand::Temp(temp) => is_plain(temps, temp),
        Operand::Number(_) => true,
    }
}

/// Whether an operand is a number, or a temporary that is there.
pub(crate) fn is_operand(temps: &[Kind], operand: Operand) -> bool
    ensures { IsTrue result ↔ IsOperand temps.now operand }
{
    match operand {
        Operand::Temp(temp) => is_temp(temps, temp),
        Operand::Number(_) => true,
    }
}

/// Whether two operands are numbers.
pub(crate) fn are_numbers(temps: &[Kind], left: Operand, right: Operand) -> bool
    ensures { IsTrue result ↔ AreNumbers temps.now left right }
{
    is_number(temps, left) && is_number(temps, right)
}
