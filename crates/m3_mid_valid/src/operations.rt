ghost use Rattle.std.specs.Prelude.{◌↔◌, IsTrue};
ghost use Rattle.m3_mid_valid.specs.Kinds.{IsTidy};
ghost use Rattle.m3_mid_valid.specs.Operations.{FitsNumber, FitsMove, IsNumberSum, IsAddressSum};
ghost use Rattle.m3_mid_valid.specs.Operations.{IsDistance, FitsArith, FitsRelation, FitsIndex};

use crate::operands::{are_numbers, has_kind, is_number, is_operand, is_temp, is_tidy, is_untidy};
use m3_mid::{Kind, Operand, Relation, WordOperator};

/// Whether a number may be put into a temporary.
pub(crate) fn fits_number(temps: &[Kind], to: u32, value: i64) -> bool
    ensures { IsTrue result ↔ FitsNumber temps.now to value }
{
    has_kind(temps, to, Kind::Number) || (is_temp(temps, to) && value == 0)
}

/// Whether a temporary may be moved to another.
pub(crate) fn fits_move(temps: &[Kind], to: u32, from: u32) -> bool
    ensures { IsTrue result ↔ FitsMove temps.now to from }
{
    match temps.get(from as usize) {
        Some(kind) => has_kind(temps, to, *kind) || has_kind(temps, to, Kind::Address),
        None => false,
    }
}

/// Whether a number of two numbers may be put into a temporary.
pub(crate) fn is_number_sum(temps: &[Kind], to: u32, left: Operand, right: Operand) -> bool
    ensures { IsTrue result ↔ IsNumberSum temps.now to left right }
{
    has_kind(temps, to, Kind::Number) && are_numbers(temps, left, right)
}

fn is_address_sum(temps: &[Kind], to: u32, left: Operand, right: Operand) -> bool
    ensures { IsTrue result ↔ IsAddressSum temps.now to left right }
{
    has_kind(temps, to, Kind::Address) && (is_operand(temps, left) && is_operand(temps, right))
}

fn is_distance(temps: &[Kind], to: u32, left: Operand, right: Operand) -> bool
    ensures { IsTrue result ↔ IsDistance temps.now to left right }
{
    has_kind(temps, to, Kind::Number) && (is_operand(temps, left) && is_tidy(temps, right))
}

/// Whether what an operator makes of two words may be put into a temporary.
pub(crate) fn fits_arith(
    temps: &[Kind],
    to: u32,
    operator: WordOperator,
    left: Operand,
    right: Operand,
) -> bool
    ensures { IsTrue result ↔ FitsArith temps.now to operator left right }
{
    match operator {
        WordOperator::Add => {
            is_address_sum(temps, to, left, right) || is_number_sum(temps, to, left, right)
        }
        WordOperator::Subtract => {
            is_address_sum(temps, to, left, right)
                || (is_distance(temps, to, left, right) || is_number_sum(temps, to, left, right))
        }
        WordOperator::Multiply
        | WordOperator::And
        | WordOperator::Or
        | WordOperator::Xor
        | WordOperator::Shift
        | WordOperator::Rotate => is_number_sum(temps, to, left, right),
    }
}

fn are_tidy(temps: &[Kind], left: Operand, right: Operand) -> bool
    ensures { IsTrue result ↔ (IsTidy temps.now left × IsTidy temps.now right) }
{
    is_tidy(temps, left) && is_tidy(temps, right)
}

/// Whether two words may be compared.
pub(crate) fn fits_relation(
    temps: &[Kind],
    relation: Relation,
    left: Operand,
    right: Operand,
) -> bool
    ensures { IsTrue result ↔ FitsRelation temps.now relation left right }
{
    match relation {
        Relation::Equal | Relation::NotEqual => {
            are_numbers(temps, left, right) || are_tidy(temps, left, right)
        }
        Relation::Less
        | Relation::LessEqual
        | Relation::LessUnsigned
        | Relation::LessEqualUnsigned => are_numbers(temps, left, right),
    }
}

/// Whether the address of an element may be put into a temporary.
pub(crate) fn fits_index(temps: &[Kind], to: u32, array: u32, index: Operand) -> bool
    ensures { IsTrue result ↔ FitsIndex temps.now to array index }
{
    is_number(temps, index)
        && ((has_kind(temps, array, Kind::Number) && is_untidy(temps, to))
            || (is_temp(temps, array) && has_kind(temps, to, Kind::Address)))
}
