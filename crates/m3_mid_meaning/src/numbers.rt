ghost use Rattle.std.specs.Prelude.{◌≡◌};
ghost use Rattle.m3_base.specs.Words.{signed_of};
ghost use Rattle.m3_isa.specs.Arithmetic.{integer_word, floor_quotient};
ghost use Rattle.m3_mid_meaning.specs.Numbers.{or_overflow, unless_by_zero};
ghost use Rattle.m3_mid_meaning.specs.Numbers as numbers;

use m3_base::FaultKind;
use m3_isa::arithmetic;
use m3_mid::{CheckedOperator, Relation, WordOperator};

/// What an operator makes of two numbers.
pub fn operator_value(operator: WordOperator, left: u64, right: u64) -> u64
    ensures { result ≡ numbers.operator_value operator left right }
{
    match operator {
        WordOperator::Add => left.wrapping_add(right),
        WordOperator::Subtract => left.wrapping_sub(right),
        WordOperator::Multiply => left.wrapping_mul(right),
        WordOperator::And => left & right,
        WordOperator::Or => left | right,
        WordOperator::Xor => left ^ right,
        WordOperator::Shift => arithmetic::shift(left, right),
        WordOperator::Rotate => arithmetic::rotate(left, right),
    }
}

/// What a checked operator makes of two numbers, or its fault.
pub fn checked_value(operator: CheckedOperator, left: u64, right: u64) -> Result<u64, FaultKind>
    ensures { result ≡ numbers.checked_value operator left right }
{
    match operator {
        CheckedOperator::Add => arithmetic::sum(left, right).ok_or(FaultKind::Overflow),
        CheckedOperator::Subtract => {
            arithmetic::difference(left, right).ok_or(FaultKind::Overflow)
        }
        CheckedOperator::Multiply => arithmetic::product(left, right).ok_or(FaultKind::Overflow),
        CheckedOperator::Div => quotient_down(left, right),
        CheckedOperator::Mod => arithmetic::rest_up(left, right).ok_or(FaultKind::DivZero),
        CheckedOperator::DivUnsigned => arithmetic::quotient(left, right).ok_or(FaultKind::DivZero),
        CheckedOperator::ModUnsigned => arithmetic::rest(left, right).ok_or(FaultKind::DivZero),
    }
}

// The quotient rounded down, or its fault.
fn quotient_down(left: u64, right: u64) -> Result<u64, FaultKind>
    ensures { result
        ≡ unless_by_zero right
        (or_overflow (integer_word (floor_quotient (signed_of left) (signed_of right)))) }
{
    if right == 0 {
        return Err(FaultKind::DivZero);
    }
    arithmetic::quotient_down(left, right).ok_or(FaultKind::Overflow)
}

/// Whether a relation holds between two numbers.
pub fn is_related(relation: Relation, left: u64, right: u64) -> bool
    ensures { result ≡ numbers.is_related relation left right }
{
    match relation {
        Relation::Equal => left == right,
        Relation::NotEqual => left != right,
        Relation::Less => left.cast_signed() < right.cast_signed(),
        Relation::LessEqual => left.cast_signed() <= right.cast_signed(),
        Relation::LessUnsigned => left < right,
        Relation::LessEqualUnsigned => left <= right,
    }
}
