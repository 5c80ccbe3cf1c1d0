ghost use Rattle.std.specs.Prelude.{◌≡◌};
ghost use Rattle.m3_values.specs.Integers as meant;
ghost use Rattle.m3_source_values.specs.Computing.{computed};

use m3_base::FaultKind;

/// The result of a computation where it is an INTEGER, else the fault Overflow.
pub fn within_integer(number: i128) -> Result<i64, FaultKind>
    ensures { computed result ≡ meant.within_integer number }
{
    match i64::try_from(number) {
        Ok(number) => Ok(number),
        Err(_) => Err(FaultKind::Overflow),
    }
}

pub fn sum(x: i64, y: i64) -> Result<i64, FaultKind>
    ensures { computed result ≡ meant.sum x y }
{
    within_integer(i128::from(x) + i128::from(y))
}

pub fn difference(x: i64, y: i64) -> Result<i64, FaultKind>
    ensures { computed result ≡ meant.difference x y }
{
    within_integer(i128::from(x) - i128::from(y))
}

pub fn product(x: i64, y: i64) -> Result<i64, FaultKind>
    ensures { computed result ≡ meant.product x y }
{
    match x.checked_mul(y) {
        Some(product) => Ok(product),
        None => Err(FaultKind::Overflow),
    }
}

/// The quotient rounded down.
pub fn divided(x: i64, y: i64) -> Result<i64, FaultKind> {
    if y == 0 {
        return Err(FaultKind::DivZero);
    }
    let Some(quotient) = x.checked_div(y) else {
        return Err(FaultKind::Overflow);
    };
    let rest = x.checked_rem(y).unwrap_or(0);
    if rest != 0 && (rest < 0) != (y < 0) {
        difference(quotient, 1)
    } else {
        Ok(quotient)
    }
}

/// What is left of a number behind its quotient rounded down.
pub fn modulo(x: i64, y: i64) -> Result<i64, FaultKind> {
    if y == 0 {
        return Err(FaultKind::DivZero);
    }
    let (x, y) = (i128::from(x), i128::from(y));
    let rest = x % y;
    if rest != 0 && (rest < 0) != (y < 0) {
        within_integer(rest + y)
    } else {
        within_integer(rest)
    }
}

pub fn negated(x: i64) -> Result<i64, FaultKind>
    ensures { computed result ≡ meant.negated x }
{
    within_integer(-i128::from(x))
}

pub fn absolute(x: i64) -> Result<i64, FaultKind>
    ensures { computed result ≡ meant.absolute x }
{
    if x < 0 { negated(x) } else { Ok(x) }
}

pub fn is_between(first: i64, last: i64, number: i64) -> bool
    ensures { result ≡ meant.is_between first last number }
{
    first <= number && number <= last
}
