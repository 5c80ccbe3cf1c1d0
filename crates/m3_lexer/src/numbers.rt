ghost use Rattle.std.specs.Prelude.{◌≡◌, ◌≤◌, ◌<◌, ◌^◌, length, SomeIff, IfOk};
ghost use Rattle.std.specs.List.{take_while, list_all};
ghost use Rattle.std.specs.Char.{digit_value, is_digit, is_ascii_digit, is_ascii_hexdigit};
ghost use Rattle.m3_syntax.specs.Lexis.{value, is_well_based};
ghost use Rattle.m3_lexer.specs.Reading.{decimal_of, based_of, number_at};

use crate::fronts::Front;
use m3_base::rules::{BAD_BASE, NUMBER_TOO_LARGE, REAL_LITERAL};
use m3_syntax::TokenKind;

/// The value of a digit in a base up to 36, of either case; 36 for what is no digit.
pub fn digit_value(byte: u8) -> u8
    ensures value { result ≡ digit_value byte }
    ensures small { result ≤ 36 }
{
    match byte {
        b'0'..=b'9' => byte - b'0',
        b'A'..=b'Z' => byte - b'A' + 10,
        b'a'..=b'z' => byte - b'a' + 10,
        _ => 36,
    }
}

/// The number that digits write in a base. None where it takes more than 64 bits.
fn value(base: u64, digits: &[u8]) -> Option<u64>
    requires { 1 ≤ base }
    ensures { SomeIff result (value base digits.now < 2 ^ 64) (value base digits.now) }
{
    let mut number = 0u64;
    for digit in digits {
        number = number
            .checked_mul(base)?
            .checked_add(u64::from(digit_value(*digit)))?;
    }
    Some(number)
}

/// How many decimal digits a text begins with.
fn digits_len(text: &[u8]) -> usize
    ensures { result ≡ length (take_while is_ascii_digit text.now) }
{
    text.iter().take_while(|byte| byte.is_ascii_digit()).count()
}

/// How many digits of bases up to 16 a text begins with.
fn hex_len(text: &[u8]) -> usize
    ensures { result ≡ length (take_while is_ascii_hexdigit text.now) }
{
    text.iter()
        .take_while(|byte| byte.is_ascii_hexdigit())
        .count()
}

/// Whether each byte is a digit below a base.
fn are_below(base: u64, digits: &[u8]) -> bool
    ensures { result ≡ list_all (λ d. is_digit d base) digits.now }
{
    digits
        .iter()
        .all(|digit| u64::from(digit_value(*digit)) < base)
}

/// Whether a literal may have this base and these digits.
fn is_well_based(base: u64, digits: &[u8]) -> bool
    ensures { result ≡ is_well_based base digits.now }
{
    let in_range = 2 <= base && base <= 16 && !digits.is_empty();
    in_range && are_below(base, digits)
}

/// The value of a decimal literal, or the rule that it breaks.
#[tactic(auto, unfolding(crate::specs::Reading::decimal_of))]
fn decimal(digits: &[u8]) -> Result<i64, u16>
    ensures { result ≡ decimal_of digits.now }
{
    match value(10, digits) {
        Some(number) if number <= i64::MAX as u64 => Ok(number as i64),
        _ => Err(NUMBER_TOO_LARGE),
    }
}

/// The value of a literal with a base, and how many digits it has behind its underscore; or the rule
/// that it breaks.
#[tactic(auto, unfolding(crate::specs::Reading::based_of))]
fn based(base_digits: &[u8], text: &[u8]) -> Result<(i64, usize), u16>
    ensures value { result ≡ based_of base_digits.now text.now }
    ensures within { IfOk result (λ x. x.1 ≤ length text.now) }
{
    let len = hex_len(text);
    let digits = &text[..len];
    match value(10, base_digits) {
        Some(base) if is_well_based(base, digits) => match value(base, digits) {
            Some(number) => Ok((number.cast_signed(), len)),
            None => Err(NUMBER_TOO_LARGE),
        },
        _ => Err(BAD_BASE),
    }
}

/// The number that a text begins with.
#[tactic(auto, unfolding(crate::specs::Reading::number_at))]
pub fn number(text: &[u8]) -> Result<Front, u16>
    requires { length text.now < 4294967295 }
    ensures { result ≡ number_at text.now }
{
    let len = digits_len(text);
    let (digits, rest) = text.split_at(len);
    match rest {
        [b'_', after @ ..] => {
            let (number, digits_behind) = based(digits, after)?;
            Ok(Front::Spelled(TokenKind::Number(number), len + 1 + digits_behind))
        }
        [b'.', digit, ..] if digit.is_ascii_digit() => Err(REAL_LITERAL),
        _ => Ok(Front::Spelled(TokenKind::Number(decimal(digits)?), len)),
    }
}
