ghost use Rattle.std.specs.Prelude.{◌≡◌, ◌<◌, length};
ghost use Rattle.m3_syntax.specs.Lexis.{is_blank};
ghost use Rattle.m3_lexer.specs.Fronts.{IsFront};
ghost use Rattle.m3_lexer.specs.Reading.{closed_len, skipped_at};

use crate::characters::{character, text};
use crate::marks::{begins, closed_len};
use crate::names::{kind_of_name, name_len};
use crate::numbers::number;
use crate::signs::sign;
use m3_base::rules::{BAD_BYTE, OPEN_COMMENT, OPEN_PRAGMA};
use m3_syntax::TokenKind;

/// What a text begins with, and its number of bytes: something to skip, or a token of a kind.
#[derive(Clone, Copy)]
pub enum Front {
    Skipped(usize),
    Spelled(TokenKind, usize),
}

/// What is skipped behind an opening mark, with the mark; or the rule that is broken where no mark
/// closes it.
fn skipped(left: u8, right: u8, rule: u16, inner: &[u8]) -> Result<Front, u16>
    requires { length inner.now < 4294967295 }
    ensures { result ≡ skipped_at rule (closed_len left right 1 inner.now) }
{
    match closed_len(left, right, inner) {
        Some(len) => Ok(Front::Skipped(len + 2)),
        None => Err(rule),
    }
}

/// Whether a byte is white space.
fn is_blank(byte: u8) -> bool
    ensures { result ≡ is_blank byte }
{
    (9 <= byte && byte <= 13) || byte == b' '
}

/// What a text begins with, or the rule that is broken there.
pub fn front_of(bytes: &[u8]) -> Result<Front, u16>
    requires some { 0 < length bytes.now }
    requires size { length bytes.now < 4294967295 }
    ensures { IsFront bytes.now result }
{
    let first = bytes[0];
    let rest = &bytes[1..];
    if is_blank(first) {
        Ok(Front::Skipped(1))
    } else if first.is_ascii_alphabetic() {
        let len = name_len(bytes);
        Ok(Front::Spelled(kind_of_name(&bytes[..len]), len))
    } else if first.is_ascii_digit() {
        number(bytes)
    } else if first == b'\'' {
        character(rest)
    } else if first == b'"' {
        text(rest)
    } else if first == b'(' && begins(b'*', rest) {
        skipped(b'(', b')', OPEN_COMMENT, &rest[1..])
    } else if first == b'<' && begins(b'*', rest) {
        skipped(b'<', b'>', OPEN_PRAGMA, &rest[1..])
    } else {
        match sign(first, rest) {
            Some((sign, len)) => Ok(Front::Spelled(TokenKind::Symbol(sign), len)),
            None => Err(BAD_BYTE),
        }
    }
}
