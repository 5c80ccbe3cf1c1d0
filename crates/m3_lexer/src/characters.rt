ghost use Rattle.std.specs.Prelude.{◌≡◌, ◌≤◌, ◌<◌, ◌+◌, length, IfSome};
ghost use Rattle.m3_syntax.specs.Lexis.{lettered, octal, is_plain};
ghost use Rattle.m3_lexer.specs.Reading.{escape_at, character_at, body_len, is_well_escaped, text_at};

use crate::fronts::Front;
use crate::marks::begins;
use crate::numbers::digit_value;
use m3_base::rules::{BAD_CHARACTER_LITERAL, BAD_ESCAPE, OPEN_TEXT};
use m3_syntax::TokenKind;

/// Whether a byte stands for itself between two marks.
fn is_plain(mark: u8, byte: u8) -> bool
    ensures { result ≡ is_plain mark byte }
{
    byte != mark && byte != b'\\' && byte != b'\n'
}

/// The byte that a letter or a mark behind a backslash stands for.
fn lettered(byte: u8) -> Option<u8>
    ensures { result ≡ lettered byte }
{
    match byte {
        b'n' => Some(b'\n'),
        b't' => Some(b'\t'),
        b'r' => Some(b'\r'),
        b'f' => Some(12),
        b'\\' | b'\'' | b'"' => Some(byte),
        _ => None,
    }
}

/// The byte that three octal digits behind a backslash stand for.
fn octal(x: u8, y: u8, z: u8) -> Option<u8>
    ensures { result ≡ octal x y z }
{
    let (x, y, z) = (digit_value(x), digit_value(y), digit_value(z));
    if x < 8 && y < 8 && z < 8 {
        let value = (u16::from(x) * 8 + u16::from(y)) * 8 + u16::from(z);
        if value < 256 { Some(value as u8) } else { None }
    } else {
        None
    }
}

/// The byte that the escape stands for whose backslash stands before a text, and how many bytes of the
/// text it takes.
#[tactic(auto, unfolding(crate::specs::Reading::escape_at))]
fn escape(text: &[u8]) -> Option<(u8, usize)>
    ensures value { result ≡ escape_at text.now }
    ensures within { IfSome result (λ x. x.1 ≤ length text.now) }
{
    match text {
        [] => None,
        [first, rest @ ..] => match lettered(*first) {
            Some(byte) => Some((byte, 1)),
            None => match rest {
                [second, third, ..] => match octal(*first, *second, *third) {
                    Some(byte) => Some((byte, 3)),
                    None => None,
                },
                _ => None,
            },
        },
    }
}

/// The character literal whose opening mark stands before the rest.
#[tactic(auto, unfolding(crate::specs::Reading::character_at))]
pub fn character(rest: &[u8]) -> Result<Front, u16>
    requires { length rest.now < 4294967295 }
    ensures { result ≡ character_at rest.now }
{
    match rest {
        [] => Err(BAD_CHARACTER_LITERAL),
        [b'\\', after @ ..] => match escape(after) {
            None => Err(BAD_ESCAPE),
            Some((byte, len)) if begins(b'\'', &after[len..]) => {
                Ok(Front::Spelled(TokenKind::CharLit(byte), len + 3))
            }
            Some(_) => Err(BAD_CHARACTER_LITERAL),
        },
        [byte, after @ ..] if is_plain(b'\'', *byte) && begins(b'\'', after) => {
            Ok(Front::Spelled(TokenKind::CharLit(*byte), 3))
        }
        _ => Err(BAD_CHARACTER_LITERAL),
    }
}

/// How many bytes stand before the closing mark of the text literal whose opening mark stands before a
/// text. A backslash takes the next byte with it, and a line feed ends the search.
#[tactic(auto, using(crate::proofs::Counts::plus_plus, crate::proofs::Counts::plus_zero))]
fn body_len(text: &[u8]) -> Option<usize>
    ensures len { result ≡ body_len text.now }
    ensures within { IfSome result (λ n. n ≤ length text.now) }
{
    let mut len = 0;
    let mut rest = text;
    loop {
        match rest {
            [byte, ..] if is_plain(b'"', *byte) => {
                len += 1;
                rest = &rest[1..];
            }
            [b'"', ..] => return Some(len),
            [b'\\', byte, ..] if *byte != b'\n' => {
                len += 2;
                rest = &rest[2..];
            }
            _ => return None,
        }
    }
}

/// Whether each backslash begins an escape.
fn is_well_escaped(body: &[u8]) -> bool
    ensures { result ≡ is_well_escaped body.now }
{
    let mut rest = body;
    loop {
        match rest {
            [] => return true,
            [b'\\', _, behind @ ..] => {
                if escape(&rest[1..]).is_none() {
                    return false;
                }
                rest = behind;
            }
            [b'\\'] => return false,
            [_, after @ ..] => rest = after,
        }
    }
}

/// The text literal whose opening mark stands before the rest.
#[tactic(auto, unfolding(crate::specs::Reading::text_at))]
pub fn text(rest: &[u8]) -> Result<Front, u16>
    requires { length rest.now < 4294967295 }
    ensures { result ≡ text_at rest.now }
{
    match body_len(rest) {
        None => Err(OPEN_TEXT),
        Some(len) if is_well_escaped(&rest[..len]) => {
            Ok(Front::Spelled(TokenKind::TextLit, len + 2))
        }
        Some(_) => Err(BAD_ESCAPE),
    }
}
