ghost use Rattle.std.specs.Prelude.{◌≡◌};
ghost use Rattle.m3_lexer.specs.Reading.{sign_at};

use crate::marks::begins;
use m3_syntax::Sign;

/// The sign that a byte and the text behind it begin with, the longest, and its number of bytes.
pub fn sign(first: u8, rest: &[u8]) -> Option<(Sign, usize)>
    ensures { result ≡ sign_at first rest.now }
{
    let single = match first {
        b'+' => Sign::Plus,
        b'-' => Sign::Minus,
        b'*' => Sign::Star,
        b'/' => Sign::Slash,
        b'=' if begins(b'>', rest) => return Some((Sign::Arrow, 2)),
        b'=' => Sign::Equal,
        b'#' => Sign::Hash,
        b'<' if begins(b'=', rest) => return Some((Sign::LessEqual, 2)),
        b'<' if begins(b':', rest) => return Some((Sign::Subtype, 2)),
        b'<' => Sign::Less,
        b'>' if begins(b'=', rest) => return Some((Sign::GreaterEqual, 2)),
        b'>' => Sign::Greater,
        b'&' => Sign::Ampersand,
        b'^' => Sign::Caret,
        b'.' if begins(b'.', rest) => return Some((Sign::DotDot, 2)),
        b'.' => Sign::Dot,
        b',' => Sign::Comma,
        b';' => Sign::Semicolon,
        b':' if begins(b'=', rest) => return Some((Sign::Assign, 2)),
        b':' => Sign::Colon,
        b'|' => Sign::Bar,
        b'(' => Sign::OpenParen,
        b')' => Sign::CloseParen,
        b'[' => Sign::OpenBracket,
        b']' => Sign::CloseBracket,
        b'{' => Sign::OpenBrace,
        b'}' => Sign::CloseBrace,
        _ => return None,
    };
    Some((single, 1))
}
