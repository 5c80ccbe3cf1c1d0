ghost use Rattle.std.specs.Prelude.{◌≡◌, IsTrue};

use m3_syntax::{Sign, TokenKind, Word};

/// Whether a token is this keyword.
pub fn is_word(kind: TokenKind, word: Word) -> bool
    ensures { IsTrue result → kind ≡ TokenKind.Keyword word }
{
    match kind {
        TokenKind::Keyword(found) => found == word,
        _ => false,
    }
}

/// Whether a token is this sign.
pub fn is_sign(kind: TokenKind, sign: Sign) -> bool
    ensures { IsTrue result → kind ≡ TokenKind.Symbol sign }
{
    match kind {
        TokenKind::Symbol(found) => found == sign,
        _ => false,
    }
}
