use m3_read_grammar::operator_of;
use m3_syntax::{Sign, TokenKind, Word};

/// Whether an expression may begin with a token.
pub fn begins_expression(kind: TokenKind) -> bool {
    match kind {
        TokenKind::Number(_) | TokenKind::CharLit(_) | TokenKind::TextLit => true,
        TokenKind::Keyword(Word::Not) => true,
        TokenKind::Symbol(Sign::Plus | Sign::Minus) => true,
        _ => begins_type(kind),
    }
}

/// Whether a type may begin with a token.
pub fn begins_type(kind: TokenKind) -> bool {
    match kind {
        TokenKind::Ident => true,
        TokenKind::Keyword(word) => matches!(
            word,
            Word::Array
                | Word::Bits
                | Word::Branded
                | Word::Object
                | Word::Procedure
                | Word::Record
                | Word::Ref
                | Word::Root
                | Word::Set
                | Word::Untraced
        ),
        TokenKind::Symbol(sign) => {
            matches!(sign, Sign::OpenParen | Sign::OpenBracket | Sign::OpenBrace)
        }
        _ => false,
    }
}

/// Whether a token behind a name goes on with the expression or the type that the name begins.
pub fn goes_on(kind: TokenKind) -> bool {
    match kind {
        TokenKind::Keyword(Word::Branded | Word::Object) => true,
        TokenKind::Symbol(
            Sign::Caret | Sign::Dot | Sign::OpenBracket | Sign::OpenParen | Sign::OpenBrace,
        ) => true,
        _ => operator_of(kind).is_some(),
    }
}
