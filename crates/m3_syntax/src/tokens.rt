ghost use Rattle.std.specs.Prelude.{◌≡◌};
ghost use Rattle.m3_syntax.specs.Spellings.{text_of_word};

use m3_base::Pos;

/// A token of a source: what it is, its bytes in the source, and the place of its first byte.
#[derive(Clone, Copy)]
pub struct Token<'a> {
    pub kind: TokenKind,
    pub text: &'a [u8],
    pub pos: Pos,
}

/// What a token is (the report, section 2.9, "Syntax"). A number carries its value, in two's
/// complement where it was written with a base, and a character literal its byte.
#[derive(Clone, Copy, Debug, PartialEq, Eq)]
pub enum TokenKind {
    Ident,
    Keyword(Word),
    Number(i64),
    CharLit(u8),
    TextLit,
    Symbol(Sign),
}

/// The keywords.
#[derive(Clone, Copy, Debug, PartialEq, Eq)]
pub enum Word {
    And,
    Any,
    Array,
    As,
    Begin,
    Bits,
    Branded,
    By,
    Case,
    Const,
    Div,
    Do,
    Else,
    Elsif,
    End,
    Eval,
    Except,
    Exception,
    Exit,
    Exports,
    Finally,
    For,
    From,
    Generic,
    If,
    Import,
    In,
    Interface,
    Lock,
    Loop,
    Methods,
    Mod,
    Module,
    Not,
    Object,
    Of,
    Or,
    Overrides,
    Procedure,
    Raise,
    Raises,
    Readonly,
    Record,
    Ref,
    Repeat,
    Return,
    Reveal,
    Root,
    Set,
    Then,
    To,
    Try,
    Type,
    Typecase,
    Unsafe,
    Until,
    Untraced,
    Value,
    Var,
    While,
    With,
}

impl Word {
    /// How the keyword is written.
    pub fn text(self) -> &'static [u8]
        ensures { result.now ≡ text_of_word self }
    {
        match self {
            Word::And => b"AND",
            Word::Any => b"ANY",
            Word::Array => b"ARRAY",
            Word::As => b"AS",
            Word::Begin => b"BEGIN",
            Word::Bits => b"BITS",
            Word::Branded => b"BRANDED",
            Word::By => b"BY",
            Word::Case => b"CASE",
            Word::Const => b"CONST",
            Word::Div => b"DIV",
            Word::Do => b"DO",
            Word::Else => b"ELSE",
            Word::Elsif => b"ELSIF",
            Word::End => b"END",
            Word::Eval => b"EVAL",
            Word::Except => b"EXCEPT",
            Word::Exception => b"EXCEPTION",
            Word::Exit => b"EXIT",
            Word::Exports => b"EXPORTS",
            Word::Finally => b"FINALLY",
            Word::For => b"FOR",
            Word::From => b"FROM",
            Word::Generic => b"GENERIC",
            Word::If => b"IF",
            Word::Import => b"IMPORT",
            Word::In => b"IN",
            Word::Interface => b"INTERFACE",
            Word::Lock => b"LOCK",
            Word::Loop => b"LOOP",
            Word::Methods => b"METHODS",
            Word::Mod => b"MOD",
            Word::Module => b"MODULE",
            Word::Not => b"NOT",
            Word::Object => b"OBJECT",
            Word::Of => b"OF",
            Word::Or => b"OR",
            Word::Overrides => b"OVERRIDES",
            Word::Procedure => b"PROCEDURE",
            Word::Raise => b"RAISE",
            Word::Raises => b"RAISES",
            Word::Readonly => b"READONLY",
            Word::Record => b"RECORD",
            Word::Ref => b"REF",
            Word::Repeat => b"REPEAT",
            Word::Return => b"RETURN",
            Word::Reveal => b"REVEAL",
            Word::Root => b"ROOT",
            Word::Set => b"SET",
            Word::Then => b"THEN",
            Word::To => b"TO",
            Word::Try => b"TRY",
            Word::Type => b"TYPE",
            Word::Typecase => b"TYPECASE",
            Word::Unsafe => b"UNSAFE",
            Word::Until => b"UNTIL",
            Word::Untraced => b"UNTRACED",
            Word::Value => b"VALUE",
            Word::Var => b"VAR",
            Word::While => b"WHILE",
            Word::With => b"WITH",
        }
    }
}

/// The signs.
#[derive(Clone, Copy, Debug, PartialEq, Eq)]
pub enum Sign {
    Plus,
    Minus,
    Star,
    Slash,
    Assign,
    Equal,
    Hash,
    Less,
    LessEqual,
    Greater,
    GreaterEqual,
    Ampersand,
    Caret,
    Dot,
    DotDot,
    Comma,
    Semicolon,
    Colon,
    Bar,
    Arrow,
    Subtype,
    OpenParen,
    CloseParen,
    OpenBracket,
    CloseBracket,
    OpenBrace,
    CloseBrace,
}

/// The tokens of a file in order, and the place after its last byte.
#[derive(Drop)]
pub struct Lexed<'a> {
    pub tokens: Vec<Token<'a>>,
    pub end: Pos,
}
