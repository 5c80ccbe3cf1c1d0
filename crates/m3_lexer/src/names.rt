ghost use Rattle.std.specs.Prelude.{◌≡◌, ◌≢◌, ◌≤◌, true, length, IfSome, IfNone};
ghost use Rattle.std.specs.List.{take_while};
ghost use Rattle.m3_syntax.specs.Lexis.{is_name, is_name_byte, IsToken};
ghost use Rattle.m3_syntax.specs.Spellings.{text_of_word};
ghost use Rattle.m3_syntax.specs.declared.tokens.Word.{Word};

use m3_syntax::{TokenKind, Word};

static WORDS: [Word; 61] = [
    Word::And,
    Word::Any,
    Word::Array,
    Word::As,
    Word::Begin,
    Word::Bits,
    Word::Branded,
    Word::By,
    Word::Case,
    Word::Const,
    Word::Div,
    Word::Do,
    Word::Else,
    Word::Elsif,
    Word::End,
    Word::Eval,
    Word::Except,
    Word::Exception,
    Word::Exit,
    Word::Exports,
    Word::Finally,
    Word::For,
    Word::From,
    Word::Generic,
    Word::If,
    Word::Import,
    Word::In,
    Word::Interface,
    Word::Lock,
    Word::Loop,
    Word::Methods,
    Word::Mod,
    Word::Module,
    Word::Not,
    Word::Object,
    Word::Of,
    Word::Or,
    Word::Overrides,
    Word::Procedure,
    Word::Raise,
    Word::Raises,
    Word::Readonly,
    Word::Record,
    Word::Ref,
    Word::Repeat,
    Word::Return,
    Word::Reveal,
    Word::Root,
    Word::Set,
    Word::Then,
    Word::To,
    Word::Try,
    Word::Type,
    Word::Typecase,
    Word::Unsafe,
    Word::Until,
    Word::Untraced,
    Word::Value,
    Word::Var,
    Word::While,
    Word::With,
];

/// How many letters, digits and underscores a text begins with.
pub fn name_len(text: &[u8]) -> usize
    ensures { result ≡ length (take_while is_name_byte text.now) }
{
    text.iter()
        .take_while(|byte| byte.is_ascii_alphanumeric() || **byte == b'_')
        .count()
}

/// The keyword that is written so, if one is.
pub fn word_of(name: &[u8]) -> Option<Word>
    ensures some { IfSome result (λ w. name.now ≡ text_of_word w) }
    ensures none { IfNone result ((w : Word) → name.now ≢ text_of_word w) }
{
    for word in &WORDS {
        if name == word.text() {
            return Some(*word);
        }
    }
    None
}

/// What a name is: a keyword, or else an identifier.
pub fn kind_of_name(name: &[u8]) -> TokenKind
    requires { is_name name.now ≡ true }
    ensures { IsToken name.now result }
{
    match word_of(name) {
        Some(word) => TokenKind::Keyword(word),
        None => TokenKind::Ident,
    }
}
