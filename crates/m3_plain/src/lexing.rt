// From a text to its tokens.

ghost use Rattle.std.specs.Prelude.{◌≡◌, ◌-◌, ◌<◌, ◌≤◌, ◌^◌, length, [], Option, Some, None, OnOk};
ghost use Rattle.std.specs.Prelude.{OnErr, IfOk, IsErrOf};
ghost use Rattle.m3_plain.specs.Lexing.{keyword, literal, word_kind, sign_kind, with_token};
ghost use Rattle.m3_plain.specs.Lexing.{with_open_word, with_byte, lexed};

use crate::plain::{Arith, PlainRefused};
use crate::tokens::{Kind, Token};
use std::alloc::Global;

// The most tokens that a text of the plain form may have.
const MOST_TOKENS: usize = 2000;

/// The tokens of a text, or `NotBuilt` where it has others or too many.
pub fn lex(alloc: Global, text: &[u8]) -> Result<Vec<Token>, PlainRefused>
    requires { length text.now < 2 ^ 32 - 1 }
    ensures lexed { IfOk result (λ tokens. lexed [] 1 [] text.now ≡ Some tokens.items) }
    ensures not_built { IsErrOf result PlainRefused.NotBuilt → lexed [] 1 [] text.now ≡ None }
{
    let mut tokens = Vec::new(alloc);
    let mut line = 1;
    let mut start = 0;
    for (i, b) in text.iter().enumerate() {
        if b.is_ascii_alphanumeric() {
            continue;
        }
        end_word(&mut tokens, line, &text[start..i])?;
        take_byte(&mut tokens, line, *b)?;
        start = i + 1;
        if *b == b'\n' {
            line += 1;
        }
    }
    end_word(&mut tokens, line, &text[start..])?;
    Ok(tokens)
}

// Adds the token of the word or the number that has ended.
fn end_word(tokens: &mut Vec<Token>, line: u32, word: &[u8]) -> Result<(), PlainRefused>
    ensures ok { OnOk result
        (with_open_word tokens.old.items line word.now ≡ Some tokens.new.items) }
    ensures not_built { IsErrOf result PlainRefused.NotBuilt
        → with_open_word tokens.old.items line word.now ≡ None }
{
    if word.is_empty() {
        return Ok(());
    }
    add_token(tokens, line, kind_of_word(word))
}

// Adds the token of a sign; white space adds none.
fn take_byte(tokens: &mut Vec<Token>, line: u32, b: u8) -> Result<(), PlainRefused>
    ensures ok { OnOk result (with_byte tokens.old.items line b ≡ Some tokens.new.items) }
    ensures not_built { IsErrOf result PlainRefused.NotBuilt
        → with_byte tokens.old.items line b ≡ None }
{
    if matches!(b, 9..=13 | b' ') {
        return Ok(());
    }
    add_token(tokens, line, kind_of_sign(b))
}

fn add_token(tokens: &mut Vec<Token>, line: u32, kind: Option<Kind>) -> Result<(), PlainRefused>
    ensures ok { OnOk result (with_token tokens.old.items line kind ≡ Some tokens.new.items) }
    ensures not_built { IsErrOf result PlainRefused.NotBuilt
        → with_token tokens.old.items line kind ≡ None }
{
    let Some(kind) = kind else {
        return Err(PlainRefused::NotBuilt);
    };
    if tokens.len() >= MOST_TOKENS {
        return Err(PlainRefused::NotBuilt);
    }
    match tokens.push(Token { kind, line }) {
        Ok(()) => Ok(()),
        Err(_) => Err(PlainRefused::NoMemory),
    }
}

fn kind_of_word(word: &[u8]) -> Option<Kind>
    ensures { result ≡ word_kind word.now }
{
    let first = *word.first()?;
    if first.is_ascii_digit() {
        kind_of_number(word)
    } else {
        kind_of_name(word)
    }
}

fn kind_of_name(word: &[u8]) -> Option<Kind>
    ensures { result ≡ keyword word.now }
{
    if word == b"MODULE".as_slice() {
        Some(Kind::Module)
    } else if word == b"Main".as_slice() {
        Some(Kind::Main)
    } else if word == b"IMPORT".as_slice() {
        Some(Kind::Import)
    } else if word == b"IO".as_slice() {
        Some(Kind::Io)
    } else if word == b"BEGIN".as_slice() {
        Some(Kind::Begin)
    } else if word == b"END".as_slice() {
        Some(Kind::End)
    } else if word == b"PutInt".as_slice() {
        Some(Kind::PutInt)
    } else {
        None
    }
}

// The kind of a run of digits whose number is in INTEGER.
fn kind_of_number(word: &[u8]) -> Option<Kind>
    ensures { result ≡ literal word.now }
{
    let mut number: u64 = 0;
    for b in word {
        if !b.is_ascii_digit() {
            return None;
        }
        number = number.checked_mul(10)?.checked_add(u64::from(*b - b'0'))?;
    }
    let number = i64::try_from(number).ok()?;
    Some(Kind::Literal(number))
}

fn kind_of_sign(b: u8) -> Option<Kind>
    ensures { result ≡ sign_kind b }
{
    match b {
        b';' => Some(Kind::Semicolon),
        b'.' => Some(Kind::Dot),
        b'(' => Some(Kind::Open),
        b')' => Some(Kind::Close),
        b'+' => Some(Kind::Operator(Arith::Add)),
        b'-' => Some(Kind::Operator(Arith::Sub)),
        b'*' => Some(Kind::Operator(Arith::Mul)),
        _ => None,
    }
}
