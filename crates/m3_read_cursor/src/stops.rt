//! Why the reading of a file stops, and what the file is refused for then: the rule, and its
//! place among the tokens.

ghost use Rattle.std.specs.Prelude.{◌≡◌, ◌<◌, ◌≤◌, IfOk, IfErr, OnOk, None, length, drop};
ghost use Rattle.m3_base.specs.declared.refusals.Refused.TheVariants.{Rule};
ghost use Rattle.m3_read_cursor.specs.Refusals.{IsRefusal};
ghost use Rattle.m3_read_cursor.specs.Refusals as spec;

use m3_base::rules::{
    END_NAME_DIFFERS, END_OF_FILE, NESTING_TOO_DEEP, TOO_MANY_TOKENS, UNEXPECTED_TOKEN,
};
use m3_base::{Refusal, Refused};
use m3_syntax::{Lexed, TokenKind};

/// How many tokens a file may have.
const MAX_TOKENS: usize = 500_000;

/// Why the reading of a file stopped.
#[derive(Clone, Copy)]
pub enum Why {
    /// The token there may not stand there, or the file ends too early.
    Unexpected,
    /// The token there lies inside too many constructs.
    TooDeep,
    NoMemory,
}

/// The first error in a file, and how many tokens were left there.
#[derive(Clone, Copy)]
pub struct Stop {
    pub why: Why,
    pub left: usize,
}

/// What a file is refused for whose reading stopped: token 500,001 where that was taken before.
pub fn refusal_of(lexed: &Lexed<'_>, stop: Stop) -> Refused
    ensures { IsRefusal lexed.now.end lexed.now.tokens.items result }
{
    let taken = lexed.tokens.len().saturating_sub(stop.left);
    if taken > MAX_TOKENS {
        return too_many_tokens(lexed);
    }
    match stop.why {
        Why::NoMemory => Refused::NoMemory,
        Why::Unexpected => refused_at(lexed, taken, UNEXPECTED_TOKEN),
        Why::TooDeep => refused_at(lexed, taken, NESTING_TOO_DEEP),
    }
}

/// How many tokens a file has that was read to its end, where these aren't too many and no closing
/// name, given how many tokens were left there, is wrong.
pub fn counted(lexed: &Lexed<'_>, wrong: Option<usize>) -> Result<u32, Refused>
    ensures count { IfOk result (λ count. count ≡ length lexed.now.tokens.items) }
    ensures within_limit { OnOk result (length lexed.now.tokens.items ≤ 500000) }
    ensures closed { OnOk result (wrong ≡ None) }
    ensures refused { IfErr result (IsRefusal lexed.now.end lexed.now.tokens.items) }
{
    let count = lexed.tokens.len();
    if count > MAX_TOKENS {
        return Err(too_many_tokens(lexed));
    }
    match wrong {
        Some(left) => Err(wrong_closing(lexed, left)),
        None => Ok(count as u32),
    }
}

/// What a file is refused for whose closing name, with so many tokens left there, is another than
/// the one that it is to be.
pub fn wrong_closing(lexed: &Lexed<'_>, left: usize) -> Refused
    ensures { IsRefusal lexed.now.end lexed.now.tokens.items result }
{
    let taken = lexed.tokens.len().saturating_sub(left);
    match &lexed.tokens.as_slice()[taken..] {
        [token, ..] if matches!(token.kind, TokenKind::Ident) => {
            refused_at(lexed, taken, END_NAME_DIFFERS)
        }
        _ => refused_at(lexed, taken, UNEXPECTED_TOKEN),
    }
}

/// The refusal of token 500,001.
pub fn too_many_tokens(lexed: &Lexed<'_>) -> Refused
    requires { 500000 < length lexed.now.tokens.items }
    ensures { IsRefusal lexed.now.end lexed.now.tokens.items result }
{
    refused_at(lexed, MAX_TOKENS, TOO_MANY_TOKENS)
}

/// The refusal of the token behind so many by a rule. Where there is none, the file ends too early.
fn refused_at(lexed: &Lexed<'_>, taken: usize, rule: u16) -> Refused
    requires { taken ≤ length lexed.now.tokens.items }
    ensures { result ≡ Rule (spec.refused rule lexed.now.end (drop taken lexed.now.tokens.items)) }
{
    let (pos, rule) = match &lexed.tokens.as_slice()[taken..] {
        [token, ..] => (token.pos, rule),
        [] => (lexed.end, END_OF_FILE),
    };
    Refused::Rule(Refusal {
        phase: 2,
        unit: lexed.end.file,
        pos,
        rule,
    })
}
