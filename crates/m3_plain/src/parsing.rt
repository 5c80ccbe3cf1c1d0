// From tokens to what the statements put.

ghost use Rattle.std.specs.Prelude.{◌≡◌, ◌≢◌, Bool, ◌++◌, ◌∷◌, [], ℕ, List, Option, Some, None};
ghost use Rattle.std.specs.Prelude.{IfOk, IfSome, IfNone, IsTrue, ◌↔◌, IsErrOf};
ghost use Rattle.m3_plain.specs.declared.tokens.Token.{Token};
ghost use Rattle.m3_plain.specs.declared.tokens.Kind.TheVariants.{Io, Dot, PutInt, Open, Close};
ghost use Rattle.m3_plain.specs.declared.tokens.Kind.TheVariants.{Semicolon};
ghost use Rattle.m3_plain.specs.Terms.{Term, Apply, term_of, terms_of};
ghost use Rattle.m3_plain.specs.Parsing.{After, left_after, product_after, literal_at, operator_at};
ghost use Rattle.m3_plain.specs.Parsing.{sum_at, left_of, joined, PutAt, IsEnd, Parses};

use crate::plain::{Arith, Plain, PlainRefused};
use crate::tokens::{Kind, Token};
use std::alloc::Global;

// What stands before the statements, in a statement before its Sum, and after the statements.
const HEADER: [Kind; 7] = [
    Kind::Module,
    Kind::Main,
    Kind::Semicolon,
    Kind::Import,
    Kind::Io,
    Kind::Semicolon,
    Kind::Begin,
];

const CALL: [Kind; 4] = [Kind::Io, Kind::Dot, Kind::PutInt, Kind::Open];

const TRAILER: [Kind; 3] = [Kind::End, Kind::Main, Kind::Dot];

/// What the statements of a module put, or `NotBuilt` where the tokens are no such module.
pub fn parse(alloc: Global, tokens: &[Token]) -> Result<Vec<Plain>, PlainRefused>
    ensures ok { IfOk result (λ puts. Parses tokens.now (terms_of puts.items)) }
    ensures not_built { IsErrOf result PlainRefused.NotBuilt → (puts : List Term)
        → Parses tokens.now puts → ⊥ }
{
    let mut puts = Vec::new(alloc);
    let mut rest = after(tokens, &HEADER)?;
    while begins(rest, Kind::Io) {
        let (put, left) = statement(alloc, rest)?;
        puts.push(put)?;
        if !begins(left, Kind::Semicolon) {
            return ended(left, puts);
        }
        rest = &left[1..];
    }
    ended(rest, puts)
}

// The puts, where the tokens that are left are the end of the module.
fn ended(tokens: &[Token], puts: Vec<Plain>) -> Result<Vec<Plain>, PlainRefused>
    ensures ok { IfOk result (λ all. (all.items ≡ puts.items) × IsEnd tokens.now) }
    ensures not_built { IsErrOf result PlainRefused.NotBuilt → IsEnd tokens.now → ⊥ }
{
    if after(tokens, &TRAILER)?.is_empty() {
        Ok(puts)
    } else {
        Err(PlainRefused::NotBuilt)
    }
}

// Whether a token of this kind comes first.
fn begins(tokens: &[Token], kind: Kind) -> bool
    ensures { IsTrue result ↔ ((rest : List Token) × After (kind ∷ []) tokens.now rest) }
{
    match tokens {
        [token, ..] => is(*token, kind),
        [] => false,
    }
}

fn is(token: Token, kind: Kind) -> bool
    ensures yes { IsTrue result → token.kind ≡ kind }
    ensures no { result ≡ Bool.false → token.kind ≢ kind }
{
    token.kind == kind
}

// The rest after tokens of these kinds.
fn after<'t>(tokens: &'t [Token], kinds: &[Kind]) -> Result<&'t [Token], PlainRefused>
    ensures ok { IfOk result (λ rest. After kinds.now tokens.now rest.now) }
    ensures not_built { IsErrOf result PlainRefused.NotBuilt → (rest : List Token)
        → After kinds.now tokens.now rest → ⊥ }
{
    let mut left = tokens;
    for kind in kinds {
        let [token, rest @ ..] = left else {
            return Err(PlainRefused::NotBuilt);
        };
        if !is(*token, *kind) {
            return Err(PlainRefused::NotBuilt);
        }
        left = rest;
    }
    Ok(left)
}

// One statement's Sum, and the rest after the statement.
fn statement(alloc: Global, tokens: &[Token]) -> Result<(Plain, &[Token]), PlainRefused>
    ensures ok { IfOk result (λ found. PutAt tokens.now (term_of found.0) found.1.now) }
    ensures not_built { IsErrOf result PlainRefused.NotBuilt → (put : Term) (rest : List Token)
        → PutAt tokens.now put rest → ⊥ }
{
    let (put, close) = sum(alloc, after(tokens, &CALL)?)?;
    let rest = after(close, &[Kind::Close])?;
    Ok((put, rest))
}

// The Sum at the front, as far as it goes, and the rest.
fn sum(alloc: Global, tokens: &[Token]) -> Result<(Plain, &[Token]), PlainRefused>
    ensures ok { IfOk result (λ found. sum_at tokens.now ≡ Some (term_of found.0, found.1.now)) }
    ensures not_built { IsErrOf result PlainRefused.NotBuilt → sum_at tokens.now ≡ None }
{
    let (first, mut rest) = literal(tokens)?;
    let mut product = Plain::Number(first);
    // The sum before the product, the operator between, and its line.
    let mut left: Option<(Plain, Arith, u32)> = None;
    while let Some((op, line, after)) = operator(rest) {
        let (number, after) = literal(after)?;
        let (sum, factor) = go_on(alloc, left, product, op, line, number)?;
        left = sum;
        product = factor;
        rest = after;
    }
    Ok((join(alloc, left, product)?, rest))
}

// The sum that waits and the product, after one more operator and literal.
fn go_on(
    alloc: Global,
    left: Option<(Plain, Arith, u32)>,
    product: Plain,
    op: Arith,
    line: u32,
    number: i64,
) -> Result<(Option<(Plain, Arith, u32)>, Plain), PlainRefused>
    ensures left { IfOk result (λ found. left_of found.0
        ≡ left_after op line (left_of left) (term_of product)) }
    ensures product { IfOk result (λ found. term_of found.1
        ≡ product_after op line (term_of product) number) }
    ensures built { IsErrOf result PlainRefused.NotBuilt → ⊥ }
{
    match op {
        Arith::Mul => {
            let product = apply(alloc, op, line, product, Plain::Number(number))?;
            Ok((left, product))
        }
        Arith::Add | Arith::Sub => {
            let sum = join(alloc, left, product)?;
            Ok((Some((sum, op, line)), Plain::Number(number)))
        }
    }
}

// The operator at the front, its line, and the rest.
fn operator(tokens: &[Token]) -> Option<(Arith, u32, &[Token])>
    ensures found { IfSome result (λ found. operator_at tokens.now
        ≡ Some (found.0, (found.1, found.2.now))) }
    ensures none { IfNone result (operator_at tokens.now ≡ None) }
{
    match tokens {
        [
            Token {
                kind: Kind::Operator(op),
                line,
            },
            rest @ ..,
        ] => Some((*op, *line, rest)),
        _ => None,
    }
}

// The literal at the front, and the rest.
fn literal(tokens: &[Token]) -> Result<(i64, &[Token]), PlainRefused>
    ensures ok { IfOk result (λ found. literal_at tokens.now ≡ Some (found.0, found.1.now)) }
    ensures not_built { IsErrOf result PlainRefused.NotBuilt → literal_at tokens.now ≡ None }
{
    match tokens {
        [
            Token {
                kind: Kind::Literal(number),
                ..
            },
            rest @ ..,
        ] => Ok((*number, rest)),
        _ => Err(PlainRefused::NotBuilt),
    }
}

// The product, added to the sum that waits for it.
fn join(
    alloc: Global,
    left: Option<(Plain, Arith, u32)>,
    product: Plain,
) -> Result<Plain, PlainRefused>
    ensures ok { IfOk result (λ sum. term_of sum ≡ joined (left_of left) (term_of product)) }
    ensures built { IsErrOf result PlainRefused.NotBuilt → ⊥ }
{
    match left {
        None => Ok(product),
        Some((sum, op, line)) => apply(alloc, op, line, sum, product),
    }
}

fn apply(alloc: Global, op: Arith, line: u32, a: Plain, b: Plain) -> Result<Plain, PlainRefused>
    ensures ok { IfOk result (λ term. term_of term ≡ Apply op line (term_of a) (term_of b)) }
    ensures built { IsErrOf result PlainRefused.NotBuilt → ⊥ }
{
    let a = Box::new(alloc, a)?;
    let b = Box::new(alloc, b)?;
    Ok(Plain::Apply(op, line, a, b))
}
