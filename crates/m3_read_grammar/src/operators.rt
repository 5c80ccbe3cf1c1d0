ghost use Rattle.std.specs.Prelude.{◌≡◌};
ghost use Rattle.m3_read_grammar.specs.Operators as spec;

use m3_syntax::{Operator, Sign, TokenKind, Word};

/// How tightly operators bind, the loosest first. NOT stands between AND and the relations.
#[derive(Clone, Copy, PartialEq, Eq)]
pub enum Level {
    Disjunction,
    Conjunction,
    Relation,
    Sum,
    Product,
}

/// The level of an operator.
pub fn level_of(operator: Operator) -> Level
    ensures { result ≡ spec.level_of operator }
{
    match operator {
        Operator::Or => Level::Disjunction,
        Operator::And => Level::Conjunction,
        Operator::Equal
        | Operator::NotEqual
        | Operator::Less
        | Operator::LessEqual
        | Operator::Greater
        | Operator::GreaterEqual
        | Operator::In => Level::Relation,
        Operator::Plus | Operator::Minus | Operator::Concatenate => Level::Sum,
        Operator::Times | Operator::Slash | Operator::Div | Operator::Mod => Level::Product,
    }
}

/// The operator between operands that a token is, if it is one.
pub fn operator_of(kind: TokenKind) -> Option<Operator>
    ensures { result ≡ spec.operator_of kind }
{
    match kind {
        TokenKind::Keyword(word) => operator_of_word(word),
        TokenKind::Symbol(sign) => operator_of_sign(sign),
        _ => None,
    }
}

fn operator_of_word(word: Word) -> Option<Operator>
    ensures { result ≡ spec.operator_of_word word }
{
    match word {
        Word::Or => Some(Operator::Or),
        Word::And => Some(Operator::And),
        Word::In => Some(Operator::In),
        Word::Div => Some(Operator::Div),
        Word::Mod => Some(Operator::Mod),
        _ => None,
    }
}

fn operator_of_sign(sign: Sign) -> Option<Operator>
    ensures { result ≡ spec.operator_of_sign sign }
{
    match sign {
        Sign::Equal => Some(Operator::Equal),
        Sign::Hash => Some(Operator::NotEqual),
        Sign::Less => Some(Operator::Less),
        Sign::LessEqual => Some(Operator::LessEqual),
        Sign::Greater => Some(Operator::Greater),
        Sign::GreaterEqual => Some(Operator::GreaterEqual),
        Sign::Plus => Some(Operator::Plus),
        Sign::Minus => Some(Operator::Minus),
        Sign::Ampersand => Some(Operator::Concatenate),
        Sign::Star => Some(Operator::Times),
        Sign::Slash => Some(Operator::Slash),
        _ => None,
    }
}
