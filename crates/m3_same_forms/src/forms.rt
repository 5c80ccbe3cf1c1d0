//! Forms: sums of words with factors, and what is known of them.

ghost use Rattle.m3_same_forms.specs.Forms.{Known as KnownValue, Setting as SettingValue};
ghost use Rattle.m3_same_forms.specs.Forms.{Query as QueryValue, Pair as PairValue};
ghost use Rattle.m3_same_forms.specs.declared.forms.Term.{Term as TermValue};
ghost use Rattle.m3_same_forms.specs.Forms.{same_symbol as same_symbols, insert, merge, scaled};
ghost use Rattle.m3_same_forms.specs.Forms.{same_form, weight, mark, of_symbol, of_number, behind};
ghost use Rattle.std.specs.Prelude.{List, [], ◌≡◌, ◌==◌, IfOk, true};

use m3_mid::{CheckedOperator, Relation, WordOperator};
use std::alloc::{AllocError, Global};
use std::marker::Model;

/// What a form adds: the number 1; the addresses of the frame, the globals, a text and a constant; a
/// temporary of the left or the right procedure as it stood where the pair of blocks began; or a word
/// that came since, from an operation or an answer.
#[derive(Clone, Copy)]
pub enum Symbol {
    One,
    Frame,
    Globals,
    Text(u32),
    Constant(u32),
    Left(u32),
    Right(u32),
    New(u32),
}

/// So many times a symbol.
#[derive(Clone, Copy)]
pub struct Term {
    pub symbol: Symbol,
    pub times: u64,
}

/// A sum of terms, modulo 2^64.
#[derive(Drop)]
pub struct Form {
    pub terms: Vec<Term>,
}

impl Model for Form {
    ghost Value = { List TermValue };

    ghost view = { λ f. f.terms.items };
}

/// Whether two symbols are one.
pub fn same_symbol(left: Symbol, right: Symbol) -> bool
    ensures { result ≡ same_symbols left right }
{
    match (left, right) {
        (Symbol::One, Symbol::One) => true,
        (Symbol::Frame, Symbol::Frame) => true,
        (Symbol::Globals, Symbol::Globals) => true,
        (Symbol::Text(n), Symbol::Text(m)) => n == m,
        (Symbol::Constant(n), Symbol::Constant(m)) => n == m,
        (Symbol::Left(t), Symbol::Left(u)) => t == u,
        (Symbol::Right(t), Symbol::Right(u)) => t == u,
        (Symbol::New(n), Symbol::New(m)) => n == m,
        _ => false,
    }
}

// The weight of a symbol in the mark of a form.
fn weight_of(symbol: Symbol) -> u64
    ensures { result ≡ weight symbol }
{
    match symbol {
        Symbol::One => 1,
        Symbol::Frame => 1_000_003,
        Symbol::Globals => 2_000_029,
        Symbol::Text(n) => u64::from(n) * 2_654_435_761 + 3,
        Symbol::Constant(n) => u64::from(n) * 2_246_822_519 + 5,
        Symbol::Left(t) => u64::from(t) * 3_266_489_917 + 7,
        Symbol::Right(t) => u64::from(t) * 668_265_263 + 11,
        Symbol::New(n) => u64::from(n) * 374_761_393 + 13,
    }
}

// Whether two forms are written alike, with no term that is 0 times its symbol. Most that are the
// same are.
fn are_alike(left: &[Term], right: &[Term]) -> bool
    ensures { result ≡ true → same_form left.now right.now ≡ true }
{
    if left.len() != right.len() {
        return false;
    }
    let mut i = 0;
    while i < left.len() {
        let Term { symbol, times } = left[i];
        let other = right[i];
        if times == 0 || times != other.times || !same_symbol(other.symbol, symbol) {
            return false;
        }
        i += 1;
    }
    true
}

impl Form {
    // A number by which most forms that differ are told apart.
    fn mark(&self) -> u64
        ensures { result ≡ mark self.now }
    {
        let mut out = 0u64;
        for term in &self.terms {
            out = out.wrapping_add(term.times.wrapping_mul(weight_of(term.symbol)));
        }
        out
    }

    // Whether the marks of two forms are one.
    fn has_same_mark(&self, other: &Form) -> bool
        ensures { result ≡ (mark self.now == mark other.now) }
    {
        self.mark() == other.mark()
    }

    /// The number 0.
    pub fn none(alloc: Global) -> Form
        ensures { result ≡ [] }
    {
        Form {
            terms: Vec::new(alloc),
        }
    }

    /// One symbol.
    pub fn of_symbol(alloc: Global, symbol: Symbol) -> Result<Form, AllocError>
        ensures { IfOk result (λ f. f ≡ of_symbol symbol) }
    {
        let mut terms = Vec::new(alloc);
        terms.push(Term { symbol, times: 1 })?;
        Ok(Form { terms })
    }

    /// A number.
    pub fn of_number(alloc: Global, number: u64) -> Result<Form, AllocError>
        ensures { IfOk result (λ f. f ≡ of_number number) }
    {
        let mut terms = Vec::new(alloc);
        if number != 0 {
            terms.push(Term {
                symbol: Symbol::One,
                times: number,
            })?;
        }
        Ok(Form { terms })
    }

    /// A symbol and a number.
    pub(crate) fn behind(alloc: Global, symbol: Symbol, number: u64) -> Result<Form, AllocError>
        ensures { IfOk result (λ f. f ≡ behind symbol number) }
    {
        let start = Form::of_symbol(alloc, symbol)?;
        Form::of_number(alloc, number)?.merge(alloc, start)
    }

    /// A term more.
    pub fn insert(&self, alloc: Global, symbol: Symbol, times: u64) -> Result<Form, AllocError>
        ensures { IfOk result (λ f. f ≡ insert symbol times self.now) }
    {
        let mut terms = Vec::new(alloc);
        let mut is_in = false;
        for term in &self.terms {
            if !is_in && same_symbol(symbol, term.symbol) {
                is_in = true;
                let total = times.wrapping_add(term.times);
                if total != 0 {
                    terms.push(Term {
                        symbol,
                        times: total,
                    })?;
                }
            } else {
                terms.push(*term)?;
            }
        }
        if !is_in && times != 0 {
            terms.push(Term { symbol, times })?;
        }
        Ok(Form { terms })
    }

    /// The sum of two forms.
    pub fn merge(&self, alloc: Global, other: Form) -> Result<Form, AllocError>
        ensures { IfOk result (λ f. f ≡ merge self.now other) }
    {
        let mut sum = other;
        for term in &self.terms {
            sum = sum.insert(alloc, term.symbol, term.times)?;
        }
        Ok(sum)
    }

    /// So many times a form.
    pub fn scaled(&self, alloc: Global, factor: u64) -> Result<Form, AllocError>
        ensures { IfOk result (λ f. f ≡ scaled factor self.now) }
    {
        let mut terms = Vec::new(alloc);
        for term in &self.terms {
            let times = factor.wrapping_mul(term.times);
            if times != 0 {
                terms.push(Term {
                    symbol: term.symbol,
                    times,
                })?;
            }
        }
        Ok(Form { terms })
    }

    /// The same form once more.
    pub fn copy(&self, alloc: Global) -> Result<Form, AllocError>
        ensures { IfOk result (λ f. f ≡ self.now) }
    {
        Ok(Form {
            terms: Vec::from_slice(alloc, &self.terms)?,
        })
    }

    /// Whether the difference of two forms falls away.
    pub fn is_same(&self, alloc: Global, other: &Form) -> Result<bool, AllocError>
        ensures { IfOk result (λ b. b ≡ same_form self.now other.now) }
    {
        if are_alike(&self.terms, &other.terms) {
            return Ok(true);
        }
        if !self.has_same_mark(other) {
            return Ok(false);
        }
        let opposite = other.scaled(alloc, u64::MAX)?;
        let difference = opposite.merge(alloc, self.copy(alloc)?)?;
        Ok(difference.terms.is_empty())
    }
}

/// What gives a word, but sums: by up to three words, and for the later ones by memory too.
#[derive(Clone, Copy)]
pub enum Tag {
    /// An operator but Add and Subtract, of two words.
    Operator(WordOperator),
    /// A checked operator of two words, where it doesn't fault.
    Checked(CheckedOperator),
    /// Whether a relation holds between two words: 1 or 0.
    Compared(Relation),
    /// The environment.
    Environment,
    /// A slot that isn't shared.
    OwnSlot(u32),
    /// Whether a cell is of a type.
    TypeTest(u32),
    /// A method of an object.
    MethodOf(u32),
    /// The word at an address.
    Loaded,
    /// Whether so many words at two addresses are equal.
    EqualWords,
    /// The byte of a text at a place.
    TextByte,
    /// Whether two texts are equal.
    EqualTexts,
}

/// A question to which a word is the answer. Words that the tag doesn't name are 0.
#[derive(Drop)]
pub struct Query {
    pub tag: Tag,
    pub first: Form,
    pub second: Form,
    pub third: Form,
}

impl Model for Query {
    ghost Value = { QueryValue };

    ghost view = { λ x. record { tag = x.tag; first = x.first; second = x.second; third = x.third } };
}

/// A question whose answer is known.
#[derive(Drop)]
pub struct Known {
    pub query: Query,
    pub value: Form,
}

impl Model for Known {
    ghost Value = { KnownValue };

    ghost view = { λ x. record { query = x.query; value = x.value } };
}

/// What a temporary holds.
#[derive(Drop)]
pub struct Setting {
    pub temp: u32,
    pub value: Form,
}

impl Model for Setting {
    ghost Value = { SettingValue };

    ghost view = { λ x. record { temp = x.temp; value = x.value } };
}

/// A part of a proof. Where the two procedures come to these blocks, each temporary of the right one
/// that the two have in common is the left one's, but for the settings; what some temporaries of the
/// left one hold stands beside them; and this is known.
#[derive(Drop)]
pub struct Pair {
    pub left: u32,
    pub right: u32,
    pub left_settings: Vec<Setting>,
    pub settings: Vec<Setting>,
    pub knowns: Vec<Known>,
}

impl Model for Pair {
    ghost Value = { PairValue };

    ghost view = { λ x. record {
      left = x.left;
      right = x.right;
      left_settings = x.left_settings.items;
      settings = x.settings.items;
      knowns = x.knowns.items;
    } };
}
