use crate::words::{Words, marked, operator_of, relation_of};
use m3_mid::CheckedOperator;
use m3_same_forms::{Form, Known, Pair, Query, Setting, Symbol, Tag};
use std::alloc::{AllocError, Global};

/// The proof of a text, where it can be read. A pair of blocks is a line `B1 B2`, and behind a
/// colon what holds there, with semicolons between:
///
/// - `t8 = FORM`: what a temporary of the right procedure holds;
/// - `l2 = FORM`: what one of the left procedure holds;
/// - `QUESTION = FORM`: an answer that is known. A question is `s1`, `load FORM`, `checked FORM
///   FORM` (a sum), or an operator or a relation before two forms.
///
/// A form has numbers and symbols with a `+` between, each with its factor as `4*t1`, if it has
/// one: `t1` is a temporary of the left procedure as it stood at the begin of the blocks, `r1` one
/// of the right one, and `globals` the address of the globals. A line `own t3` is none of a pair
/// (`common_of`).
pub fn proof_of(alloc: Global, text: &str) -> Result<Option<Vec<Pair>>, AllocError> {
    let mut proof = Vec::new(alloc);
    for line in text.lines() {
        if line.strip_prefix("own ").is_some() {
            continue;
        }
        let Some(pair) = pair_of(alloc, line)? else {
            return Ok(None);
        };
        proof.push(pair)?;
    }
    Ok(Some(proof))
}

/// Which of so many temporaries the two procedures have in common: all but those that lines `own t3`
/// of the proof name.
pub fn common_of(alloc: Global, temps: u32, text: &str) -> Result<Vec<bool>, AllocError> {
    let mut common = Vec::new(alloc);
    for temp in 0..temps {
        let is_own = text.lines().any(|line| line
            .strip_prefix("own ")
            .and_then(|word| marked("t", word))
            == Some(temp));
        common.push(!is_own)?;
    }
    Ok(common)
}

fn pair_of(alloc: Global, line: &str) -> Result<Option<Pair>, AllocError> {
    let (blocks, facts) = line.split_once(": ").unwrap_or((line, ""));
    let mut words = Words::of(blocks);
    let (Some(left), Some(right)) = (marked("B", words.take()), marked("B", words.take())) else {
        return Ok(None);
    };
    let mut pair = Pair {
        left,
        right,
        left_settings: Vec::new(alloc),
        settings: Vec::new(alloc),
        knowns: Vec::new(alloc),
    };
    if facts.is_empty() {
        return Ok(Some(pair));
    }
    for fact in facts.split("; ") {
        if !add_fact(alloc, &mut pair, fact)? {
            return Ok(None);
        }
    }
    Ok(Some(pair))
}

/// Adds what holds, and says whether it could be read.
fn add_fact(alloc: Global, pair: &mut Pair, fact: &str) -> Result<bool, AllocError> {
    let (question, value) = fact.split_once(" = ").unwrap_or((fact, ""));
    let Some(value) = form_of(alloc, value)? else {
        return Ok(false);
    };
    if let Some(temp) = marked("t", question) {
        pair.settings.push(Setting { temp, value })?;
        return Ok(true);
    }
    if let Some(temp) = marked("l", question) {
        pair.left_settings.push(Setting { temp, value })?;
        return Ok(true);
    }
    match query_of(alloc, question)? {
        Some(query) => {
            pair.knowns.push(Known { query, value })?;
            Ok(true)
        }
        None => Ok(false),
    }
}

fn query_of(alloc: Global, question: &str) -> Result<Option<Query>, AllocError> {
    let mut words = Words::of(question);
    let Some(tag) = tag_of(words.take()) else {
        return Ok(None);
    };
    let first = form_of(alloc, words.take())?;
    let second = form_of(alloc, words.take())?;
    match (first, second) {
        (Some(first), Some(second)) => Ok(Some(Query {
            tag,
            first,
            second,
            third: Form::none(alloc),
        })),
        _ => Ok(None),
    }
}

fn tag_of(word: &str) -> Option<Tag> {
    if let Some(slot) = marked("s", word) {
        return Some(Tag::OwnSlot(slot));
    }
    if let Some(operator) = operator_of(word) {
        return Some(Tag::Operator(operator));
    }
    if let Some(relation) = relation_of(word) {
        return Some(Tag::Compared(relation));
    }
    match word {
        "load" => Some(Tag::Loaded),
        "checked" => Some(Tag::Checked(CheckedOperator::Add)),
        _ => None,
    }
}

/// The form of a word, where it can be read; that of no word is 0.
fn form_of(alloc: Global, word: &str) -> Result<Option<Form>, AllocError> {
    let mut form = Form::none(alloc);
    if word.is_empty() {
        return Ok(Some(form));
    }
    for term in word.split("+") {
        let (factor, symbol) = term.split_once("*").unwrap_or(("1", term));
        let (Ok(times), Some((symbol, own))) = (factor.parse::<u64>(), symbol_of(symbol)) else {
            return Ok(None);
        };
        form = form.insert(alloc, symbol, times.wrapping_mul(own))?;
    }
    Ok(Some(form))
}

/// A symbol once, or the number 1 as often as the number says.
fn symbol_of(word: &str) -> Option<(Symbol, u64)> {
    if let Some(temp) = marked("t", word) {
        return Some((Symbol::Left(temp), 1));
    }
    if let Some(temp) = marked("r", word) {
        return Some((Symbol::Right(temp), 1));
    }
    if word == "globals" {
        return Some((Symbol::Globals, 1));
    }
    Some((Symbol::One, word.parse::<u64>().ok()?))
}
