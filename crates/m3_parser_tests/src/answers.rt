use crate::sheets::FILE;
use crate::units::text_of_tree;
use bumpalo::Bump;
use m3_base::{Refusal, Refused};
use m3_lexer::lex;
use m3_parser::parse;
use m3_syntax::Unit;
use std::alloc::{AllocError, Global};
use std::io;

/// What the lexer and the parser say of a text: `= ` and the tree, or `! ` and the rule with its
/// place.
pub fn answer_to(alloc: Global, text: &[u8], has_places: bool) -> io::Result<Vec<u8>> {
    let arena = Bump::new(alloc);
    answer_in(alloc, &arena, text, has_places)
}

/// The same, with the trees in an arena. Tokens and trees borrow it, so the text stands in it too.
fn answer_in<'a>(
    alloc: Global,
    arena: &'a Bump,
    text: &[u8],
    has_places: bool,
) -> io::Result<Vec<u8>> {
    if text.len() >= 4_000_000_000 {
        return Ok(Vec::from_slice(alloc, b"too long")?);
    }
    let text = &*arena.try_alloc_slice_copy(text)?;
    let lexed = match lex(alloc, FILE, text) {
        Ok(lexed) => lexed,
        Err(refused) => return text_of_refused(alloc, refused, 1),
    };
    match parse(alloc, arena, &lexed) {
        Ok(unit) => text_of_unit(alloc, &unit, lexed.tokens.len(), has_places),
        Err(refused) => text_of_refused(alloc, refused, 2),
    }
}

fn text_of_unit(
    alloc: Global,
    unit: &Unit,
    tokens: usize,
    has_places: bool,
) -> io::Result<Vec<u8>> {
    let mut text = text_of_tree(alloc, unit, has_places)?;
    if unit.tokens as usize != tokens {
        text.extend_from_slice(b" with another number of tokens")?;
    }
    Ok(text)
}

fn text_of_refused(alloc: Global, refused: Refused, phase: u8) -> io::Result<Vec<u8>> {
    match refused {
        Refused::NoMemory => Err(io::Error::from(AllocError)),
        Refused::Rule(refusal) => text_of_refusal(alloc, refusal, phase),
    }
}

fn text_of_refusal(alloc: Global, refusal: Refusal, phase: u8) -> io::Result<Vec<u8>> {
    let Refusal {
        phase: found,
        unit,
        pos,
        rule,
    } = refusal;
    let line = pos.line;
    let col = pos.col;
    let mut text = format!(in alloc; "! {rule} {line}:{col}")?;
    if found != phase {
        text.push_str(" of another phase")?;
    }
    if unit != FILE || pos.file != FILE {
        text.push_str(" of another file")?;
    }
    Ok(text.into_bytes())
}
