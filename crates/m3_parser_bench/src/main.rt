//! Lexes and parses a text of a given number of MiB, in files of one MiB each, and prints how many
//! tokens and safe units they have. An argument gives the number; without one it is 8.
#![tactic(auto)]

mod owner;

use crate::owner::count_safe;
use bumpalo::Bump;
use m3_base::Refused;
use m3_lexer::lex;
use m3_parser::parse;
use std::alloc::{AllocError, Global};
use std::rt::Env;
use std::{env, io};

/// The bytes of a file.
const FILE: usize = 1_048_576;

/// A procedure as programs have them.
const PROCEDURE: &str = "PROCEDURE P(VAR a: ARRAY OF INTEGER; n: INTEGER): INTEGER =
  VAR sum: INTEGER := 0; found := FALSE;
  BEGIN
    FOR i := 0 TO n - 1 DO
      IF a[i] > 10 AND NOT found THEN sum := sum + a[i] * 2 ELSE INC(sum, Weight(a, i)) END
    END;
    WHILE sum > 1000 DO sum := sum DIV 2; found := sum IN Small END;
    RETURN sum
  END P;
";

/// A module of about one MiB.
fn module(alloc: Global) -> Result<String, AllocError> {
    let mut text = String::from_str(alloc, "MODULE M;\n")?;
    for _ in 0..FILE / PROCEDURE.len() {
        text.push_str(PROCEDURE)?;
    }
    text.push_str("BEGIN END M.\n")?;
    Ok(text)
}

/// How many tokens and how many safe units a text has, where it is a unit, or the rule that it
/// breaks.
fn counts_of<'a>(
    alloc: Global,
    arena: &'a Bump,
    file: u32,
    text: &'a [u8],
) -> Result<(u32, usize), Refused> {
    if text.len() >= 4_000_000_000 {
        return Ok((0, 0));
    }
    let lexed = lex(alloc, file, text)?;
    let unit = parse(alloc, arena, &lexed)?;
    let safe = count_safe(alloc, &[unit])?;
    Ok((unit.tokens, safe))
}

fn run(rt: &(impl Print + Env + AllocGlobal)) -> io::Result<()> {
    let mut files = 8u32;
    for word in env::args(rt)?.skip(1) {
        files = word.as_str().parse::<u32>().unwrap_or(files);
    }
    let text = module(rt.alloc())?;
    // The text stands in the arena of the trees that borrow it.
    let owner = Bump::new(rt.alloc());
    let arena = &owner;
    let text = &*arena.try_alloc_slice_copy(text.as_bytes())?;
    let mut tokens = 0u64;
    let mut safe = 0usize;
    for file in 0..files {
        match counts_of(rt.alloc(), arena, file, text) {
            Ok((more_tokens, more_units)) => {
                tokens = tokens.saturating_add(u64::from(more_tokens));
                safe = safe.saturating_add(more_units);
            }
            Err(_) => println!(rt; "file {file} is refused")?,
        }
    }
    println!(rt; "{files} files, {tokens} tokens, {safe} safe units")
}

fn main(rt: HostRuntime) -> io::Result<()> {
    run(&rt)
}
