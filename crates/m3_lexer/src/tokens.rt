ghost use Rattle.std.specs.Prelude.{◌<◌, length, IfOk, IfErr};
ghost use Rattle.m3_syntax.specs.Lexis.{AreTokens};
ghost use Rattle.m3_lexer.specs.Lexing.{IsRefusal};

use crate::fronts::{Front, front_of};
use crate::places::place_after;
use m3_base::{Pos, Refusal, Refused};
use m3_syntax::{Lexed, Token};
use std::alloc::Global;

/// The tokens of a file (the report, section 2.9), given its number and its bytes, and the place behind
/// its last byte. Each token borrows its bytes and has the place of the first. Lines and columns count
/// from 1, columns in bytes, which the condition keeps below 2^32.
///
/// An `Err` is the first broken rule of 1 to 9: of phase 1, with the file's number as its unit and with
/// its place. Want of memory is the other `Err`.
pub fn lex<'a>(alloc: Global, file: u32, src: &'a [u8]) -> Result<Lexed<'a>, Refused>
    requires { length src.now < 4294967295 }
    ensures tokens { IfOk result (λ x. AreTokens file src.now x.tokens.items x.end) }
    ensures refused { IfErr result (λ e. IsRefusal file src.now e) }
{
    let mut tokens = Vec::new(alloc);
    let mut pos = Pos {
        file,
        line: 1,
        col: 1,
    };
    let mut rest = src;
    while !rest.is_empty() {
        match front_of(rest) {
            Ok(Front::Skipped(len)) => {
                let (front, after) = rest.split_at(len);
                pos = place_after(pos, front);
                rest = after;
            }
            Ok(Front::Spelled(kind, len)) => {
                let (text, after) = rest.split_at(len);
                tokens.push(Token { kind, text, pos })?;
                pos = place_after(pos, text);
                rest = after;
            }
            Err(rule) => {
                return Err(Refused::Rule(Refusal {
                    phase: 1,
                    unit: file,
                    pos,
                    rule,
                }));
            }
        }
    }
    Ok(Lexed { tokens, end: pos })
}
