ghost use Rattle.m3_read_cursor.specs.Readers.{Follows};

use crate::blocks::{begins_block, block};
use crate::branches::{case_statement, if_statement, typecase_statement};
use crate::handlers::try_statement;
use crate::heads::call_of;
use crate::jumps::jump;
use crate::loops::{enclosing, for_statement};
use m3_read_cursor::{Reader, begins_expression};
use m3_read_expressions::{expression, statement_head};
use m3_syntax::{Sign, Stmt, TokenKind, Word};

/// Statements, with semicolons between them and maybe behind the last.
#[cycle(statements)]
pub fn statements<'a>(reader: &mut Reader<'_, 'a>, room: u32) -> &'a [Stmt<'a>]
    ensures { Follows reader.old reader.new }
{
    let mut body = Vec::new(reader.alloc);
    'statements: while begins_statement(reader) {
        let statement = statement(reader, room);
        reader.put(&mut body, statement);
        if !reader.skip_sign(Sign::Semicolon) {
            break;
        }
    }
    reader.row(body)
}

/// Whether a statement begins here.
fn begins_statement(reader: &Reader<'_, '_>) -> bool {
    match reader.kind() {
        Some(
            TokenKind::Keyword(
                Word::Case
                | Word::Exit
                | Word::Eval
                | Word::For
                | Word::If
                | Word::Lock
                | Word::Loop
                | Word::Raise
                | Word::Repeat
                | Word::Return
                | Word::Try
                | Word::Typecase
                | Word::While
                | Word::With,
            ),
        ) => true,
        Some(TokenKind::Keyword(word)) if begins_block(word) => true,
        Some(kind) => begins_expression(kind),
        None => false,
    }
}

/// The statement that begins here, given the room of what surrounds it.
#[cycle(statements)]
fn statement<'a>(reader: &mut Reader<'_, 'a>, room: u32) -> Stmt<'a>
    ensures { Follows reader.old reader.new }
{
    let pos = reader.pos();
    // Behind an error any statement serves.
    let Some(room) = reader.inside(room) else {
        return Stmt::Exit { pos };
    };
    match reader.kind() {
        Some(TokenKind::Keyword(word)) => match word {
            Word::Case => case_statement(reader, room),
            Word::Eval | Word::Exit | Word::Raise | Word::Return => jump(reader, room, word),
            Word::For => for_statement(reader, room),
            Word::If => if_statement(reader, room),
            Word::Lock | Word::Loop | Word::Repeat | Word::While | Word::With => {
                enclosing(reader, room, word)
            }
            Word::Try => try_statement(reader, room),
            Word::Typecase => typecase_statement(reader, room),
            _ if begins_block(word) && !begins_procedure_type(reader) => {
                Stmt::Block(block(reader, room))
            }
            _ => assignment_or_call(reader, room),
        },
        _ => assignment_or_call(reader, room),
    }
}

/// Whether a procedure type begins here: a parenthesis tells it from the procedure with which a
/// block begins.
fn begins_procedure_type(reader: &Reader<'_, '_>) -> bool {
    reader.is_word(Word::Procedure)
        && reader.next_kind() == Some(TokenKind::Symbol(Sign::OpenParen))
}

/// The assignment or the call that begins here.
fn assignment_or_call<'a>(reader: &mut Reader<'_, 'a>, room: u32) -> Stmt<'a>
    ensures { Follows reader.old reader.new }
{
    let pos = reader.pos();
    if room == 1 && begins_procedure_type(reader) {
        reader.step();
        reader.too_deep();
        return Stmt::Exit { pos };
    }
    let head = statement_head(reader, room);
    if reader.skip_sign(Sign::Assign) {
        let value = expression(reader, room);
        return Stmt::Assign {
            pos,
            target: head,
            value,
        };
    }
    let Some(call) = call_of(reader, head) else {
        reader.unexpected();
        return Stmt::Exit { pos };
    };
    Stmt::Call {
        pos,
        callee: call.callee,
        parenthesis: call.parenthesis,
        actuals: call.actuals,
    }
}
