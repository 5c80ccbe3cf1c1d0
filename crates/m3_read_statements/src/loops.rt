ghost use Rattle.m3_read_cursor.specs.Readers.{Follows};

use crate::statements::statements;
use m3_read_cursor::Reader;
use m3_read_expressions::expression;
use m3_syntax::{Binding, Sign, Stmt, Word};

/// LOCK, LOOP, REPEAT, WHILE or WITH, which the word here is.
#[cycle(statements)]
pub fn enclosing<'a>(reader: &mut Reader<'_, 'a>, room: u32, word: Word) -> Stmt<'a>
    ensures { Follows reader.old reader.new }
{
    let pos = reader.take_word(word);
    match word {
        Word::Lock => {
            let mutex = expression(reader, room);
            let body = done(reader, room);
            Stmt::Lock { pos, mutex, body }
        }
        Word::Loop => {
            let body = statements(reader, room);
            reader.take_word(Word::End);
            Stmt::Loop { pos, body }
        }
        Word::Repeat => {
            let body = statements(reader, room);
            reader.take_word(Word::Until);
            let condition = expression(reader, room);
            Stmt::Repeat {
                pos,
                body,
                condition,
            }
        }
        Word::While => {
            let condition = expression(reader, room);
            let body = done(reader, room);
            Stmt::While {
                pos,
                condition,
                body,
            }
        }
        _ => {
            let bindings = bindings(reader, room);
            let body = done(reader, room);
            Stmt::With {
                pos,
                bindings,
                body,
            }
        }
    }
}

/// DO, statements and END.
#[cycle(statements)]
fn done<'a>(reader: &mut Reader<'_, 'a>, room: u32) -> &'a [Stmt<'a>]
    ensures { Follows reader.old reader.new }
{
    reader.take_word(Word::Do);
    let body = statements(reader, room);
    reader.take_word(Word::End);
    body
}

/// `name = value`, with commas between them.
fn bindings<'a>(reader: &mut Reader<'_, 'a>, room: u32) -> &'a [Binding<'a>]
    ensures { Follows reader.old reader.new }
{
    let mut bindings = Vec::new(reader.alloc);
    'bindings: loop {
        let name = reader.take_name();
        reader.take_sign(Sign::Equal);
        let value = expression(reader, room);
        reader.put(&mut bindings, Binding { name, value });
        if !reader.skip_sign(Sign::Comma) {
            break;
        }
    }
    reader.row(bindings)
}

/// FOR over a range, with its step where BY gives one.
#[cycle(statements)]
pub fn for_statement<'a>(reader: &mut Reader<'_, 'a>, room: u32) -> Stmt<'a>
    ensures { Follows reader.old reader.new }
{
    let pos = reader.take_word(Word::For);
    let name = reader.take_name();
    reader.take_sign(Sign::Assign);
    let first = expression(reader, room);
    reader.take_word(Word::To);
    let last = expression(reader, room);
    let step = if reader.skip_word(Word::By) {
        Some(expression(reader, room))
    } else {
        None
    };
    let body = done(reader, room);
    Stmt::For {
        pos,
        name,
        first,
        last,
        step,
        body,
    }
}
