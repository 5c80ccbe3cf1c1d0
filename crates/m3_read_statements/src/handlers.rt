ghost use Rattle.m3_read_cursor.specs.Readers.{Follows};

use crate::branches::otherwise;
use crate::statements::statements;
use m3_read_cursor::{Reader, qualid_list};
use m3_syntax::{Handler, Name, Sign, Stmt, Word};

/// TRY with FINALLY, or with handlers behind EXCEPT.
#[cycle(statements)]
pub fn try_statement<'a>(reader: &mut Reader<'_, 'a>, room: u32) -> Stmt<'a>
    ensures { Follows reader.old reader.new }
{
    let pos = reader.take_word(Word::Try);
    let body = statements(reader, room);
    if reader.skip_word(Word::Finally) {
        let last = statements(reader, room);
        reader.take_word(Word::End);
        return Stmt::TryFinally { pos, body, last };
    }
    reader.take_word(Word::Except);
    let handlers = handlers(reader, room);
    let otherwise = otherwise(reader, room);
    Stmt::TryExcept {
        pos,
        body,
        handlers,
        otherwise,
    }
}

#[cycle(statements)]
fn handlers<'a>(reader: &mut Reader<'_, 'a>, room: u32) -> &'a [Handler<'a>]
    ensures { Follows reader.old reader.new }
{
    let mut handlers = Vec::new(reader.alloc);
    if reader.is_name() || reader.skip_sign(Sign::Bar) {
        'handlers: loop {
            let exceptions = qualid_list(reader);
            let argument = parenthesized_name(reader);
            reader.take_sign(Sign::Arrow);
            let body = statements(reader, room);
            let handler = Handler {
                exceptions,
                argument,
                body,
            };
            reader.put(&mut handlers, handler);
            if !reader.skip_sign(Sign::Bar) {
                break;
            }
        }
    }
    reader.row(handlers)
}

/// The name in parentheses that a handler or a branch of TYPECASE may give to its value.
pub fn parenthesized_name<'a>(reader: &mut Reader<'_, 'a>) -> Option<Name<'a>>
    ensures { Follows reader.old reader.new }
{
    if !reader.skip_sign(Sign::OpenParen) {
        return None;
    }
    let name = reader.take_name();
    reader.take_sign(Sign::CloseParen);
    Some(name)
}
