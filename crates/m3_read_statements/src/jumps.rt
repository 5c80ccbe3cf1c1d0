ghost use Rattle.m3_read_cursor.specs.Readers.{Follows};

use m3_read_cursor::{Reader, begins_expression, qualid};
use m3_read_expressions::expression;
use m3_syntax::{Expr, Sign, Stmt, Word};

/// EVAL, EXIT, RAISE or RETURN, which the word here is.
pub fn jump<'a>(reader: &mut Reader<'_, 'a>, room: u32, word: Word) -> Stmt<'a>
    ensures { Follows reader.old reader.new }
{
    let pos = reader.take_word(word);
    match word {
        Word::Eval => {
            let value = expression(reader, room);
            Stmt::Eval { pos, value }
        }
        Word::Raise => {
            let exception = qualid(reader);
            let argument = argument(reader, room);
            Stmt::Raise {
                pos,
                exception,
                argument,
            }
        }
        Word::Return => {
            let value = match reader.kind() {
                Some(kind) if begins_expression(kind) => Some(expression(reader, room)),
                _ => None,
            };
            Stmt::Return { pos, value }
        }
        _ => Stmt::Exit { pos },
    }
}

/// The argument in parentheses that an exception may have.
fn argument<'a>(reader: &mut Reader<'_, 'a>, room: u32) -> Option<&'a Expr<'a>>
    ensures { Follows reader.old reader.new }
{
    if !reader.skip_sign(Sign::OpenParen) {
        return None;
    }
    let argument = expression(reader, room);
    reader.take_sign(Sign::CloseParen);
    Some(argument)
}
