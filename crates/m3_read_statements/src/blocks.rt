ghost use Rattle.m3_read_cursor.specs.Readers.{Follows};

use crate::declarations::declaration_list;
use crate::statements::statements;
use m3_read_cursor::Reader;
use m3_syntax::{Block, TokenKind, Word};

/// Whether a keyword begins a block.
pub fn begins_block(word: Word) -> bool {
    matches!(
        word,
        Word::Begin
            | Word::Const
            | Word::Type
            | Word::Exception
            | Word::Var
            | Word::Procedure
            | Word::Reveal
    )
}

/// The block that begins here (the report, section 2.3.13 "Block statement"). `room` is that of
/// what surrounds it.
#[cycle(statements)]
pub fn block<'a>(reader: &mut Reader<'_, 'a>, room: u32) -> Block<'a>
    ensures { Follows reader.old reader.new }
{
    let pos = reader.pos();
    let inside = match reader.kind() {
        Some(TokenKind::Keyword(word)) if begins_block(word) => reader.inside(room),
        _ => {
            reader.unexpected();
            None
        }
    };
    let Some(room) = inside else {
        return Block {
            pos,
            declarations: reader.no_items(),
            body: reader.no_items(),
            end: pos,
        };
    };
    let declarations = declaration_list(reader, room);
    reader.take_word(Word::Begin);
    let body = statements(reader, room);
    let end = reader.take_word(Word::End);
    Block {
        pos,
        declarations,
        body,
        end,
    }
}
