ghost use Rattle.std.specs.Prelude.{◌≡◌, None, List};
ghost use Rattle.m3_syntax.specs.declared.tokens.Token.{Token};
ghost use Rattle.m3_read_cursor.specs.Readers.{Follows, IsRest};
ghost use Rattle.m3_read_cursor.specs.Refusals.{IsPlaceOfToken, IsPlaceOfName};

use crate::reader::Reader;
use m3_base::Pos;
use m3_syntax::{Name, Sign, Word};

/// What stands before the parts of a unit: its first words and its name, with the place of the
/// first token.
#[derive(Clone, Copy)]
pub struct Heading<'a> {
    pub pos: Pos,
    pub words: FirstWords,
    pub name: Name<'a>,
}

/// What the words before a unit's name say of it.
#[derive(Clone, Copy)]
pub struct FirstWords {
    pub is_unsafe: bool,
    pub is_generic: bool,
    pub is_interface: bool,
}

/// The heading of a unit.
pub fn unit_heading<'a>(reader: &mut Reader<'_, 'a>) -> Heading<'a>
    ensures follows { Follows reader.old reader.new }
    ensures first { (file : List Token) → IsRest file reader.old.rest.now → reader.new.stop ≡ None
        → IsPlaceOfToken file result.pos }
    ensures named { (file : List Token) → IsRest file reader.old.rest.now → reader.new.stop ≡ None
        → IsPlaceOfName file result.name.pos }
{
    let pos = reader.pos();
    let words = first_words(reader);
    let name = reader.take_name();
    Heading { pos, words, name }
}

fn first_words(reader: &mut Reader<'_, '_>) -> FirstWords
    ensures { Follows reader.old reader.new }
{
    let is_unsafe = reader.skip_word(Word::Unsafe);
    let is_generic = !is_unsafe && reader.skip_word(Word::Generic);
    let is_interface = reader.skip_word(Word::Interface);
    if !is_interface {
        reader.take_word(Word::Module);
    }
    FirstWords {
        is_unsafe,
        is_generic,
        is_interface,
    }
}

/// The name behind a unit's parts, which is to be that of the unit, up to the end of the file.
pub fn closing_name<'a>(reader: &mut Reader<'_, 'a>, name: &Name<'a>) -> Name<'a>
    ensures follows { Follows reader.old reader.new }
    ensures place { (file : List Token) → IsRest file reader.old.rest.now → reader.new.stop ≡ None
        → IsPlaceOfName file result.pos }
    ensures same { reader.new.wrong_closing ≡ None → result.text.now ≡ name.now.text.now }
{
    let closing = reader.take_closing(name);
    end_of_file(reader);
    closing
}

/// Goes past the dot that ends a file.
fn end_of_file(reader: &mut Reader<'_, '_>)
    ensures { Follows reader.old reader.new }
{
    reader.take_sign(Sign::Dot);
    if reader.kind().is_some() {
        reader.unexpected();
    }
}
