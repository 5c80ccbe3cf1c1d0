ghost use Rattle.m3_read_cursor.specs.Readers.{Follows};

use crate::reader::Reader;
use m3_syntax::{Name, Qualid, Raises, Sign, Word};

/// Names with commas between them, at least one.
pub fn name_list<'a>(reader: &mut Reader<'_, 'a>) -> &'a [Name<'a>]
    ensures { Follows reader.old reader.new }
{
    let mut names = Vec::new(reader.alloc);
    'names: loop {
        let name = reader.take_name();
        reader.put(&mut names, name);
        if !reader.skip_sign(Sign::Comma) {
            break;
        }
    }
    reader.row(names)
}

/// Names with commas between them, maybe none, between two signs.
pub fn names_between<'a>(reader: &mut Reader<'_, 'a>, open: Sign, close: Sign) -> &'a [Name<'a>]
    ensures { Follows reader.old reader.new }
{
    reader.take_sign(open);
    if reader.skip_sign(close) {
        return reader.no_items();
    }
    let names = name_list(reader);
    reader.take_sign(close);
    names
}

/// A name, or an interface's name, a dot and a name of it.
pub fn qualid<'a>(reader: &mut Reader<'_, 'a>) -> Qualid<'a>
    ensures { Follows reader.old reader.new }
{
    let first = reader.take_name();
    let second = if reader.skip_sign(Sign::Dot) {
        Some(reader.take_name())
    } else {
        None
    };
    Qualid { first, second }
}

/// Qualified names with commas between them, at least one.
pub fn qualid_list<'a>(reader: &mut Reader<'_, 'a>) -> &'a [Qualid<'a>]
    ensures { Follows reader.old reader.new }
{
    let mut names = Vec::new(reader.alloc);
    'names: loop {
        let name = qualid(reader);
        reader.put(&mut names, name);
        if !reader.skip_sign(Sign::Comma) {
            break;
        }
    }
    reader.row(names)
}

/// RAISES with ANY or with qualified names in braces; no exception where it isn't here.
pub fn raises<'a>(reader: &mut Reader<'_, 'a>) -> Raises<'a>
    ensures { Follows reader.old reader.new }
{
    if !reader.skip_word(Word::Raises) {
        return Raises::Only(reader.no_items());
    }
    if reader.skip_word(Word::Any) {
        return Raises::Any;
    }
    reader.take_sign(Sign::OpenBrace);
    if reader.skip_sign(Sign::CloseBrace) {
        return Raises::Only(reader.no_items());
    }
    let names = qualid_list(reader);
    reader.take_sign(Sign::CloseBrace);
    Raises::Only(names)
}
