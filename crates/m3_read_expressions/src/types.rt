ghost use Rattle.m3_read_cursor.specs.Readers.{Follows};

use crate::expressions::{expression, kept_value, phrase};
use crate::members::{fields, methods, overrides, signature};
use crate::settings::Want;
use crate::trees::keep_type;
use m3_base::Pos;
use m3_read_cursor::{Reader, begins_type, names_between, qualid};
use m3_syntax::{Brand, ObjectPart, Sign, TokenKind, TypeExp, TypeName, Word};

/// A type (the report, section 2.2). `room` is that of what surrounds it: the type itself opens one
/// construct.
#[cycle(expressions)]
pub fn type_expression<'a>(reader: &mut Reader<'_, 'a>, room: u32) -> &'a TypeExp<'a>
    ensures { Follows reader.old reader.new }
{
    let pos = reader.pos();
    let inside = match reader.kind() {
        Some(kind) if begins_type(kind) => reader.inside(room),
        _ => {
            reader.unexpected();
            None
        }
    };
    match inside {
        Some(room) => opened_type(reader, room),
        None => keep_type(reader, TypeExp::Missing { pos }),
    }
}

/// The type that begins here, given the room inside it.
#[cycle(expressions)]
pub fn opened_type<'a>(reader: &mut Reader<'_, 'a>, room: u32) -> &'a TypeExp<'a>
    ensures { Follows reader.old reader.new }
{
    let pos = reader.pos();
    match reader.kind() {
        Some(TokenKind::Ident) => {
            let name = TypeName::Named(qualid(reader));
            named_type(reader, room, name)
        }
        Some(TokenKind::Symbol(sign)) => enclosed_type(reader, room, sign),
        Some(TokenKind::Keyword(word)) => match word {
            Word::Root => {
                reader.step();
                named_type(reader, room, TypeName::Root(pos))
            }
            Word::Untraced | Word::Ref | Word::Branded | Word::Object => {
                reference_or_object(reader, room)
            }
            _ => composed_type(reader, room, word),
        },
        _ => {
            reader.unexpected();
            keep_type(reader, TypeExp::Missing { pos })
        }
    }
}

/// A type in parentheses, a subrange or an enumeration, which this sign begins.
#[cycle(expressions)]
fn enclosed_type<'a>(reader: &mut Reader<'_, 'a>, room: u32, sign: Sign) -> &'a TypeExp<'a>
    ensures { Follows reader.old reader.new }
{
    let pos = reader.pos();
    let kind = match sign {
        Sign::OpenParen => {
            reader.take_sign(Sign::OpenParen);
            let inner = type_expression(reader, room);
            reader.take_sign(Sign::CloseParen);
            TypeExp::Parenthesis { pos, inner }
        }
        Sign::OpenBracket => {
            reader.take_sign(Sign::OpenBracket);
            let first = expression(reader, room);
            reader.take_sign(Sign::DotDot);
            let last = expression(reader, room);
            reader.take_sign(Sign::CloseBracket);
            TypeExp::Subrange { pos, first, last }
        }
        _ => {
            let members = names_between(reader, Sign::OpenBrace, Sign::CloseBrace);
            TypeExp::Enumeration { pos, members }
        }
    };
    keep_type(reader, kind)
}

/// ARRAY, BITS, PROCEDURE, RECORD or SET, which this word begins.
#[cycle(expressions)]
fn composed_type<'a>(reader: &mut Reader<'_, 'a>, room: u32, word: Word) -> &'a TypeExp<'a>
    ensures { Follows reader.old reader.new }
{
    let pos = reader.pos();
    let kind = match word {
        Word::Array => {
            let indexes = array_indexes(reader, room);
            let element = type_expression(reader, room);
            TypeExp::Array {
                pos,
                indexes,
                element,
            }
        }
        Word::Bits => {
            reader.take_word(Word::Bits);
            let width = expression(reader, room);
            reader.take_word(Word::For);
            let target = type_expression(reader, room);
            TypeExp::Bits { pos, width, target }
        }
        Word::Procedure => {
            reader.take_word(Word::Procedure);
            let signature = signature(reader, room);
            TypeExp::Procedure { pos, signature }
        }
        Word::Set => {
            reader.take_word(Word::Set);
            reader.take_word(Word::Of);
            let base = type_expression(reader, room);
            TypeExp::Set { pos, base }
        }
        _ => {
            reader.take_word(Word::Record);
            let fields = fields(reader, room);
            reader.take_word(Word::End);
            TypeExp::Record { pos, fields }
        }
    };
    keep_type(reader, kind)
}

/// ARRAY, the types of the indexes and OF.
#[cycle(expressions)]
fn array_indexes<'a>(reader: &mut Reader<'_, 'a>, room: u32) -> &'a [TypeExp<'a>]
    ensures { Follows reader.old reader.new }
{
    reader.take_word(Word::Array);
    let mut indexes = Vec::new(reader.alloc);
    if !reader.is_word(Word::Of) {
        'indexes: loop {
            let index = *type_expression(reader, room);
            reader.put(&mut indexes, index);
            if !reader.skip_sign(Sign::Comma) {
                break;
            }
        }
    }
    reader.take_word(Word::Of);
    reader.row(indexes)
}

/// A reference or an object type, or `UNTRACED ROOT`.
#[cycle(expressions)]
fn reference_or_object<'a>(reader: &mut Reader<'_, 'a>, room: u32) -> &'a TypeExp<'a>
    ensures { Follows reader.old reader.new }
{
    let pos = reader.pos();
    let is_untraced = reader.skip_word(Word::Untraced);
    if is_untraced && reader.skip_word(Word::Root) {
        return named_type(reader, room, TypeName::UntracedRoot(pos));
    }
    let brand = brand(reader, room);
    let kind = if is_untraced || reader.is_word(Word::Ref) {
        reader.take_word(Word::Ref);
        TypeExp::Ref {
            pos,
            is_untraced,
            brand,
            target: type_expression(reader, room),
        }
    } else {
        TypeExp::Object {
            pos,
            parent: None,
            parts: object_parts(reader, room, brand),
        }
    };
    keep_type(reader, kind)
}

/// A named type, or an object type of which it is the parent.
#[cycle(expressions)]
pub fn named_type<'a>(reader: &mut Reader<'_, 'a>, room: u32, name: TypeName<'a>) -> &'a TypeExp<'a>
    ensures { Follows reader.old reader.new }
{
    if !begins_object(reader) {
        return keep_type(reader, TypeExp::Named(name));
    }
    let brand = brand(reader, room);
    let parts = object_parts(reader, room, brand);
    let object = TypeExp::Object {
        pos: name.pos(),
        parent: Some(name),
        parts,
    };
    keep_type(reader, object)
}

/// Whether an object type begins or goes on with the token here.
pub fn begins_object(reader: &Reader<'_, '_>) -> bool {
    reader.is_word(Word::Branded) || reader.is_word(Word::Object)
}

/// The parts of an object type, given the brand of the first.
#[cycle(expressions)]
fn object_parts<'a>(
    reader: &mut Reader<'_, 'a>,
    room: u32,
    brand_of_first: Option<Brand<'a>>,
) -> &'a [ObjectPart<'a>]
    ensures { Follows reader.old reader.new }
{
    let mut parts = Vec::new(reader.alloc);
    let mut brand_of_next = brand_of_first;
    'parts: loop {
        let pos = match brand_of_next {
            Some(brand) => brand.pos,
            None => reader.pos(),
        };
        if !reader.skip_word(Word::Object) {
            reader.unexpected();
            break;
        }
        let part = members_of(reader, room, pos, brand_of_next);
        reader.put(&mut parts, part);
        if !begins_object(reader) {
            break;
        }
        brand_of_next = brand(reader, room);
    }
    reader.row(parts)
}

/// What stands behind OBJECT, up to its END.
#[cycle(expressions)]
fn members_of<'a>(
    reader: &mut Reader<'_, 'a>,
    room: u32,
    pos: Pos,
    brand: Option<Brand<'a>>,
) -> ObjectPart<'a>
    ensures { Follows reader.old reader.new }
{
    let fields = fields(reader, room);
    let methods = methods(reader, room);
    let overrides = overrides(reader, room);
    reader.take_word(Word::End);
    ObjectPart {
        pos,
        brand,
        fields,
        methods,
        overrides,
    }
}

/// A brand, where one is here. Its text begins with an identifier, a text literal or a parenthesis.
#[cycle(expressions)]
fn brand<'a>(reader: &mut Reader<'_, 'a>, room: u32) -> Option<Brand<'a>>
    ensures { Follows reader.old reader.new }
{
    let pos = reader.pos();
    if !reader.skip_word(Word::Branded) {
        return None;
    }
    let text = match reader.kind() {
        Some(TokenKind::Ident | TokenKind::TextLit | TokenKind::Symbol(Sign::OpenParen)) => {
            let found = phrase(reader, room, Want::Brand);
            Some(kept_value(reader, found))
        }
        _ => None,
    };
    Some(Brand { pos, text })
}
