ghost use Rattle.std.specs.Prelude.{◌<◌, ◌≤◌, OnSome, length};
ghost use Rattle.m3_read_cursor.specs.Readers.{Follows};

use crate::blocks::{begins_block, block};
use m3_base::Pos;
use m3_read_cursor::{Reader, name_list, qualid};
use m3_read_expressions::{expression, initial, signature, type_expression};
use m3_syntax::{
    ConstDecl, Decl, ExceptionDecl, ProcedureBody, Revelation, Sign, TokenKind, TypeDecl, VarDecl,
    Word,
};

/// The declarations that are here. `room` is that inside the block or unit to which they belong.
#[cycle(statements)]
pub fn declaration_list<'a>(reader: &mut Reader<'_, 'a>, room: u32) -> &'a [Decl<'a>]
    ensures { Follows reader.old reader.new }
{
    let mut declarations = Vec::new(reader.alloc);
    'declarations: loop {
        let pos = reader.pos();
        let Some(word) = declaring(reader) else {
            break;
        };
        let declaration = declaration(reader, room, pos, word);
        reader.put(&mut declarations, declaration);
    }
    reader.row(declarations)
}

/// The word that begins declarations, past it. None where none begin here.
fn declaring(reader: &mut Reader<'_, '_>) -> Option<Word>
    ensures follows { Follows reader.old reader.new }
    ensures past { OnSome result (length reader.new.rest.now < length reader.old.rest.now) }
{
    let word = match reader.kind() {
        Some(TokenKind::Keyword(word)) if word != Word::Begin && begins_block(word) => word,
        _ => return None,
    };
    if reader.skip_word(word) {
        Some(word)
    } else {
        None
    }
}

/// The declarations behind a word, whose place this is.
#[cycle(statements)]
fn declaration<'a>(reader: &mut Reader<'_, 'a>, room: u32, pos: Pos, word: Word) -> Decl<'a>
    ensures { Follows reader.old reader.new }
{
    match word {
        Word::Const => {
            let constants = constants(reader, room);
            Decl::Const { pos, constants }
        }
        Word::Type => {
            let types = types(reader, room);
            Decl::Type { pos, types }
        }
        Word::Exception => {
            let exceptions = exceptions(reader, room);
            Decl::Exception { pos, exceptions }
        }
        Word::Var => {
            let variables = variables(reader, room);
            Decl::Var { pos, variables }
        }
        Word::Reveal => {
            let reveals = reveals(reader, room);
            Decl::Reveal { pos, reveals }
        }
        _ => procedure(reader, room, pos),
    }
}

/// The constants behind CONST.
fn constants<'a>(reader: &mut Reader<'_, 'a>, room: u32) -> &'a [ConstDecl<'a>]
    ensures { Follows reader.old reader.new }
{
    let mut constants = Vec::new(reader.alloc);
    'constants: while reader.is_name() {
        let name = reader.take_name();
        let kind = if reader.skip_sign(Sign::Colon) {
            Some(type_expression(reader, room))
        } else {
            None
        };
        reader.take_sign(Sign::Equal);
        let value = expression(reader, room);
        reader.put(&mut constants, ConstDecl { name, kind, value });
        if !reader.skip_sign(Sign::Semicolon) {
            reader.unexpected();
            break;
        }
    }
    reader.row(constants)
}

/// The types behind TYPE.
fn types<'a>(reader: &mut Reader<'_, 'a>, room: u32) -> &'a [TypeDecl<'a>]
    ensures { Follows reader.old reader.new }
{
    let mut types = Vec::new(reader.alloc);
    'types: while reader.is_name() {
        let name = reader.take_name();
        let is_opaque = takes_bound(reader);
        let kind = type_expression(reader, room);
        let declaration = TypeDecl {
            name,
            is_opaque,
            kind,
        };
        reader.put(&mut types, declaration);
        if !reader.skip_sign(Sign::Semicolon) {
            reader.unexpected();
            break;
        }
    }
    reader.row(types)
}

/// Goes past `=` or `<:`, and tells whether it was `<:`.
fn takes_bound(reader: &mut Reader<'_, '_>) -> bool
    ensures { Follows reader.old reader.new }
{
    let is_bound = reader.skip_sign(Sign::Subtype);
    if !is_bound {
        reader.take_sign(Sign::Equal);
    }
    is_bound
}

/// The exceptions behind EXCEPTION.
fn exceptions<'a>(reader: &mut Reader<'_, 'a>, room: u32) -> &'a [ExceptionDecl<'a>]
    ensures { Follows reader.old reader.new }
{
    let mut exceptions = Vec::new(reader.alloc);
    'exceptions: while reader.is_name() {
        let name = reader.take_name();
        let argument = if reader.skip_sign(Sign::OpenParen) {
            let kind = type_expression(reader, room);
            reader.take_sign(Sign::CloseParen);
            Some(kind)
        } else {
            None
        };
        reader.put(&mut exceptions, ExceptionDecl { name, argument });
        if !reader.skip_sign(Sign::Semicolon) {
            reader.unexpected();
            break;
        }
    }
    reader.row(exceptions)
}

/// The variables behind VAR.
fn variables<'a>(reader: &mut Reader<'_, 'a>, room: u32) -> &'a [VarDecl<'a>]
    ensures { Follows reader.old reader.new }
{
    let mut variables = Vec::new(reader.alloc);
    'variables: while reader.is_name() {
        let names = name_list(reader);
        let init = initial(reader, room);
        reader.put(&mut variables, VarDecl { names, init });
        if !reader.skip_sign(Sign::Semicolon) {
            reader.unexpected();
            break;
        }
    }
    reader.row(variables)
}

/// The revelations behind REVEAL.
fn reveals<'a>(reader: &mut Reader<'_, 'a>, room: u32) -> &'a [Revelation<'a>]
    ensures { Follows reader.old reader.new }
{
    let mut reveals = Vec::new(reader.alloc);
    'reveals: while reader.is_name() {
        let name = qualid(reader);
        let is_partial = takes_bound(reader);
        let kind = type_expression(reader, room);
        let revelation = Revelation {
            name,
            is_partial,
            kind,
        };
        reader.put(&mut reveals, revelation);
        if !reader.skip_sign(Sign::Semicolon) {
            reader.unexpected();
            break;
        }
    }
    reader.row(reveals)
}

/// The procedure behind PROCEDURE, with its body where one is written.
#[cycle(statements)]
fn procedure<'a>(reader: &mut Reader<'_, 'a>, room: u32, pos: Pos) -> Decl<'a>
    ensures { Follows reader.old reader.new }
{
    let name = reader.take_name();
    let signature = signature(reader, room);
    let body = if reader.skip_sign(Sign::Equal) {
        let block = block(reader, room);
        let closing = reader.take_closing(&name);
        Some(ProcedureBody { block, closing })
    } else {
        None
    };
    reader.take_sign(Sign::Semicolon);
    Decl::Procedure {
        pos,
        name,
        signature,
        body,
    }
}
