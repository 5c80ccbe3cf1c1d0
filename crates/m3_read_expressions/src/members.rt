ghost use Rattle.m3_read_cursor.specs.Readers.{Follows};

use crate::expressions::expression;
use crate::types::type_expression;
use m3_read_cursor::{Reader, name_list, raises};
use m3_syntax::{Expr, Field, Formal, Init, Method, Mode, Override, Sign, Signature, Word};

/// Fields, with semicolons between them and maybe behind the last.
#[cycle(expressions)]
pub fn fields<'a>(reader: &mut Reader<'_, 'a>, room: u32) -> &'a [Field<'a>]
    ensures { Follows reader.old reader.new }
{
    let mut fields = Vec::new(reader.alloc);
    'fields: while reader.is_name() {
        let names = name_list(reader);
        let init = initial(reader, room);
        reader.put(&mut fields, Field { names, init });
        if !reader.skip_sign(Sign::Semicolon) {
            break;
        }
    }
    reader.row(fields)
}

/// The methods behind METHODS, if that is here, with semicolons between them and maybe behind the
/// last.
#[cycle(expressions)]
pub fn methods<'a>(reader: &mut Reader<'_, 'a>, room: u32) -> &'a [Method<'a>]
    ensures { Follows reader.old reader.new }
{
    let mut methods = Vec::new(reader.alloc);
    if reader.skip_word(Word::Methods) {
        'methods: while reader.is_name() {
            let name = reader.take_name();
            let signature = signature(reader, room);
            let default = assigned(reader, room);
            let method = Method {
                name,
                signature,
                default,
            };
            reader.put(&mut methods, method);
            if !reader.skip_sign(Sign::Semicolon) {
                break;
            }
        }
    }
    reader.row(methods)
}

/// The overrides behind OVERRIDES, if that is here, with semicolons between them and maybe behind
/// the last.
#[cycle(expressions)]
pub fn overrides<'a>(reader: &mut Reader<'_, 'a>, room: u32) -> &'a [Override<'a>]
    ensures { Follows reader.old reader.new }
{
    let mut overrides = Vec::new(reader.alloc);
    if reader.skip_word(Word::Overrides) {
        'overrides: while reader.is_name() {
            let name = reader.take_name();
            reader.take_sign(Sign::Assign);
            let value = expression(reader, room);
            reader.put(&mut overrides, Override { name, value });
            if !reader.skip_sign(Sign::Semicolon) {
                break;
            }
        }
    }
    reader.row(overrides)
}

/// The value behind `:=`, if it is here.
#[cycle(expressions)]
pub fn assigned<'a>(reader: &mut Reader<'_, 'a>, room: u32) -> Option<&'a Expr<'a>>
    ensures { Follows reader.old reader.new }
{
    if reader.skip_sign(Sign::Assign) {
        Some(expression(reader, room))
    } else {
        None
    }
}

/// `: T`, `: T := e` or `:= e`.
#[cycle(expressions)]
pub fn initial<'a>(reader: &mut Reader<'_, 'a>, room: u32) -> Init<'a>
    ensures { Follows reader.old reader.new }
{
    if reader.skip_sign(Sign::Colon) {
        let kind = type_expression(reader, room);
        return Init::Typed(kind, assigned(reader, room));
    }
    reader.take_sign(Sign::Assign);
    Init::Untyped(expression(reader, room))
}

/// The formals, the result and the exceptions of a procedure (the report, section 2.2.8).
#[cycle(expressions)]
pub fn signature<'a>(reader: &mut Reader<'_, 'a>, room: u32) -> Signature<'a>
    ensures { Follows reader.old reader.new }
{
    let pos = reader.take_sign(Sign::OpenParen);
    let formals = formals(reader, room);
    reader.take_sign(Sign::CloseParen);
    let result = if reader.skip_sign(Sign::Colon) {
        Some(type_expression(reader, room))
    } else {
        None
    };
    let raises = raises(reader);
    Signature {
        pos,
        formals,
        result,
        raises,
    }
}

/// Formals, with semicolons between them and maybe behind the last.
#[cycle(expressions)]
fn formals<'a>(reader: &mut Reader<'_, 'a>, room: u32) -> &'a [Formal<'a>]
    ensures { Follows reader.old reader.new }
{
    let mut formals = Vec::new(reader.alloc);
    'formals: loop {
        let pos = reader.pos();
        let Some(mode) = mode(reader) else {
            break;
        };
        let names = name_list(reader);
        let init = initial(reader, room);
        let formal = Formal {
            pos,
            mode,
            names,
            init,
        };
        reader.put(&mut formals, formal);
        if !reader.skip_sign(Sign::Semicolon) {
            break;
        }
    }
    reader.row(formals)
}

/// The mode of the formals that begin here, past its word. None where none do.
fn mode(reader: &mut Reader<'_, '_>) -> Option<Mode>
    ensures { Follows reader.old reader.new }
{
    if reader.skip_word(Word::Value) {
        Some(Mode::Value)
    } else if reader.skip_word(Word::Var) {
        Some(Mode::Var)
    } else if reader.skip_word(Word::Readonly) {
        Some(Mode::Readonly)
    } else if reader.is_name() {
        Some(Mode::Value)
    } else {
        None
    }
}
