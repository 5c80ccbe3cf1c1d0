ghost use Rattle.std.specs.Prelude.{◌≡◌, ◌+◌, ◌<◌, ◌≤◌, OnSome, IfSome, IfNone, IsSome, length};
ghost use Rattle.m3_read_grammar.specs.Plain.{HasType};
ghost use Rattle.m3_read_grammar.specs.Ranks.{e7, e8};
ghost use Rattle.m3_read_cursor.specs.Readers.{Follows};
ghost use Rattle.m3_read_expressions.specs.Spelled.{ReadsFound, ReadsSelector};
ghost use Rattle.m3_read_expressions.specs.Spelled.{ReadsIndexes, ReadsActuals, ReadsActual, Continues};

use crate::expressions::{expression, phrase};
use crate::settings::{Found, Setting, Want};
use crate::trees::{keep_expr, keep_type, no_expr, qualid_of, type_of};
use crate::types::{begins_object, named_type, opened_type};
use m3_base::Pos;
use m3_read_cursor::{Reader, begins_type, binding, lone_name};
use m3_syntax::{Actual, Element, Expr, Selector, Sign, TokenKind, TypeExp, TypeName, Word};

/// One operand with its selectors, or a type that no brace follows.
#[cycle(expressions)]
pub fn operand<'a>(reader: &mut Reader<'_, 'a>, setting: Setting) -> Found<'a>
    requires { setting.room ≤ setting.calls }
    ensures follows { Follows reader.old reader.new }
    ensures reads { ReadsFound e7 reader.old reader.new result }
{
    let pos = reader.pos();
    let found = without_brace(reader, setting);
    if !reader.is_sign(Sign::OpenBrace) {
        return found;
    }
    let constructor = constructor(reader, setting, found);
    Found::Value(selected(reader, setting, pos, constructor))
}

/// An operand up to the brace of a constructor, or a type. Behind a name it may be an object type
/// of which that is the parent; but behind the text of BRANDED the word OBJECT begins what is
/// branded.
#[cycle(expressions)]
fn without_brace<'a>(reader: &mut Reader<'_, 'a>, setting: Setting) -> Found<'a>
    requires { setting.room ≤ setting.calls }
    ensures follows { Follows reader.old reader.new }
    ensures reads { ReadsFound e7 reader.old reader.new result }
{
    let pos = reader.pos();
    let expr = match primary(reader, setting) {
        Found::Value(expr) => selected(reader, setting, pos, expr),
        Found::TypeExp(kind) => return Found::TypeExp(kind),
    };
    let is_branded = setting.want == Want::Brand && reader.is_word(Word::Object);
    if is_branded || !begins_object(reader) {
        return Found::Value(expr);
    }
    let Some(parent) = qualid_of(expr) else {
        reader.unexpected();
        return Found::Value(expr);
    };
    match inside_type(reader, setting) {
        Some(room) => Found::TypeExp(named_type(reader, room, TypeName::Named(parent))),
        None => Found::Value(expr),
    }
}

/// The room inside a type that begins with an expression. An actual may be the type itself.
fn inside_type(reader: &mut Reader<'_, '_>, setting: Setting) -> Option<u32>
    ensures follows { Follows reader.old reader.new }
    ensures within { IfSome result (λ room. room ≤ setting.room) }
    ensures stopped { IfNone result (IsSome reader.new.stop) }
{
    match reader.kind() {
        Some(kind) if begins_type(kind) => match setting.want {
            Want::Actual => Some(setting.room),
            _ => reader.inside(setting.room),
        },
        _ => {
            reader.unexpected();
            None
        }
    }
}

/// The beginning of an operand: a name, a literal, a parenthesis, or a type that is no name.
#[cycle(expressions)]
fn primary<'a>(reader: &mut Reader<'_, 'a>, setting: Setting) -> Found<'a>
    requires { setting.room ≤ setting.calls }
    ensures follows { Follows reader.old reader.new }
    ensures reads { ReadsFound e8 reader.old reader.new result }
{
    let pos = reader.pos();
    match reader.kind() {
        Some(TokenKind::Ident) => {
            let name = reader.take_name();
            Found::Value(keep_expr(reader, Expr::Name(name)))
        }
        Some(TokenKind::Number(value)) => {
            reader.step();
            Found::Value(keep_expr(reader, Expr::Number { pos, value }))
        }
        Some(TokenKind::CharLit(value)) => {
            reader.step();
            Found::Value(keep_expr(reader, Expr::CharLit { pos, value }))
        }
        Some(TokenKind::TextLit) => {
            let text = reader.take_text();
            Found::Value(keep_expr(reader, Expr::TextLit { pos, text }))
        }
        Some(TokenKind::Symbol(Sign::OpenParen)) => parenthesis(reader, setting),
        _ => match inside_type(reader, setting) {
            Some(room) => Found::TypeExp(opened_type(reader, room)),
            None => Found::Value(no_expr()),
        },
    }
}

/// A phrase in parentheses.
#[cycle(expressions)]
fn parenthesis<'a>(reader: &mut Reader<'_, 'a>, setting: Setting) -> Found<'a>
    requires { setting.room ≤ setting.calls }
    ensures follows { Follows reader.old reader.new }
    ensures reads { ReadsFound e8 reader.old reader.new result }
{
    let pos = reader.take_sign(Sign::OpenParen);
    let want = match setting.want {
        Want::Actual => Want::Actual,
        _ => Want::Value,
    };
    let inner = phrase(reader, setting.room, want);
    reader.take_sign(Sign::CloseParen);
    match inner {
        Found::Value(inner) => { Found::Value(keep_expr(reader, Expr::Parenthesis { pos, inner })) }
        Found::TypeExp(inner) => {
            Found::TypeExp(keep_type(reader, TypeExp::Parenthesis { pos, inner }))
        }
    }
}

/// An operand, which begins at a place, with the selectors that follow it.
#[cycle(expressions)]
fn selected<'a>(
    reader: &mut Reader<'_, 'a>,
    setting: Setting,
    pos: Pos,
    operand: &'a Expr<'a>,
) -> &'a Expr<'a>
    requires { setting.room ≤ setting.calls }
    ensures follows { Follows reader.old reader.new }
    ensures reads { Continues pos operand.now reader.old reader.new result.now }
{
    let mut selectors = Vec::new(reader.alloc);
    'selectors: while let Some(selector) = selector(reader, setting) {
        reader.put(&mut selectors, selector);
    }
    let selectors = reader.row(selectors);
    if selectors.is_empty() {
        return operand;
    }
    let selected = Expr::Selected {
        pos,
        operand,
        selectors,
    };
    keep_expr(reader, selected)
}

/// The selector that is here, if one is.
#[cycle(expressions)]
fn selector<'a>(reader: &mut Reader<'_, 'a>, setting: Setting) -> Option<Selector<'a>>
    requires { setting.room ≤ setting.calls }
    ensures follows { Follows reader.old reader.new }
    ensures past { OnSome result (length reader.new.rest.now < length reader.old.rest.now) }
    ensures reads { ReadsSelector reader.old reader.new result }
{
    let pos = reader.pos();
    if reader.skip_sign(Sign::Caret) {
        Some(Selector::Dereference(pos))
    } else if reader.skip_sign(Sign::Dot) {
        Some(Selector::Member(reader.take_name()))
    } else if reader.skip_sign(Sign::OpenBracket) {
        Some(Selector::Index(pos, indexes(reader, setting.room)))
    } else if reader.skip_sign(Sign::OpenParen) {
        Some(Selector::Call(pos, actuals(reader, setting.calls)))
    } else {
        None
    }
}

/// The expressions behind an opening bracket, at least one, up to and with the closing one.
#[cycle(expressions)]
fn indexes<'a>(reader: &mut Reader<'_, 'a>, room: u32) -> &'a [Expr<'a>]
    ensures follows { Follows reader.old reader.new }
    ensures reads { ReadsIndexes reader.old reader.new result.now }
{
    let mut indexes = Vec::new(reader.alloc);
    'indexes: loop {
        let index = *expression(reader, room);
        reader.put(&mut indexes, index);
        if !reader.skip_sign(Sign::Comma) {
            break;
        }
    }
    reader.take_sign(Sign::CloseBracket);
    reader.row(indexes)
}

/// The actuals behind an opening parenthesis, up to and with the closing one.
#[cycle(expressions)]
fn actuals<'a>(reader: &mut Reader<'_, 'a>, room: u32) -> &'a [Actual<'a>]
    ensures follows { Follows reader.old reader.new }
    ensures reads { ReadsActuals reader.old reader.new result.now }
{
    if reader.skip_sign(Sign::CloseParen) {
        return reader.no_items();
    }
    let mut actuals = Vec::new(reader.alloc);
    'actuals: loop {
        let actual = actual(reader, room);
        reader.put(&mut actuals, actual);
        if !reader.skip_sign(Sign::Comma) {
            break;
        }
    }
    reader.take_sign(Sign::CloseParen);
    reader.row(actuals)
}

#[cycle(expressions)]
fn actual<'a>(reader: &mut Reader<'_, 'a>, room: u32) -> Actual<'a>
    ensures follows { Follows reader.old reader.new }
    ensures reads { ReadsActual reader.old reader.new result }
{
    match binding(reader) {
        Some(name) => Actual::Named(name, expression(reader, room)),
        None => match lone_name(reader, room) {
            Some(name) => Actual::Value(keep_expr(reader, Expr::Name(name))),
            None => match phrase(reader, room, Want::Actual) {
                Found::Value(expr) => Actual::Value(expr),
                Found::TypeExp(kind) => Actual::Type(kind),
            },
        },
    }
}

/// The constructor of a type whose opening brace is here.
#[cycle(expressions)]
fn constructor<'a>(reader: &mut Reader<'_, 'a>, setting: Setting, head: Found<'a>) -> &'a Expr<'a>
    requires { setting.room ≤ setting.calls }
    ensures follows { Follows reader.old reader.new }
    ensures typed { reader.new.stop ≡ None → HasType result.now }
{
    let kind = match head {
        Found::Value(expr) => type_of(reader, expr),
        Found::TypeExp(kind) => Some(kind),
    };
    let Some(kind) = kind else {
        reader.unexpected();
        return no_expr();
    };
    let brace = reader.take_sign(Sign::OpenBrace);
    let (elements, is_filled) = elements(reader, setting.room);
    let constructor = Expr::Constructor {
        pos: kind.pos(),
        kind,
        brace,
        elements,
        is_filled,
    };
    keep_expr(reader, constructor)
}

/// The elements behind an opening brace, up to and with the closing one, and whether `..` ends
/// them.
#[cycle(expressions)]
fn elements<'a>(reader: &mut Reader<'_, 'a>, room: u32) -> (&'a [Element<'a>], bool)
    ensures { Follows reader.old reader.new }
{
    let mut elements = Vec::new(reader.alloc);
    let mut is_filled = false;
    if !reader.skip_sign(Sign::CloseBrace) {
        'elements: loop {
            let element = element(reader, room);
            reader.put(&mut elements, element);
            if !reader.skip_sign(Sign::Comma) {
                break;
            }
            if reader.skip_sign(Sign::DotDot) {
                is_filled = true;
                break;
            }
        }
        reader.take_sign(Sign::CloseBrace);
    }
    (reader.row(elements), is_filled)
}

#[cycle(expressions)]
fn element<'a>(reader: &mut Reader<'_, 'a>, room: u32) -> Element<'a>
    ensures { Follows reader.old reader.new }
{
    if let Some(name) = binding(reader) {
        return Element::Named(name, expression(reader, room));
    }
    let first = match lone_name(reader, room) {
        Some(name) => keep_expr(reader, Expr::Name(name)),
        None => expression(reader, room),
    };
    if reader.skip_sign(Sign::DotDot) {
        Element::Range(first, expression(reader, room))
    } else {
        Element::Value(first)
    }
}
