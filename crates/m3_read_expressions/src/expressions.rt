ghost use Rattle.std.specs.Prelude.{◌≡◌, ◌+◌, ◌≤◌, OnSome, IfSome, IfNone, IsSome};
ghost use Rattle.m3_read_grammar.specs.Ranks.{whole, e2, e6, next, rank_of};
ghost use Rattle.m3_read_cursor.specs.Readers.{Follows, Reads};
ghost use Rattle.m3_read_expressions.specs.Spelled.{ReadsFound, ReadsExpr};

use crate::operands::operand;
use crate::settings::{Found, Setting, Want};
use crate::trees::{keep_expr, no_expr};
use m3_read_cursor::{Reader, begins_expression, operator_here, prefix_sign};
use m3_read_grammar::Level;
use m3_syntax::{Expr, Operation, Word};

/// An expression (the report, section 2.6). `room` is that of what surrounds it: the expression
/// itself opens one construct.
#[cycle(expressions)]
pub fn expression<'a>(reader: &mut Reader<'_, 'a>, room: u32) -> &'a Expr<'a>
    ensures follows { Follows reader.old reader.new }
    ensures reads { ReadsExpr whole reader.old reader.new result.now }
{
    let found = phrase(reader, room, Want::Value);
    kept_value(reader, found)
}

/// An expression of which something is wanted, or a type that no brace follows.
#[cycle(expressions)]
pub fn phrase<'a>(reader: &mut Reader<'_, 'a>, room: u32, want: Want) -> Found<'a>
    ensures follows { Follows reader.old reader.new }
    ensures reads { ReadsFound whole reader.old reader.new result }
{
    let Some(inside) = inside_expression(reader, room) else {
        return Found::Value(no_expr());
    };
    let setting = Setting {
        room: inside,
        calls: inside,
        want,
    };
    operations(reader, setting, Level::Disjunction)
}

/// The expression that begins a statement. `room` is that inside the statement. The actuals of
/// calls on the whole of it lie in the statement alone, since such a call may be the statement
/// itself.
pub fn statement_head<'a>(reader: &mut Reader<'_, 'a>, room: u32) -> &'a Expr<'a>
    ensures follows { Follows reader.old reader.new }
    ensures reads { ReadsExpr whole reader.old reader.new result.now }
{
    let Some(inside) = inside_expression(reader, room) else {
        return no_expr();
    };
    let setting = Setting {
        room: inside,
        calls: room,
        want: Want::Value,
    };
    let found = operations(reader, setting, Level::Disjunction);
    kept_value(reader, found)
}

/// The room inside an expression that the token here opens.
fn inside_expression(reader: &mut Reader<'_, '_>, room: u32) -> Option<u32>
    ensures follows { Follows reader.old reader.new }
    ensures less { IfSome result (λ inside. inside + 1 ≡ room) }
    ensures stays { OnSome result (reader.new ≡ reader.old) }
    ensures stopped { IfNone result (IsSome reader.new.stop) }
{
    match reader.kind() {
        Some(kind) if begins_expression(kind) => reader.inside(room),
        _ => {
            reader.unexpected();
            None
        }
    }
}

/// The expression that was found. A type alone is none, since no brace follows it.
pub fn kept_value<'a>(reader: &mut Reader<'_, 'a>, found: Found<'a>) -> &'a Expr<'a>
    ensures follows { Follows reader.old reader.new }
    ensures stays { Reads reader.old reader.new (λ before after. after ≡ before) }
    ensures value { reader.new.stop ≡ None → found.entry ≡ Found.Value result }
{
    match found {
        Found::Value(expr) => expr,
        Found::TypeExp(kind) => {
            reader.unexpected();
            keep_expr(reader, Expr::Missing { pos: kind.pos() })
        }
    }
}

/// Operands with operators of one level between them, or a type where an operand could begin.
#[cycle(expressions)]
pub fn operations<'a>(reader: &mut Reader<'_, 'a>, setting: Setting, level: Level) -> Found<'a>
    requires { setting.room ≤ setting.calls }
    ensures follows { Follows reader.old reader.new }
    ensures reads { ReadsFound (rank_of level) reader.old reader.new result }
{
    let pos = reader.pos();
    let first = match tighter(reader, setting, level) {
        Found::Value(first) => first,
        Found::TypeExp(kind) => return Found::TypeExp(kind),
    };
    let mut rest = Vec::new(reader.alloc);
    'operations: loop {
        let place = reader.pos();
        let Some(operator) = operator_here(reader, level) else {
            break;
        };
        let found = tighter(reader, setting.behind_operator(), level);
        let right = kept_value(reader, found);
        let operation = Operation {
            operator,
            pos: place,
            right,
        };
        reader.put(&mut rest, operation);
    }
    let rest = reader.row(rest);
    if rest.is_empty() {
        return Found::Value(first);
    }
    Found::Value(keep_expr(reader, Expr::Operations { pos, first, rest }))
}

/// What stands between the operators of a level.
#[cycle(expressions)]
fn tighter<'a>(reader: &mut Reader<'_, 'a>, setting: Setting, level: Level) -> Found<'a>
    requires { setting.room ≤ setting.calls }
    ensures follows { Follows reader.old reader.new }
    ensures reads { ReadsFound (next (rank_of level)) reader.old reader.new result }
{
    match level {
        Level::Disjunction => operations(reader, setting, Level::Conjunction),
        Level::Conjunction => negation(reader, setting),
        Level::Relation => operations(reader, setting, Level::Sum),
        Level::Sum => operations(reader, setting, Level::Product),
        Level::Product => signed(reader, setting),
    }
}

/// A relation with the NOTs before it.
#[cycle(expressions)]
fn negation<'a>(reader: &mut Reader<'_, 'a>, setting: Setting) -> Found<'a>
    requires { setting.room ≤ setting.calls }
    ensures follows { Follows reader.old reader.new }
    ensures reads { ReadsFound e2 reader.old reader.new result }
{
    let pos = reader.pos();
    let mut words = Vec::new(reader.alloc);
    'words: loop {
        let word = reader.pos();
        if !reader.skip_word(Word::Not) {
            break;
        }
        reader.put(&mut words, word);
    }
    let words = reader.row(words);
    if words.is_empty() {
        return operations(reader, setting, Level::Relation);
    }
    let found = operations(reader, setting.behind_operator(), Level::Relation);
    let operand = kept_value(reader, found);
    let negation = Expr::Not {
        pos,
        words,
        operand,
    };
    Found::Value(keep_expr(reader, negation))
}

/// An operand with the signs before it.
#[cycle(expressions)]
fn signed<'a>(reader: &mut Reader<'_, 'a>, setting: Setting) -> Found<'a>
    requires { setting.room ≤ setting.calls }
    ensures follows { Follows reader.old reader.new }
    ensures reads { ReadsFound e6 reader.old reader.new result }
{
    let pos = reader.pos();
    let mut signs = Vec::new(reader.alloc);
    'signs: while let Some(sign) = prefix_sign(reader) {
        reader.put(&mut signs, sign);
    }
    let signs = reader.row(signs);
    if signs.is_empty() {
        return operand(reader, setting);
    }
    let found = operand(reader, setting.behind_operator());
    let operand = kept_value(reader, found);
    let signed = Expr::Signed {
        pos,
        signs,
        operand,
    };
    Found::Value(keep_expr(reader, signed))
}
