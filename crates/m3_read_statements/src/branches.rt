ghost use Rattle.m3_read_cursor.specs.Readers.{Follows};

use crate::handlers::parenthesized_name;
use crate::statements::statements;
use m3_read_cursor::{Reader, begins_expression, begins_type};
use m3_read_expressions::{expression, type_expression};
use m3_syntax::{Arm, CaseBranch, Else, Label, Sign, Stmt, TypeBranch, TypeExp, Word};

#[cycle(statements)]
pub fn if_statement<'a>(reader: &mut Reader<'_, 'a>, room: u32) -> Stmt<'a>
    ensures { Follows reader.old reader.new }
{
    let pos = reader.take_word(Word::If);
    let mut arms = Vec::new(reader.alloc);
    let mut arm_pos = pos;
    'arms: loop {
        let condition = expression(reader, room);
        reader.take_word(Word::Then);
        let body = statements(reader, room);
        let arm = Arm {
            pos: arm_pos,
            condition,
            body,
        };
        reader.put(&mut arms, arm);
        arm_pos = reader.pos();
        if !reader.skip_word(Word::Elsif) {
            break;
        }
    }
    let arms = reader.row(arms);
    let otherwise = otherwise(reader, room);
    Stmt::If {
        pos,
        arms,
        otherwise,
    }
}

/// The statements behind ELSE, if it is here, and the END behind them.
#[cycle(statements)]
pub fn otherwise<'a>(reader: &mut Reader<'_, 'a>, room: u32) -> Else<'a>
    ensures { Follows reader.old reader.new }
{
    if !reader.skip_word(Word::Else) {
        reader.take_word(Word::End);
        return Else {
            is_written: false,
            body: reader.no_items(),
        };
    }
    let body = statements(reader, room);
    reader.take_word(Word::End);
    Else {
        is_written: true,
        body,
    }
}

#[cycle(statements)]
pub fn case_statement<'a>(reader: &mut Reader<'_, 'a>, room: u32) -> Stmt<'a>
    ensures { Follows reader.old reader.new }
{
    let pos = reader.take_word(Word::Case);
    let value = expression(reader, room);
    reader.take_word(Word::Of);
    let mut branches = Vec::new(reader.alloc);
    let is_branch = match reader.kind() {
        Some(kind) if begins_expression(kind) => true,
        _ => reader.skip_sign(Sign::Bar),
    };
    if is_branch {
        'branches: loop {
            let labels = labels(reader, room);
            let body = statements(reader, room);
            reader.put(&mut branches, CaseBranch { labels, body });
            if !reader.skip_sign(Sign::Bar) {
                break;
            }
        }
    }
    let branches = reader.row(branches);
    let otherwise = otherwise(reader, room);
    Stmt::Case {
        pos,
        value,
        branches,
        otherwise,
    }
}

/// The labels of a branch, and the arrow behind them.
fn labels<'a>(reader: &mut Reader<'_, 'a>, room: u32) -> &'a [Label<'a>]
    ensures { Follows reader.old reader.new }
{
    let mut labels = Vec::new(reader.alloc);
    'labels: loop {
        let first = expression(reader, room);
        let last = if reader.skip_sign(Sign::DotDot) {
            Some(expression(reader, room))
        } else {
            None
        };
        reader.put(&mut labels, Label { first, last });
        if !reader.skip_sign(Sign::Comma) {
            break;
        }
    }
    reader.take_sign(Sign::Arrow);
    reader.row(labels)
}

#[cycle(statements)]
pub fn typecase_statement<'a>(reader: &mut Reader<'_, 'a>, room: u32) -> Stmt<'a>
    ensures { Follows reader.old reader.new }
{
    let pos = reader.take_word(Word::Typecase);
    let value = expression(reader, room);
    reader.take_word(Word::Of);
    let mut branches = Vec::new(reader.alloc);
    let is_branch = match reader.kind() {
        Some(kind) if begins_type(kind) => true,
        _ => reader.skip_sign(Sign::Bar),
    };
    if is_branch {
        'branches: loop {
            let kinds = kinds(reader, room);
            let name = parenthesized_name(reader);
            reader.take_sign(Sign::Arrow);
            let body = statements(reader, room);
            reader.put(&mut branches, TypeBranch { kinds, name, body });
            if !reader.skip_sign(Sign::Bar) {
                break;
            }
        }
    }
    let branches = reader.row(branches);
    let otherwise = otherwise(reader, room);
    Stmt::TypeCase {
        pos,
        value,
        branches,
        otherwise,
    }
}

/// The types of a branch.
fn kinds<'a>(reader: &mut Reader<'_, 'a>, room: u32) -> &'a [TypeExp<'a>]
    ensures { Follows reader.old reader.new }
{
    let mut kinds = Vec::new(reader.alloc);
    'kinds: loop {
        let kind = *type_expression(reader, room);
        reader.put(&mut kinds, kind);
        if !reader.skip_sign(Sign::Comma) {
            break;
        }
    }
    reader.row(kinds)
}
