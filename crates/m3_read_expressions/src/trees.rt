ghost use Rattle.std.specs.Prelude.{◌≡◌, None};
ghost use Rattle.m3_read_cursor.specs.Readers.{Follows, Reads};

use m3_base::Pos;
use m3_read_cursor::Reader;
use m3_syntax::{Expr, Name, Qualid, Selector, TypeExp, TypeName};

/// No place: that of a node behind an error.
const NOWHERE: Pos = Pos {
    file: 0,
    line: 0,
    col: 0,
};

/// Stands for an expression behind an error.
static NO_EXPR: Expr<'static> = Expr::Missing { pos: NOWHERE };

/// Stands for a type behind an error.
static NO_TYPE: TypeExp<'static> = TypeExp::Missing { pos: NOWHERE };

pub fn no_expr<'a>() -> &'a Expr<'a> {
    &NO_EXPR
}

fn no_type<'a>() -> &'a TypeExp<'a> {
    &NO_TYPE
}

/// Keeps an expression.
pub fn keep_expr<'a>(reader: &mut Reader<'_, 'a>, expr: Expr<'a>) -> &'a Expr<'a>
    ensures follows { Follows reader.old reader.new }
    ensures reads { Reads reader.old reader.new (λ before after. after ≡ before) }
    ensures kept { reader.new.stop ≡ None → result.now ≡ expr.entry }
{
    reader.node(expr, no_expr())
}

/// Keeps a type.
pub fn keep_type<'a>(reader: &mut Reader<'_, 'a>, kind: TypeExp<'a>) -> &'a TypeExp<'a>
    ensures follows { Follows reader.old reader.new }
    ensures reads { Reads reader.old reader.new (λ before after. after ≡ before) }
    ensures kept { reader.new.stop ≡ None → result.now ≡ kind.entry }
{
    reader.node(kind, no_type())
}

/// The qualified name that an expression is, if it is one.
pub fn qualid_of<'a>(expr: &Expr<'a>) -> Option<Qualid<'a>> {
    match expr {
        Expr::Name(first) => Some(Qualid {
            first: *first,
            second: None,
        }),
        Expr::Selected {
            operand,
            selectors,
            ..
        } => match *operand {
            Expr::Name(first) => member_of(*first, selectors),
            _ => None,
        },
        _ => None,
    }
}

/// A name with one selector, where that is a name too.
fn member_of<'a>(first: Name<'a>, selectors: &[Selector<'a>]) -> Option<Qualid<'a>> {
    match selectors {
        [selector] => match selector {
            Selector::Member(second) => Some(Qualid {
                first,
                second: Some(*second),
            }),
            _ => None,
        },
        _ => None,
    }
}

/// The type that an expression may be as well: a qualified name, in any number of parentheses.
pub fn type_of<'a>(reader: &mut Reader<'_, 'a>, expr: &Expr<'a>) -> Option<&'a TypeExp<'a>>
    ensures { Follows reader.old reader.new }
{
    let kind = if let Expr::Parenthesis { pos, inner } = expr {
        let inner = type_of(reader, inner)?;
        TypeExp::Parenthesis { pos: *pos, inner }
    } else {
        TypeExp::Named(TypeName::Named(qualid_of(expr)?))
    };
    Some(keep_type(reader, kind))
}
