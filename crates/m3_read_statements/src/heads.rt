ghost use Rattle.m3_read_cursor.specs.Readers.{Follows};

use m3_base::Pos;
use m3_read_cursor::Reader;
use m3_read_expressions::keep_expr;
use m3_syntax::{Actual, Expr, Operation, Selector};

/// A call: what is called, the place of the parenthesis, and the actuals.
#[derive(Clone, Copy)]
pub struct Call<'a> {
    pub callee: &'a Expr<'a>,
    pub parenthesis: Pos,
    pub actuals: &'a [Actual<'a>],
}

/// The call with which an expression ends, as `a.f(x)` and `a + f(x)` do: the callee is what
/// stands before the last parenthesis. None where it ends with no call.
pub fn call_of<'a>(reader: &mut Reader<'_, 'a>, expr: &Expr<'a>) -> Option<Call<'a>>
    ensures { Follows reader.old reader.new }
{
    match *expr {
        Expr::Selected {
            pos,
            operand,
            selectors,
        } => call_of_selected(reader, pos, operand, selectors),
        Expr::Operations { pos, first, rest } => {
            let (last, before) = rest.split_last()?;
            let call = call_of(reader, last.right)?;
            let right = call.callee;
            let rest = with_last(reader, before, Operation { right, ..*last });
            let callee = keep_expr(reader, Expr::Operations { pos, first, rest });
            Some(Call { callee, ..call })
        }
        Expr::Not {
            pos,
            words,
            operand,
        } => {
            let call = call_of(reader, operand)?;
            let negation = Expr::Not {
                pos,
                words,
                operand: call.callee,
            };
            let callee = keep_expr(reader, negation);
            Some(Call { callee, ..call })
        }
        Expr::Signed {
            pos,
            signs,
            operand,
        } => {
            let call = call_of(reader, operand)?;
            let signed = Expr::Signed {
                pos,
                signs,
                operand: call.callee,
            };
            let callee = keep_expr(reader, signed);
            Some(Call { callee, ..call })
        }
        _ => None,
    }
}

/// The call that the last selector is, if it is one.
fn call_of_selected<'a>(
    reader: &mut Reader<'_, 'a>,
    pos: Pos,
    operand: &'a Expr<'a>,
    selectors: &'a [Selector<'a>],
) -> Option<Call<'a>>
    ensures { Follows reader.old reader.new }
{
    let [before @ .., last] = selectors else {
        return None;
    };
    let (parenthesis, actuals) = match last {
        Selector::Call(parenthesis, actuals) => (*parenthesis, *actuals),
        _ => return None,
    };
    let callee = if before.is_empty() {
        operand
    } else {
        let selected = Expr::Selected {
            pos,
            operand,
            selectors: before,
        };
        keep_expr(reader, selected)
    };
    Some(Call {
        callee,
        parenthesis,
        actuals,
    })
}

/// A row with one more operation behind it.
fn with_last<'a>(
    reader: &mut Reader<'_, 'a>,
    before: &[Operation<'a>],
    last: Operation<'a>,
) -> &'a [Operation<'a>]
    ensures { Follows reader.old reader.new }
{
    let mut operations = Vec::new(reader.alloc);
    'operations: for operation in before {
        reader.put(&mut operations, *operation);
    }
    reader.put(&mut operations, last);
    reader.row(operations)
}
