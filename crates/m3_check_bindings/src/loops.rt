use m3_base::{NoMemory, Pos, rules};
use m3_check_bodies::{Body, bound_variable};
use m3_check_state::{Checker, Valued};
use m3_check_types::{base_of, is_integer, share_base};
use m3_core::{CoreExpr, Role};
use m3_exprs::expression;
use m3_syntax::{Expr, Name, Stmt};
use m3_types::TypeId;

/// What stands before the statements of a FOR: its variable, and what it evaluates once.
#[derive(Clone, Copy)]
pub struct ForHead<'a> {
    pub variable: u32,
    pub first: &'a CoreExpr<'a>,
    pub last: &'a CoreExpr<'a>,
    pub step: Option<&'a CoreExpr<'a>>,
}

/// The head of a FOR: its variable is read-only and has the base type of the bounds. None where it
/// was refused.
pub fn for_head<'a>(
    checker: &mut Checker<'_, 'a>,
    body: &mut Body<'a>,
    statement: &Stmt<'a>,
) -> Result<Option<ForHead<'a>>, NoMemory> {
    let Stmt::For {
        pos,
        name,
        first,
        last,
        step,
        ..
    } = statement
    else {
        return Ok(None);
    };
    let low = expression(checker, first)?;
    let high = expression(checker, last)?;
    let by = step_of(checker, *pos, *step)?;
    let kind = variable_kind(checker, *pos, low, high)?;
    let variable = bound_variable(checker, body, *name, Role::For, kind)?;
    Ok(head_of(variable, low, high, by))
}

fn head_of<'a>(
    variable: Option<u32>,
    first: Option<Valued<'a>>,
    last: Option<Valued<'a>>,
    step: Option<Option<&'a CoreExpr<'a>>>,
) -> Option<ForHead<'a>> {
    Some(ForHead {
        variable: variable?,
        first: first?.core(),
        last: last?.core(),
        step: step?,
    })
}

/// The type of a FOR's variable: the common base of its bounds (rule 75).
fn variable_kind<'a>(
    checker: &mut Checker<'_, 'a>,
    pos: Pos,
    first: Option<Valued<'a>>,
    last: Option<Valued<'a>>,
) -> Result<Option<TypeId>, NoMemory> {
    let (Some(first), Some(last)) = (first, last) else {
        return Ok(None);
    };
    if share_base(checker, first.kind, last.kind)? {
        Ok(Some(base_of(checker, first.kind)))
    } else {
        checker.note(pos, rules::BAD_FOR_BOUNDS);
        Ok(None)
    }
}

/// The step of a FOR, which is an INTEGER (rule 75): none where it was refused, and none in it
/// where none is written.
fn step_of<'a>(
    checker: &mut Checker<'_, 'a>,
    pos: Pos,
    step: Option<&Expr<'a>>,
) -> Result<Option<Option<&'a CoreExpr<'a>>>, NoMemory> {
    let Some(step) = step else {
        return Ok(Some(None));
    };
    let Some(found) = expression(checker, step)? else {
        return Ok(None);
    };
    if is_integer(checker, found.kind) {
        Ok(Some(Some(found.core())))
    } else {
        checker.note(pos, rules::BAD_FOR_BOUNDS);
        Ok(None)
    }
}
