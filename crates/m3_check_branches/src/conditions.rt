use m3_base::{NoMemory, rules};
use m3_check_state::Checker;
use m3_check_types::is_boolean;
use m3_core::CoreExpr;
use m3_exprs::expression;
use m3_syntax::Expr;

/// A condition, which is BOOLEAN (rule 76).
pub fn condition<'a>(
    checker: &mut Checker<'_, 'a>,
    value: &Expr<'a>,
) -> Result<Option<&'a CoreExpr<'a>>, NoMemory> {
    checker.steps.clear();
    let Some(found) = expression(checker, value)? else {
        return Ok(None);
    };
    if !is_boolean(checker, found.kind) {
        checker.note(value.pos(), rules::CONDITION_NOT_BOOLEAN);
        return Ok(None);
    }
    Ok(Some(found.core()))
}
