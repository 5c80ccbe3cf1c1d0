use bumpalo::collections::into_bump_slice;
use m3_base::{NoMemory, Pos, rules};
use m3_check_assigning::value_of;
use m3_check_state::{Checker, Thing, Valued};
use m3_check_types::{is_boolean, is_integer};
use m3_core::{CoreExpr, Prefix, PrefixOperator};
use m3_syntax::PrefixSign;
use m3_types::TypeId;

/// NOT before a BOOLEAN, once or more (rule 50 at the innermost word).
pub fn nots<'a>(
    checker: &mut Checker<'_, 'a>,
    pos: Pos,
    words: &[Pos],
    at: Pos,
    thing: &Thing<'a>,
) -> Result<Thing<'a>, NoMemory> {
    let Some(value) = value_of(checker, at, thing)? else {
        return Ok(Thing::Bad);
    };
    if !is_boolean(checker, value.kind) {
        return Ok(checker.bad(
            words.last().copied().unwrap_or(pos),
            rules::OPERANDS_DO_NOT_FIT,
        ));
    }
    let mut operators = Vec::new(checker.arena);
    for word in words {
        operators.push(Prefix {
            operator: PrefixOperator::Not,
            pos: *word,
        })?;
    }
    let kind = checker.declared.basic.boolean;
    prefixed(checker, pos, kind, into_bump_slice(operators), value)
}

/// Signs before an integer, once or more (rule 50 at the innermost); a plus leaves nothing behind.
pub fn signed<'a>(
    checker: &mut Checker<'_, 'a>,
    pos: Pos,
    signs: &[PrefixSign],
    at: Pos,
    thing: &Thing<'a>,
) -> Result<Thing<'a>, NoMemory> {
    let Some(value) = value_of(checker, at, thing)? else {
        return Ok(Thing::Bad);
    };
    if !is_integer(checker, value.kind) {
        let innermost = match signs.last() {
            Some(sign) => sign.pos,
            None => pos,
        };
        return Ok(checker.bad(innermost, rules::OPERANDS_DO_NOT_FIT));
    }
    let mut operators = Vec::new(checker.arena);
    for sign in signs {
        if sign.is_minus {
            operators.push(Prefix {
                operator: PrefixOperator::Minus,
                pos: sign.pos,
            })?;
        }
    }
    let kind = checker.declared.basic.integer;
    prefixed(checker, pos, kind, into_bump_slice(operators), value)
}

/// A value with operators before it, if there are any.
fn prefixed<'a>(
    checker: &Checker<'_, 'a>,
    pos: Pos,
    kind: TypeId,
    operators: &'a [Prefix],
    value: Valued<'a>,
) -> Result<Thing<'a>, NoMemory> {
    if operators.is_empty() {
        return Ok(Thing::Value(Valued {
            kind,
            may_be_inner: false,
            ..value
        }));
    }
    let expr = CoreExpr::Prefixed {
        pos,
        kind,
        operators,
        operand: value.core(),
    };
    checker.value(expr, kind)
}
