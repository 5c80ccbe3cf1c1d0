use crate::given::{built, integer_given, ordinal_given, type_given};
use m3_base::{NoMemory, Pos, rules};
use m3_check_assigning::{finished, is_writable, value_given, with_check};
use m3_check_state::{Change, Checker, Given, Thing, Valued};
use m3_check_types::{are_same, base_of, is_ordinal, share_base};
use m3_core::{BuiltinCall, Chain, Conversion, CoreExpr, Prefix, PrefixOperator, Routine};
use m3_types::TypeId;

/// ABS of an integer (rule 68).
pub fn abs<'a>(
    checker: &mut Checker<'_, 'a>,
    pos: Pos,
    only: &Given<'a>,
) -> Result<Thing<'a>, NoMemory> {
    let value = value_given(checker, only)?;
    let Some(value) = integer_given(checker, only, value) else {
        return Ok(Thing::Bad);
    };
    let operators = &*checker.arena.try_alloc_slice_copy(&[Prefix {
        operator: PrefixOperator::Abs,
        pos,
    }])?;
    let kind = checker.declared.basic.integer;
    let expr = CoreExpr::Prefixed {
        pos,
        kind,
        operators,
        operand: value.core(),
    };
    checker.value(expr, kind)
}

/// A routine that computes from values alone.
fn computed<'a>(
    checker: &Checker<'_, 'a>,
    pos: Pos,
    routine: Routine,
    values: &[CoreExpr<'a>],
    kind: TypeId,
) -> Result<Thing<'a>, NoMemory> {
    let actuals = &*checker.arena.try_alloc_slice_copy(values)?;
    let call = BuiltinCall {
        pos,
        routine,
        actuals,
        order: order_of(values.len()),
        kind: Some(kind),
    };
    built(checker, call)
}

/// The places of one or two values, in their order.
fn order_of(values: usize) -> &'static [u32] {
    match values {
        1 => &[0],
        _ => &[0, 1],
    }
}

/// MAX and MIN of ordinals with one base (rule 68).
pub fn extreme<'a>(
    checker: &mut Checker<'_, 'a>,
    pos: Pos,
    routine: Routine,
    first: &Given<'a>,
    second: &Given<'a>,
) -> Result<Thing<'a>, NoMemory> {
    let left = value_given(checker, first)?;
    let right = value_given(checker, second)?;
    let (Some(left), Some(right)) = (left, right) else {
        return Ok(Thing::Bad);
    };
    if !is_ordinal(checker, left.kind) {
        return Ok(checker.bad(first.pos, rules::BAD_BUILT_IN_ARGUMENT));
    }
    if !share_base(checker, left.kind, right.kind)? {
        return Ok(checker.bad(second.pos, rules::BAD_BUILT_IN_ARGUMENT));
    }
    let kind = if are_same(checker, left.kind, right.kind)? {
        left.kind
    } else {
        base_of(checker, left.kind)
    };
    computed(checker, pos, routine, &[*left.core(), *right.core()], kind)
}

/// ORD of an ordinal (rule 68).
pub fn ord<'a>(
    checker: &mut Checker<'_, 'a>,
    pos: Pos,
    only: &Given<'a>,
) -> Result<Thing<'a>, NoMemory> {
    let value = value_given(checker, only)?;
    let Some(value) = ordinal_given(checker, only, value) else {
        return Ok(Thing::Bad);
    };
    let kind = checker.declared.basic.integer;
    computed(checker, pos, Routine::Ord, &[*value.core()], kind)
}

/// VAL of an integer and an ordinal type (rule 68).
pub fn val<'a>(
    checker: &mut Checker<'_, 'a>,
    pos: Pos,
    first: &Given<'a>,
    second: &Given<'a>,
) -> Result<Thing<'a>, NoMemory> {
    let value = value_given(checker, first)?;
    let kind = type_given(checker, second);
    let (Some(_), Some(kind)) = (value, kind) else {
        return Ok(Thing::Bad);
    };
    let Some(value) = integer_given(checker, first, value) else {
        return Ok(Thing::Bad);
    };
    if !is_ordinal(checker, kind) {
        return Ok(checker.bad(second.pos, rules::BAD_BUILT_IN_ARGUMENT));
    }
    let base = base_of(checker, kind);
    let Thing::Value(value) = computed(checker, pos, Routine::Val, &[*value.core()], base)? else {
        return Ok(Thing::Bad);
    };
    Ok(Thing::Value(with_check(checker, pos, &value, kind, Conversion::Range)?))
}

/// INC and DEC: a writable designator (rules 52 and 53) of an ordinal type, and an integer (rule
/// 68).
pub fn change<'a>(
    checker: &mut Checker<'_, 'a>,
    pos: Pos,
    is_decrement: bool,
    first: &Given<'a>,
    second: Option<&Given<'a>>,
) -> Result<Thing<'a>, NoMemory> {
    let target = target_of(checker, first)?;
    let by = match second {
        Some(second) => value_given(checker, second)?,
        None => None,
    };
    let Some(target) = target else {
        return Ok(Thing::Bad);
    };
    let amount = match second {
        Some(second) => match integer_given(checker, second, by) {
            Some(value) => Some(value),
            None => return Ok(Thing::Bad),
        },
        None => None,
    };
    changed(checker, pos, is_decrement, target, amount)
}

/// The place that INC or DEC changes.
fn target_of<'a>(
    checker: &mut Checker<'_, 'a>,
    first: &Given<'a>,
) -> Result<Option<&'a Chain<'a>>, NoMemory> {
    if !is_writable(checker, first.pos, &first.thing) {
        return Ok(None);
    }
    let Thing::Chain(draft) = first.thing else {
        return Ok(None);
    };
    if !is_ordinal(checker, draft.kind) {
        checker.note(first.pos, rules::BAD_BUILT_IN_ARGUMENT);
        return Ok(None);
    }
    Ok(Some(finished(checker, &draft, Some(draft.kind))?))
}

fn changed<'a>(
    checker: &Checker<'_, 'a>,
    pos: Pos,
    is_decrement: bool,
    target: &'a Chain<'a>,
    amount: Option<Valued<'a>>,
) -> Result<Thing<'a>, NoMemory> {
    let change = Change {
        pos,
        is_decrement,
        target,
        amount: match amount {
            Some(value) => Some(value.core()),
            None => None,
        },
    };
    Ok(Thing::Change(checker.box_up(change)?))
}
