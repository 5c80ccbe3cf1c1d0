use m3_base::{NoMemory, Pos, rules};
use m3_check_arithmetic_calls::integer_given;
use m3_check_assigning::{chain_of, finished_place, new_chain, value_given};
use m3_check_state::{Checker, Draft, Given, State, Thing};
use m3_check_types::{base_of, element_type, is_array, is_ordinal, ordinal_bounds};
use m3_core::{ArrayLimit, Base, Chain, CoreExpr};
use m3_link_scopes::Predeclared;
use m3_types::{TypeId, TypeNode};

/// FIRST, LAST and NUMBER of an ordinal type, a fixed array type or an array (rule 68).
pub fn limit<'a>(
    checker: &mut Checker<'_, 'a>,
    pos: Pos,
    routine: Predeclared,
    only: &Given<'a>,
) -> Result<Thing<'a>, NoMemory> {
    if let Thing::Type(kind) = only.thing {
        return type_limit(checker, pos, routine, only.pos, kind);
    }
    let Some(draft) = chain_of(checker, only.pos, &only.thing)? else {
        return Ok(Thing::Bad);
    };
    if !is_array(checker, draft.kind) {
        return Ok(checker.bad(only.pos, rules::BAD_BUILT_IN_ARGUMENT));
    }
    let array = finished_place(checker, &draft)?;
    array_limit(checker, pos, routine, draft.kind, array)
}

fn type_limit<'a>(
    checker: &mut Checker<'_, 'a>,
    pos: Pos,
    routine: Predeclared,
    at: Pos,
    kind: TypeId,
) -> Result<Thing<'a>, NoMemory> {
    let kind = match checker.node(kind) {
        TypeNode::FixedArray(index, _) => index,
        _ => kind,
    };
    if !is_ordinal(checker, kind) {
        return Ok(checker.bad(at, rules::BAD_BUILT_IN_ARGUMENT));
    }
    if routine == Predeclared::Number {
        return type_number(checker, pos, at, kind);
    }
    if let TypeNode::Enumeration(names) = checker.node(kind) {
        if names.is_empty() {
            return Ok(checker.bad(at, rules::BAD_BUILT_IN_ARGUMENT));
        }
    }
    let (first, last) = ordinal_bounds(checker, kind);
    let base = base_of(checker, kind);
    if routine == Predeclared::First {
        checker.number(pos, base, first)
    } else {
        checker.number(pos, base, last)
    }
}

/// NUMBER of an ordinal type, which no integer gives where the type has too many members.
fn type_number<'a>(
    checker: &mut Checker<'_, 'a>,
    pos: Pos,
    at: Pos,
    kind: TypeId,
) -> Result<Thing<'a>, NoMemory> {
    match i64::try_from(checker.declared.types.member_count(kind)) {
        Ok(members) => checker.number(pos, checker.declared.basic.cardinal, members),
        Err(_) => Ok(checker.bad(at, rules::BAD_BUILT_IN_ARGUMENT)),
    }
}

fn array_limit<'a>(
    checker: &Checker<'_, 'a>,
    pos: Pos,
    routine: Predeclared,
    array_kind: TypeId,
    array: &'a Chain<'a>,
) -> Result<Thing<'a>, NoMemory> {
    let base = match checker.node(array_kind) {
        TypeNode::FixedArray(index, _) => base_of(checker, index),
        _ => checker.declared.basic.integer,
    };
    let (limit, kind) = match routine {
        Predeclared::Number => (ArrayLimit::Number, checker.declared.basic.cardinal),
        Predeclared::First => (ArrayLimit::First, base),
        _ => (ArrayLimit::Last, base),
    };
    let expr = CoreExpr::ArrayLimit {
        pos,
        kind,
        limit,
        array,
    };
    checker.value(expr, kind)
}

/// SUBARRAY of an array, from a start, of a count of elements (rule 68).
pub fn subarray<'a>(
    checker: &mut Checker<'_, 'a>,
    pos: Pos,
    array: &Given<'a>,
    start: &Given<'a>,
    count: &Given<'a>,
) -> Result<Thing<'a>, NoMemory> {
    let whole = chain_of(checker, array.pos, &array.thing)?;
    let from = value_given(checker, start)?;
    let elements = value_given(checker, count)?;
    let Some(draft) = whole else {
        return Ok(Thing::Bad);
    };
    let Some(element) = element_type(checker, draft.kind) else {
        return Ok(checker.bad(array.pos, rules::BAD_BUILT_IN_ARGUMENT));
    };
    let (Some(_), Some(_)) = (from, elements) else {
        return Ok(Thing::Bad);
    };
    let (Some(from), Some(elements)) = (
        integer_given(checker, start, from),
        integer_given(checker, count, elements),
    ) else {
        return Ok(Thing::Bad);
    };
    let kind = open_array(checker, element)?;
    let array = finished_place(checker, &draft)?;
    let base = Base::Subarray {
        array,
        start: from.core(),
        count: elements.core(),
        kind,
    };
    part_of(checker, pos, &draft, base, kind)
}

/// The place of a part of what a chain gives, which may be written where that may.
fn part_of<'a>(
    checker: &Checker<'_, 'a>,
    pos: Pos,
    draft: &Draft<'a>,
    base: Base<'a>,
    kind: TypeId,
) -> Result<Thing<'a>, NoMemory> {
    let state = State::Place {
        is_writable: draft.state.is_writable(),
        is_designator: draft.state.is_designator(),
    };
    Ok(Thing::Chain(new_chain(checker, pos, base, kind, state)?))
}

/// The open array type of an element type.
fn open_array(checker: &mut Checker<'_, '_>, element: TypeId) -> Result<TypeId, NoMemory> {
    if let Some(kind) = checker.open.get(&element) {
        return Ok(*kind);
    }
    let kind = checker.declared.types.push(TypeNode::OpenArray(element))?;
    checker.open.insert(element, kind)?;
    Ok(kind)
}
