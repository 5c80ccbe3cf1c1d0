use bumpalo::Bump;
use bumpalo::collections::into_bump_slice;
use m3_base::NoMemory;
use m3_const_values::are_same;
use m3_core::{Value, ValueId};
use m3_decl_state::Declarer;
use m3_types::{ConstId, ConstValue, TypeNode};

/// A constant of the program as one that types contain: after its parts, over an explicit
/// stack.
pub fn intern(declarer: &mut Declarer<'_, '_>, value: ValueId) -> Result<ConstId, NoMemory> {
    let mut stack = Vec::new(declarer.eval.alloc);
    stack.push((value, false))?;
    'values: for _ in 0..u64::MAX {
        let Some((value, is_ready)) = stack.pop() else {
            break 'values;
        };
        intern_next(declarer, &mut stack, value, is_ready)?;
    }
    interned_as(declarer, value)
}

/// Adds a constant if its parts are there, and else puts them onto the stack above it.
fn intern_next(
    declarer: &mut Declarer<'_, '_>,
    stack: &mut Vec<(ValueId, bool)>,
    value: ValueId,
    is_ready: bool,
) -> Result<(), NoMemory> {
    if declarer.interned.contains_key(&value) {
        return Ok(());
    }
    let parts = parts_of(declarer, value);
    if is_ready || parts.is_empty() {
        return intern_whole(declarer, value);
    }
    stack.push((value, true))?;
    for part in parts {
        stack.push((*part, false))?;
    }
    Ok(())
}

/// What a constant of the program was interned as. The search puts the parts of a constant, which
/// were kept before it, onto the stack above it, so each is interned first.
fn interned_as(declarer: &Declarer<'_, '_>, value: ValueId) -> Result<ConstId, NoMemory> {
    match declarer.interned.get(&value) {
        Some(constant) => Ok(*constant),
        None => Err(m3_base::gap()),
    }
}

/// The constants that a constant is made of.
fn parts_of<'a>(declarer: &Declarer<'_, 'a>, value: ValueId) -> &'a [ValueId] {
    match declarer.eval.stored(value) {
        Some(Value::Record(parts)) | Some(Value::Array(parts, _)) => parts,
        _ => &[],
    }
}

/// Adds a constant whose parts are there.
fn intern_whole(declarer: &mut Declarer<'_, '_>, value: ValueId) -> Result<(), NoMemory> {
    let constant = contained(declarer, value)?;
    let place = declarer
        .eval
        .declared
        .types
        .push(TypeNode::Constant(constant))?;
    declarer.interned.insert(value, ConstId(place.0))?;
    declarer.intern_order.push(value)?;
    Ok(())
}

/// A constant of the program as types contain it.
fn contained<'a>(
    declarer: &mut Declarer<'_, 'a>,
    value: ValueId,
) -> Result<ConstValue<'a>, NoMemory> {
    let Some(value) = declarer.eval.stored(value) else {
        return Ok(ConstValue::Nil);
    };
    match value {
        Value::Number(number) => Ok(ConstValue::Ordinal(number)),
        Value::Nil => Ok(ConstValue::Nil),
        Value::Text(_) => contained_text(declarer, value),
        Value::Procedure(number) => Ok(ConstValue::Procedure(number)),
        Value::Set(members) => Ok(ConstValue::Set(places_of(declarer, members)?)),
        Value::Record(parts) => Ok(ConstValue::Fields(row_of(declarer, parts)?)),
        Value::Array(parts, count) => {
            let row = row_of(declarer, parts)?;
            Ok(ConstValue::Elements(without_repeats(declarer, row)?, count))
        }
    }
}

fn contained_text<'a>(
    declarer: &mut Declarer<'_, 'a>,
    value: Value<'a>,
) -> Result<ConstValue<'a>, NoMemory> {
    match declarer.bytes_of(value)? {
        Some(text) => Ok(ConstValue::Text(text)),
        None => Ok(ConstValue::Nil),
    }
}

/// The members of a set by their places; sets have at most 256 members, so their numbers
/// modulo 256 tell them apart.
fn places_of<'a>(declarer: &Declarer<'_, 'a>, members: &[i64]) -> Result<&'a [u8], NoMemory> {
    let mut row: Vec<u8, &'a Bump> = Vec::new(declarer.eval.arena);
    for member in members {
        row.push(low_byte(*member))?;
    }
    row.sort_unstable();
    Ok(into_bump_slice(row))
}

fn row_of<'a>(declarer: &Declarer<'_, 'a>, parts: &[ValueId]) -> Result<&'a [ConstId], NoMemory> {
    let mut row: Vec<ConstId, &'a Bump> = Vec::new(declarer.eval.arena);
    for part in parts {
        row.push(interned_as(declarer, *part)?)?;
    }
    Ok(into_bump_slice(row))
}

/// The elements of an array without the last one, where that repeats the one before; else None.
fn without_repeat<'a>(
    declarer: &Declarer<'_, 'a>,
    row: &'a [ConstId],
) -> Result<Option<&'a [ConstId]>, NoMemory> {
    let [before @ .., last] = row else {
        return Ok(None);
    };
    let Some(other) = before.last() else {
        return Ok(None);
    };
    if are_same_constants(declarer, *last, *other)? {
        Ok(Some(before))
    } else {
        Ok(None)
    }
}

/// The elements of an array without the last ones that repeat the one before.
fn without_repeats<'a>(
    declarer: &Declarer<'_, 'a>,
    row: &'a [ConstId],
) -> Result<&'a [ConstId], NoMemory> {
    let mut listed = row;
    for _ in 1..row.len() {
        match without_repeat(declarer, listed)? {
            Some(before) => listed = before,
            None => return Ok(listed),
        }
    }
    Ok(listed)
}

fn are_same_constants(
    declarer: &Declarer<'_, '_>,
    a: ConstId,
    b: ConstId,
) -> Result<bool, NoMemory> {
    let a = m3_types::TypeId(a.0);
    let b = m3_types::TypeId(b.0);
    are_same(&declarer.eval, a, b)
}

/// A number modulo 256.
fn low_byte(number: i64) -> u8 {
    let [low, ..] = number.to_le_bytes();
    low
}
