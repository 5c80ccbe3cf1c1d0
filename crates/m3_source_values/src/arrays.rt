use crate::values::Value;
use bumpalo::Bump;
use bumpalo::collections::into_bump_slice;
use m3_base::NoMemory;

/// The most parts that one value may have in a row; more is want of memory.
pub const LONGEST_ROW: u64 = 1 << 24;

/// A row of values in the arena.
pub fn row_of<'m>(arena: &'m Bump, row: &[Value<'m>]) -> Result<&'m [Value<'m>], NoMemory> {
    Ok(&*arena.try_alloc_slice_copy(row)?)
}

/// A row with a value behind the others.
pub fn appended<'m>(
    arena: &'m Bump,
    before: &[Value<'m>],
    value: Value<'m>,
) -> Result<&'m [Value<'m>], NoMemory> {
    let mut row = Vec::new(arena);
    row.extend_from_slice(before)?;
    row.push(value)?;
    Ok(into_bump_slice(row))
}

/// How many elements an array has; none of what is no array.
pub fn count(value: &Value<'_>) -> u64 {
    match value {
        Value::Array(_, elements) => elements.len() as u64,
        _ => 0,
    }
}

/// The sizes of all dimensions, the outermost first; none of what is no array.
pub fn shape<'m>(arena: &'m Bump, value: &Value<'m>) -> Result<&'m [u64], NoMemory> {
    match value {
        Value::Array(below, elements) => as_shape(arena, elements.len() as u64, below),
        _ => Ok(&[]),
    }
}

/// The sizes of dimensions of which the outermost has this one.
pub fn as_shape<'m>(arena: &'m Bump, outermost: u64, below: &[u64]) -> Result<&'m [u64], NoMemory> {
    let mut sizes = Vec::new(arena);
    sizes.push(outermost)?;
    sizes.extend_from_slice(below)?;
    Ok(into_bump_slice(sizes))
}

/// Whether two arrays have one shape.
pub fn same_shape(left: &Value<'_>, right: &Value<'_>) -> bool {
    match (left, right) {
        (Value::Array(below, elements), Value::Array(other, others)) => {
            elements.len() == others.len() && below == other
        }
        (Value::Array(_, _), _) | (_, Value::Array(_, _)) => false,
        _ => true,
    }
}

/// The array of these elements, which have one shape; where there are none, theirs is given.
pub fn array_of<'m>(
    arena: &'m Bump,
    below: &'m [u64],
    elements: &'m [Value<'m>],
) -> Result<Value<'m>, NoMemory> {
    match elements.first() {
        Some(first) => Ok(Value::Array(shape(arena, first)?, elements)),
        None => Ok(Value::Array(below, elements)),
    }
}

/// An array of a size, all of whose elements are this one.
pub fn array_filled<'m>(
    arena: &'m Bump,
    size: u64,
    element: Value<'m>,
) -> Result<Value<'m>, NoMemory> {
    let elements = up_to(arena, size, &[element])?;
    Ok(Value::Array(shape(arena, &element)?, elements))
}

/// Those that are listed, of which the last stands for all up to a count.
pub fn up_to<'m>(
    arena: &'m Bump,
    count: u64,
    listed: &[Value<'m>],
) -> Result<&'m [Value<'m>], NoMemory> {
    if count > LONGEST_ROW {
        return Err(NoMemory);
    }
    let mut row = Vec::new(arena);
    if let Some(last) = listed.last() {
        for place in 0..count as usize {
            row.push(*listed.get(place).unwrap_or(last))?;
        }
    }
    Ok(into_bump_slice(row))
}

/// So many elements of an array from one on; none where it lacks some of them.
pub fn part_of<'m>(start: u64, count: u64, value: &Value<'m>) -> Option<Value<'m>> {
    let Value::Array(below, elements) = value else {
        return None;
    };
    let from = usize::try_from(start).ok()?;
    let to = from.checked_add(usize::try_from(count).ok()?)?;
    let part = elements.get(from..to)?;
    Some(Value::Array(*below, part))
}

/// An array with other elements from one on; none where it lacks some of these.
pub fn with_part<'m>(
    arena: &'m Bump,
    start: u64,
    part: &[Value<'m>],
    elements: &[Value<'m>],
) -> Result<Option<&'m [Value<'m>]>, NoMemory> {
    let Ok(from) = usize::try_from(start) else {
        return Ok(None);
    };
    let Some(to) = from.checked_add(part.len()) else {
        return Ok(None);
    };
    let (Some(before), Some(behind)) = (elements.get(..from), elements.get(to..)) else {
        return Ok(None);
    };
    let mut row = Vec::new(arena);
    row.extend_from_slice(before)?;
    row.extend_from_slice(part)?;
    row.extend_from_slice(behind)?;
    Ok(Some(into_bump_slice(row)))
}

/// Whether an array has the sizes that a type says: none of an open dimension.
pub fn fits(wanted: &[Option<u64>], value: &Value<'_>) -> bool {
    let (below, elements): (&[u64], u64) = match value {
        Value::Array(below, elements) => (below, elements.len() as u64),
        _ => return wanted.is_empty(),
    };
    for (place, said) in wanted.iter().enumerate() {
        let size = match place.checked_sub(1) {
            None => elements,
            Some(inner) => match below.get(inner) {
                Some(size) => *size,
                None => return false,
            },
        };
        if let Some(said) = said
            && *said != size
        {
            return false;
        }
    }
    true
}
