use bumpalo::Bump;
use bumpalo::collections::into_bump_slice;
use m3_base::NoMemory;

/// Whether a number is among the members of a set.
pub fn has(set: &[i64], member: i64) -> bool {
    for other in set {
        if *other == member {
            return true;
        }
    }
    false
}

/// Whether each member of a set is one of another.
pub fn is_within(set: &[i64], other: &[i64]) -> bool {
    for member in set {
        if !has(other, *member) {
            return false;
        }
    }
    true
}

/// The members of a set that are, or that are not, members of another.
fn chosen<'a>(
    arena: &'a Bump,
    set: &[i64],
    other: &[i64],
    are_shared: bool,
) -> Result<&'a [i64], NoMemory> {
    let mut row = Vec::new(arena);
    for member in set {
        if has(other, *member) == are_shared {
            row.push(*member)?;
        }
    }
    Ok(into_bump_slice(row))
}

/// The intersection of two sets.
pub fn common<'a>(arena: &'a Bump, a: &[i64], b: &[i64]) -> Result<&'a [i64], NoMemory> {
    chosen(arena, a, b, true)
}

/// The difference of two sets.
pub fn without<'a>(arena: &'a Bump, a: &[i64], b: &[i64]) -> Result<&'a [i64], NoMemory> {
    chosen(arena, a, b, false)
}

/// The union of two sets.
pub fn joined<'a>(arena: &'a Bump, a: &[i64], b: &[i64]) -> Result<&'a [i64], NoMemory> {
    let mut row = Vec::new(arena);
    for member in a {
        row.push(*member)?;
    }
    for member in b {
        if !has(a, *member) {
            row.push(*member)?;
        }
    }
    row.sort_unstable();
    Ok(into_bump_slice(row))
}

/// The symmetric difference of two sets.
pub fn unshared<'a>(arena: &'a Bump, a: &[i64], b: &[i64]) -> Result<&'a [i64], NoMemory> {
    let left = chosen(arena, a, b, false)?;
    let right = chosen(arena, b, a, false)?;
    joined(arena, left, right)
}

/// Adds the numbers from the first to the last one to a set.
pub fn add_range<'a>(
    arena: &'a Bump,
    set: &[i64],
    first: i64,
    last: i64,
) -> Result<&'a [i64], NoMemory> {
    let mut row = Vec::new(arena);
    for member in set {
        row.push(*member)?;
    }
    for member in first..last {
        if !has(set, member) {
            row.push(member)?;
        }
    }
    if first <= last && !has(set, last) {
        row.push(last)?;
    }
    row.sort_unstable();
    Ok(into_bump_slice(row))
}
