use bumpalo::Bump;
use bumpalo::collections::into_bump_slice;
use m3_base::NoMemory;

/// The most members that a set may get at once.
const MOST_MEMBERS: u64 = 1 << 20;

pub fn is_in(member: i64, members: &[i64]) -> bool {
    for other in members {
        if *other == member {
            return true;
        }
    }
    false
}

/// A set with a member more, at its place.
pub fn with_member<'m>(
    arena: &'m Bump,
    member: i64,
    members: &[i64],
) -> Result<&'m [i64], NoMemory> {
    let mut row = Vec::new(arena);
    let mut is_there = false;
    for other in members {
        if !is_there && member <= *other {
            is_there = true;
            if member < *other {
                row.push(member)?;
            }
        }
        row.push(*other)?;
    }
    if !is_there {
        row.push(member)?;
    }
    Ok(into_bump_slice(row))
}

/// A set with the members from the first to the last more; none more where the last is less.
pub fn with_range<'m>(
    arena: &'m Bump,
    first: i64,
    last: i64,
    members: &'m [i64],
) -> Result<&'m [i64], NoMemory> {
    if last < first {
        return Ok(members);
    }
    if last.abs_diff(first) >= MOST_MEMBERS {
        return Err(NoMemory);
    }
    let mut row = Vec::new(arena);
    for other in members {
        if *other < first {
            row.push(*other)?;
        }
    }
    for member in first..=last {
        row.push(member)?;
    }
    for other in members {
        if *other > last {
            row.push(*other)?;
        }
    }
    Ok(into_bump_slice(row))
}

pub fn union<'m>(
    arena: &'m Bump,
    members: &[i64],
    others: &'m [i64],
) -> Result<&'m [i64], NoMemory> {
    let mut all = others;
    for member in members {
        if !is_in(*member, all) {
            all = with_member(arena, *member, all)?;
        }
    }
    Ok(all)
}

/// The members that the other set has, or those that it lacks.
fn chosen<'m>(
    arena: &'m Bump,
    members: &[i64],
    others: &[i64],
    wanted: bool,
) -> Result<&'m [i64], NoMemory> {
    let mut row = Vec::new(arena);
    for member in members {
        if is_in(*member, others) == wanted {
            row.push(*member)?;
        }
    }
    Ok(into_bump_slice(row))
}

pub fn difference_of<'m>(
    arena: &'m Bump,
    members: &[i64],
    others: &[i64],
) -> Result<&'m [i64], NoMemory> {
    chosen(arena, members, others, false)
}

pub fn intersection<'m>(
    arena: &'m Bump,
    members: &[i64],
    others: &[i64],
) -> Result<&'m [i64], NoMemory> {
    chosen(arena, members, others, true)
}

pub fn symmetric_difference<'m>(
    arena: &'m Bump,
    members: &[i64],
    others: &[i64],
) -> Result<&'m [i64], NoMemory> {
    let left = chosen(arena, members, others, false)?;
    let right = chosen(arena, others, members, false)?;
    union(arena, left, right)
}

/// Inclusion.
pub fn is_within(members: &[i64], others: &[i64]) -> bool {
    for member in members {
        if !is_in(*member, others) {
            return false;
        }
    }
    true
}

pub fn is_properly_within(members: &[i64], others: &[i64]) -> bool {
    is_within(members, others) && members != others
}
