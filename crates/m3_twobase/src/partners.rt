//! Which addresses of a loop go by the pointer of another.
use crate::places::{Place, has_reference, places_of, reference_of};
use m3_base::NoMemory;
use m3_counting_loops::{
    Findings, Loop, Stand, Sum, difference, distance, taken, times_in, without_number,
};
use m3_mid::{Kind, Proc};
use m3_same_forms::{Form, Symbol};
use std::alloc::Global;

/// An array that may go by the leader's pointer. The addresses of its elements are this sum, but for a
/// number that loads and stores add.
#[derive(Drop)]
struct Partner {
    value: Form,
    /// In how many blocks that each turn passes it is added to the pointer, and the last of them.
    blocks: u32,
    block: u32,
    /// Whether it would be added more often than a pointer of its own would move.
    is_dear: bool,
}

/// The first address by a reference that moves with the loop, in a block that each turn passes.
fn leader_of<'p>(p: &Proc<'_>, counted: &Loop, places: &'p [Place]) -> Option<&'p Place> {
    for place in places {
        let value = &place.access.value;
        if place.is_passed
            && times_in(value, Symbol::Left(counted.index)) != 0
            && has_reference(p, value)
        {
            return Some(place);
        }
    }
    None
}

/// Whether a sum is a reference less another, and a number.
fn is_difference(p: &Proc<'_>, value: &Form) -> bool {
    let mut added = 0u32;
    let mut others = 0u32;
    for term in &value.terms {
        if reference_of(p, *term).is_some() {
            added = added.saturating_add(1);
        } else if taken(p, *term).is_some() {
            others = others.saturating_add(1);
        } else if !matches!(term.symbol, Symbol::One) {
            return false;
        }
    }
    added == 1 && others == 1
}

/// A block adds a partner to the pointer.
fn count_block(partner: &mut Partner, place: &Place) {
    let block = place.access.block;
    if place.is_repeated {
        partner.is_dear = true;
    } else if place.is_passed && (partner.blocks == 0 || partner.block != block) {
        partner.blocks = partner.blocks.saturating_add(1);
        partner.block = block;
    }
    if partner.blocks > 1 {
        partner.is_dear = true;
    }
}

/// The partner from whose sum an address is not far.
fn partner_of(
    alloc: Global,
    partners: &[Partner],
    value: &Form,
) -> Result<Option<usize>, NoMemory> {
    for (number, partner) in partners.iter().enumerate() {
        if distance(alloc, &partner.value, value)?.is_some() {
            return Ok(Some(number));
        }
    }
    Ok(None)
}

/// The arrays that may go by the leader's pointer.
fn partners_of(
    alloc: Global,
    p: &Proc<'_>,
    places: &[Place],
    leader: &Form,
) -> Result<Vec<Partner>, NoMemory> {
    let mut partners = Vec::new(alloc);
    for place in places {
        let value = &place.access.value;
        if is_difference(p, &difference(alloc, leader, value)?) {
            let mut number = partner_of(alloc, &partners, value)?;
            if number.is_none() {
                number = Some(partners.len());
                partners.push(Partner {
                    value: value.copy(alloc)?,
                    blocks: 0,
                    block: 0,
                    is_dear: false,
                })?;
            }
            if let Some(number) = number
                && let Some(partner) = partners.get_mut(number)
            {
                count_block(partner, place);
            }
        }
    }
    partners.retain(|partner| !partner.is_dear);
    Ok(partners)
}

/// The address that became a sum in a block.
#[derive(Clone, Copy)]
struct Met {
    block: u32,
    temp: u32,
}

/// A temporary or a sum of two, and what it holds in a loop.
#[derive(Drop)]
struct Held {
    sum: Sum,
    value: Form,
}

/// Lets the leader's pointer stand in the place of the addresses that are not far from it. Gives
/// the pointer where there can be one.
fn lead(
    alloc: Global,
    findings: &mut Findings<'_>,
    counted: &Loop,
    places: &[Place],
    leader: &Place,
) -> Result<Option<Held>, NoMemory> {
    if !findings.has_room(2) || !findings.add_pointer(counted, &leader.access)? {
        return Ok(None);
    }
    for place in places {
        let stand = findings.near(&place.access)?;
        findings.put(&place.access, stand);
    }
    match findings.last_pointer() {
        Some(pointer) => Ok(Some(Held {
            sum: Sum {
                left: pointer.temp,
                right: pointer.temp,
            },
            value: pointer.value.copy(alloc)?,
        })),
        None => Ok(None),
    }
}

/// Keeps the difference of a partner to the leader's pointer. Gives the sum of both where it can be
/// had.
fn follow(
    alloc: Global,
    findings: &mut Findings<'_>,
    counted: &Loop,
    pointer: &Held,
    partner: &Form,
) -> Result<Option<Held>, NoMemory> {
    let whole = difference(alloc, &pointer.value, partner)?;
    let bare = without_number(alloc, &whole)?;
    let is_near = distance(alloc, &bare, &whole)?.is_some();
    let kept = if is_near { bare } else { whole };
    let value = pointer.value.merge(alloc, kept.copy(alloc)?)?;
    let start = kept.copy(alloc)?;
    if !findings.keep(counted, Kind::Address, &start, kept)? {
        return Ok(None);
    }
    match findings.last_pointer() {
        Some(kept) => Ok(Some(Held {
            sum: Sum {
                left: pointer.sum.left,
                right: kept.temp,
            },
            value,
        })),
        None => Ok(None),
    }
}

/// Lets the addresses of a partner go by a sum, which the first of them in each block becomes.
fn meet(
    alloc: Global,
    findings: &mut Findings<'_>,
    places: &[Place],
    partner: &Form,
    held: &Held,
) -> Result<(), NoMemory> {
    let mut met: Option<Met> = None;
    for place in places {
        let access = &place.access;
        if distance(alloc, partner, &access.value)?.is_some()
            && let Some(distance) = distance(alloc, &held.value, &access.value)?
        {
            match met {
                Some(first) if first.block == access.block => {
                    let temp = first.temp;
                    findings.put(access, Some(Stand { temp, distance }));
                }
                _ => {
                    findings.change(access, held.sum, distance);
                    met = Some(Met {
                        block: access.block,
                        temp: access.to,
                    });
                }
            }
        }
    }
    Ok(())
}

/// Pairs addresses of a loop.
pub(crate) fn pair_loop(
    alloc: Global,
    findings: &mut Findings<'_>,
    p: &Proc<'_>,
    counted: &Loop,
) -> Result<(), NoMemory> {
    if !findings.enter(counted)? {
        return Ok(());
    }
    let places = places_of(alloc, findings, counted)?;
    let Some(leader) = leader_of(p, counted, &places) else {
        return Ok(());
    };
    let partners = partners_of(alloc, p, &places, &leader.access.value)?;
    if partners.is_empty() {
        return Ok(());
    }
    let Some(pointer) = lead(alloc, findings, counted, &places, leader)? else {
        return Ok(());
    };
    for partner in &partners {
        if let Some(held) = follow(alloc, findings, counted, &pointer, &partner.value)? {
            meet(alloc, findings, &places, &partner.value, &held)?;
        }
    }
    Ok(())
}
