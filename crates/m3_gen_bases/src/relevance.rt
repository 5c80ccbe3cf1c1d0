use crate::plans::{Base, kind_of};
use crate::sources::{Setting, Source};
use m3_base::{NoMemory, gap, place_number};
use m3_flow::{LiveRange, LiveSets, Order, actuals_of, is_call, is_point, ops_of};
use m3_mid::{Actual, Kind, MidOp, Proc};
use std::alloc::Global;

/// A point by its place; whether it is a call.
#[derive(Clone, Copy)]
struct PointAt {
    place: u32,
    is_call: bool,
}

pub(crate) fn set_flag(flags: &mut Vec<bool>, at: u32) -> bool {
    if let Some(flag) = flags.get_mut(at as usize)
        && !*flag
    {
        *flag = true;
        return true;
    }
    false
}

pub(crate) fn has_flag(flags: &[bool], at: u32) -> bool {
    flags.get(at as usize).copied().unwrap_or(false)
}

/// The first point that isn't before a place.
fn point_from(points: &[PointAt], place: u32) -> Option<PointAt> {
    let mut low = 0;
    let mut high = points.len();
    for _halving in 0..64 {
        if low < high {
            let middle = low + (high - low) / 2;
            match points.get(middle) {
                Some(point) if point.place < place => low = middle + 1,
                _ => high = middle,
            }
        }
    }
    points.get(low).copied()
}

/// Whether the row of a point names what is live at these places.
fn meets_point(points: &[PointAt], range: LiveRange) -> bool {
    match point_from(points, range.from) {
        Some(point) if point.is_call => point.place.saturating_add(1) < range.to,
        Some(point) => point.place < range.to,
        None => false,
    }
}

/// Marks the derived temporaries that a call passes on.
fn mark_passed(p: &Proc, op: MidOp, flags: &mut Vec<bool>) {
    for actual in actuals_of(op) {
        if let Actual::Reference { address, base: _ } = actual
            && kind_of(p, *address) == Kind::Address
        {
            let _is_new = set_flag(flags, *address);
        }
    }
}

fn add_points(
    p: &Proc,
    ops: &[MidOp],
    front: u32,
    points: &mut Vec<PointAt>,
    flags: &mut Vec<bool>,
) -> Result<(), NoMemory> {
    let mut place = front;
    for op in ops {
        if is_point(*op) {
            points.push(PointAt {
                place,
                is_call: is_call(*op),
            })?;
            mark_passed(p, *op, flags);
        }
        place = place.saturating_add(1);
    }
    Ok(())
}

/// The derived temporary from which a term of a setting comes.
fn from_temp(p: &Proc, setting: Setting, at: usize) -> Option<u32> {
    match setting.source {
        Source::Terms(terms) => match terms.get(at).copied() {
            Some(Some(term)) => match term.base {
                Base::Temp(temp) if kind_of(p, temp) == Kind::Address => Some(temp),
                _ => None,
            },
            _ => None,
        },
        Source::Own => None,
    }
}

/// The derived temporaries from which a setting's one comes.
pub(crate) fn from_temps(p: &Proc, setting: Setting) -> [Option<u32>; 2] {
    [from_temp(p, setting, 0), from_temp(p, setting, 1)]
}

/// Marks also that from which a marked one comes; whether something was new.
fn mark_sources(p: &Proc, settings: &[Setting], flags: &mut Vec<bool>) -> bool {
    let mut has_changed = false;
    for setting in settings.iter().rev() {
        if has_flag(flags, setting.temp) {
            for from in from_temps(p, *setting) {
                if let Some(temp) = from
                    && set_flag(flags, temp)
                {
                    has_changed = true;
                }
            }
        }
    }
    has_changed
}

/// The derived temporaries that rows name, and those from which they come.
pub(crate) fn relevant_temps(
    alloc: Global,
    p: &Proc,
    order: &Order,
    live: &LiveSets,
    settings: &[Setting],
) -> Result<Vec<bool>, NoMemory> {
    let mut flags = vec![in alloc; false; p.temps.len()]?;
    let mut points = Vec::new(alloc);
    for block in order.blocks.iter().take(order.reached) {
        let front = live.place(*block, 0);
        add_points(p, ops_of(p, *block), front, &mut points, &mut flags)?;
    }
    for at in 0..p.temps.len() {
        let temp = place_number(at)?;
        if kind_of(p, temp) == Kind::Address {
            for range in live.ranges_of(temp) {
                if meets_point(&points, *range) {
                    let _is_new = set_flag(&mut flags, temp);
                }
            }
        }
    }
    for _pass in 0..u64::MAX {
        if !mark_sources(p, settings, &mut flags) {
            return Ok(flags);
        }
    }
    Err(gap())
}
