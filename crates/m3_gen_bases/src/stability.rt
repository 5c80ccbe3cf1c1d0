use crate::analysis::Analysis;
use crate::plans::{Base, kind_of};
use crate::relevance::{from_temps, has_flag, set_flag};
use crate::shapes::{Shape, Shapes};
use crate::sources::Term;
use m3_base::{NoMemory, gap, place_number};
use m3_flow::{Groups, LiveRange, LiveSets, Pair, ops_of, settings_of};
use m3_mid::{Kind, MidOp, Proc};
use std::alloc::Global;

fn add_places(p: &Proc, ops: &[MidOp], front: u32, pairs: &mut Vec<Pair>) -> Result<(), NoMemory> {
    let mut place = front;
    for op in ops {
        place = place.saturating_add(1);
        for set in settings_of(*op) {
            if let Some(temp) = set
                && kind_of(p, temp) == Kind::Tidy
            {
                pairs.push(Pair {
                    group: temp,
                    item: place,
                })?;
            }
        }
    }
    Ok(())
}

/// For each tidy temporary the places right behind its settings, rising.
fn places_of_settings(alloc: Global, analysis: &Analysis) -> Result<Groups, NoMemory> {
    let p = &analysis.proc;
    let order = &analysis.order;
    let mut pairs = Vec::new(alloc);
    for block in order.blocks.iter().take(order.reached) {
        let front = analysis.live.place(*block, 0);
        add_places(p, ops_of(p, *block), front, &mut pairs)?;
    }
    Groups::of(alloc, p.temps.len(), &pairs)
}

/// Whether one of the places, which rise, lies in a stretch.
fn meets(places: &[u32], range: LiveRange) -> bool {
    let mut low = 0;
    let mut high = places.len();
    for _halving in 0..64 {
        if low < high {
            let middle = low + (high - low) / 2;
            match places.get(middle) {
                Some(place) if *place < range.from => low = middle + 1,
                _ => high = middle,
            }
        }
    }
    match places.get(low) {
        Some(place) => *place < range.to,
        None => false,
    }
}

/// Whether a base may be set while the temporary that is derived from it is live.
fn may_change(term: Term, temp: u32, live: &LiveSets, places: &Groups) -> bool {
    if let Base::Temp(base) = term.base {
        for range in live.ranges_of(temp) {
            if meets(places.row(base), *range) {
                return true;
            }
        }
    }
    false
}

fn any_may_change(terms: &[Term], temp: u32, live: &LiveSets, places: &Groups) -> bool {
    for term in terms {
        if may_change(*term, temp, live, places) {
            return true;
        }
    }
    false
}

/// Marks what comes from a marked temporary; whether something was new.
fn mark_derived(analysis: &Analysis, kept: &mut Vec<bool>) -> bool {
    let mut has_changed = false;
    for setting in &analysis.settings {
        if analysis.is_relevant(setting.temp) {
            for from in from_temps(&analysis.proc, *setting) {
                if let Some(temp) = from
                    && has_flag(kept, temp)
                    && set_flag(kept, setting.temp)
                {
                    has_changed = true;
                }
            }
        }
    }
    has_changed
}

/// The derived temporaries whose bases have to be kept in temporaries of their own: those with
/// several lists of bases, those a base of which may change, and what comes from them.
pub(crate) fn kept_temps(
    alloc: Global,
    analysis: &Analysis,
    shapes: &Shapes,
) -> Result<Vec<bool>, NoMemory> {
    let places = places_of_settings(alloc, analysis)?;
    let mut kept = vec![in alloc; false; analysis.proc.temps.len()]?;
    for (at, is_relevant) in analysis.relevant.iter().enumerate() {
        if *is_relevant {
            let temp = place_number(at)?;
            let is_kept = match shapes.shape(temp) {
                Shape::Unknown => false,
                Shape::Many => true,
                Shape::Bases(terms) => any_may_change(terms, temp, &analysis.live, &places),
            };
            if is_kept {
                let _is_new = set_flag(&mut kept, temp);
            }
        }
    }
    for _pass in 0..u64::MAX {
        if !mark_derived(analysis, &mut kept) {
            return Ok(kept);
        }
    }
    Err(gap())
}
