use crate::analysis::Analysis;
use crate::plans::{Base, kind_of};
use crate::relevance::{from_temps, has_flag};
use crate::shapes::{Said, Shape, Shapes, moves_on, same_terms, set_item};
use crate::sources::{Setting, Source, Term};
use bumpalo::Bump;
use bumpalo::collections::into_bump_slice;
use m3_base::{NoMemory, gap, place_number};
use m3_mid::{Kind, Proc};
use std::alloc::Global;

/// A list of bases of a derived temporary, and the temporaries that keep them.
#[derive(Clone, Copy)]
pub(crate) struct KeptWay<'a> {
    pub(crate) bases: &'a [Term],
    pub(crate) copies: &'a [Term],
}

/// How the bases of a derived temporary are kept.
#[derive(Clone, Copy)]
pub(crate) enum Keep<'a> {
    No,
    /// In these temporaries, wherever it was set; those that aren't needed are 0.
    Shared(&'a [Term]),
    /// By ways, whose number is in a temporary. The copies of the other ways are 0.
    Ways { path: u32, ways: &'a [KeptWay<'a>] },
}

/// The temporaries that are added, while it is found out what each derived temporary keeps.
#[derive(Drop)]
pub(crate) struct Keeper<'a> {
    pub(crate) keeps: Vec<Keep<'a>>,
    pub(crate) kinds: Vec<Kind, &'a Bump>,
    /// How many bases are added and taken away at most, of those that share.
    counts: Vec<(u32, u32)>,
    arena: &'a Bump,
}

/// Whether a temporary comes, at a setting, from bases that stay: from none whose bases are kept.
fn is_direct(p: &Proc, setting: Setting, kept: &[bool]) -> bool {
    if moves_on(setting) {
        return true;
    }
    match setting.source {
        Source::Own => false,
        Source::Terms(_) => {
            for from in from_temps(p, setting) {
                if let Some(temp) = from
                    && has_flag(kept, temp)
                {
                    return false;
                }
            }
            true
        }
    }
}

impl<'a> Keeper<'a> {
    pub(crate) fn keep(&self, temp: u32) -> Keep<'a> {
        self.keeps.get(temp as usize).copied().unwrap_or(Keep::No)
    }

    fn add_temp(&mut self, kind: Kind) -> Result<u32, NoMemory> {
        let number = place_number(self.kinds.len())?;
        self.kinds.push(kind)?;
        Ok(number)
    }

    /// A new copy for each of these bases.
    fn copies_of(&mut self, bases: &[Term]) -> Result<&'a [Term], NoMemory> {
        let mut copies = Vec::new(self.arena);
        for term in bases {
            let temp = self.add_temp(Kind::Tidy)?;
            copies.push(Term {
                base: Base::Temp(temp),
                is_taken: term.is_taken,
            })?;
        }
        Ok(into_bump_slice(copies))
    }

    /// The ways of a temporary whose settings are all direct: one for each list of bases.
    fn add_way(&mut self, temp: u32, bases: &[Term]) -> Result<(), NoMemory> {
        let (path, ways) = match self.keep(temp) {
            Keep::Ways { path, ways } => (path, ways),
            _ => {
                let none: &'a [KeptWay<'a>] = &[];
                (self.add_temp(Kind::Number)?, none)
            }
        };
        if way_of(ways, bases).is_some() {
            return Ok(());
        }
        if ways.len() > 65_534 {
            return Err(gap());
        }
        let mut all = Vec::new(self.arena);
        all.extend_from_slice(ways)?;
        let own = self.arena.try_alloc_slice_copy(bases)?;
        all.push(KeptWay {
            bases: own,
            copies: self.copies_of(bases)?,
        })?;
        set_item(
            &mut self.keeps,
            temp,
            Keep::Ways {
                path,
                ways: into_bump_slice(all),
            },
        );
        Ok(())
    }

    fn count(&self, temp: u32) -> (u32, u32) {
        self.counts.get(temp as usize).copied().unwrap_or((0, 0))
    }

    /// The numbers of bases that are added and taken away of what a setting comes from.
    fn count_term(&self, p: &Proc, shapes: &Shapes<'a>, kept: &[bool], term: Term) -> (u32, u32) {
        let (added, taken) = match term.base {
            Base::Temp(temp) if kind_of(p, temp) == Kind::Address => {
                if has_flag(kept, temp) {
                    self.count(temp)
                } else {
                    match shapes.shape(temp) {
                        Shape::Bases(terms) => count_of(terms),
                        _ => (0, 0),
                    }
                }
            }
            _ => (1, 0),
        };
        if term.is_taken {
            (taken, added)
        } else {
            (added, taken)
        }
    }

    /// The same of a setting.
    fn count_setting(
        &self,
        p: &Proc,
        shapes: &Shapes<'a>,
        kept: &[bool],
        setting: Setting,
    ) -> (u32, u32) {
        let mut added = 0u32;
        let mut taken = 0u32;
        match setting.source {
            Source::Own => added = 1,
            Source::Terms(terms) => {
                for item in terms {
                    if let Some(term) = item {
                        let (more, less) = self.count_term(p, shapes, kept, term);
                        added = added.saturating_add(more);
                        taken = taken.saturating_add(less);
                    }
                }
            }
        }
        (added, taken)
    }

    fn widen(&mut self, temp: u32, most: (u32, u32)) -> bool {
        let (added, taken) = self.count(temp);
        let next = (added.max(most.0), taken.max(most.1));
        if next == (added, taken) {
            return false;
        }
        set_item(&mut self.counts, temp, next);
        true
    }

    /// One pass over the settings of the temporaries that keep their bases.
    fn count_pass(
        &mut self,
        analysis: &Analysis,
        shapes: &Shapes<'a>,
        kept: &[bool],
    ) -> Result<bool, NoMemory> {
        let mut has_changed = false;
        for setting in &analysis.settings {
            if has_flag(kept, setting.temp) && !moves_on(*setting) {
                let most = self.count_setting(&analysis.proc, shapes, kept, *setting);
                if most.0 > 255 || most.1 > 255 {
                    return Err(gap());
                }
                if self.widen(setting.temp, most) {
                    has_changed = true;
                }
            }
        }
        Ok(has_changed)
    }

    fn share(&mut self, temp: u32) -> Result<(), NoMemory> {
        let (added, taken) = self.count(temp);
        let mut copies = Vec::new(self.arena);
        for at in 0..added.saturating_add(taken) {
            let copy = self.add_temp(Kind::Tidy)?;
            copies.push(Term {
                base: Base::Temp(copy),
                is_taken: added <= at,
            })?;
        }
        set_item(&mut self.keeps, temp, Keep::Shared(into_bump_slice(copies)));
        Ok(())
    }

    /// All copies of a temporary that keeps its bases.
    pub(crate) fn add_copies(&self, temp: u32, list: &mut Vec<Term>) -> Result<(), NoMemory> {
        match self.keep(temp) {
            Keep::No => Ok(()),
            Keep::Shared(copies) => {
                list.extend_from_slice(copies)?;
                Ok(())
            }
            Keep::Ways { path: _, ways } => {
                for way in ways {
                    list.extend_from_slice(way.copies)?;
                }
                Ok(())
            }
        }
    }
}

/// The number of the way with these bases.
pub(crate) fn way_of(ways: &[KeptWay], bases: &[Term]) -> Option<usize> {
    for (at, way) in ways.iter().enumerate() {
        if same_terms(way.bases, bases) {
            return Some(at);
        }
    }
    None
}

fn count_of(terms: &[Term]) -> (u32, u32) {
    let mut added = 0u32;
    let mut taken = 0u32;
    for term in terms {
        if term.is_taken {
            taken = taken.saturating_add(1);
        } else {
            added = added.saturating_add(1);
        }
    }
    (added, taken)
}

/// Of the temporaries that keep their bases, those that do so by ways: they have several lists, and
/// each of their settings is direct.
fn by_ways(
    alloc: Global,
    analysis: &Analysis,
    shapes: &Shapes,
    kept: &[bool],
) -> Result<Vec<bool>, NoMemory> {
    let mut flags = vec![in alloc; false; kept.len()]?;
    for (at, is_kept) in kept.iter().enumerate() {
        let temp = place_number(at)?;
        if *is_kept && matches!(shapes.shape(temp), Shape::Many) {
            set_item(&mut flags, temp, true);
        }
    }
    for setting in &analysis.settings {
        if !is_direct(&analysis.proc, *setting, kept) {
            set_item(&mut flags, setting.temp, false);
        }
    }
    Ok(flags)
}

/// How each derived temporary that has to keep its bases keeps them.
pub(crate) fn keep_all<'a>(
    alloc: Global,
    arena: &'a Bump,
    analysis: &Analysis,
    shapes: &mut Shapes<'a>,
    kept: &[bool],
) -> Result<Keeper<'a>, NoMemory> {
    let p = &analysis.proc;
    let mut kinds = Vec::new(arena);
    kinds.extend_from_slice(p.temps)?;
    let mut keeper = Keeper {
        keeps: vec![in alloc; Keep::No; p.temps.len()]?,
        kinds,
        counts: vec![in alloc; (0u32, 0u32); p.temps.len()]?,
        arena,
    };
    let ways = by_ways(alloc, analysis, shapes, kept)?;
    for setting in &analysis.settings {
        if has_flag(&ways, setting.temp) && shapes.say(p, *setting)? == Said::Listed {
            keeper.add_way(setting.temp, &shapes.buffer)?;
        }
    }
    keep_shared(analysis, shapes, kept, &ways, &mut keeper)?;
    Ok(keeper)
}

/// The temporaries that share their copies over all their settings.
fn keep_shared<'a>(
    analysis: &Analysis,
    shapes: &Shapes<'a>,
    kept: &[bool],
    ways: &[bool],
    keeper: &mut Keeper<'a>,
) -> Result<(), NoMemory> {
    count_ways(kept, keeper)?;
    for _pass in 0..u64::MAX {
        if !keeper.count_pass(analysis, shapes, kept)? {
            for (at, is_kept) in kept.iter().enumerate() {
                let temp = place_number(at)?;
                if *is_kept && !has_flag(ways, temp) {
                    keeper.share(temp)?;
                }
            }
            return Ok(());
        }
    }
    Err(gap())
}

/// A temporary with ways counts the copies of all of them.
fn count_ways(kept: &[bool], keeper: &mut Keeper) -> Result<(), NoMemory> {
    for (at, is_kept) in kept.iter().enumerate() {
        let temp = place_number(at)?;
        if *is_kept && let Keep::Ways { path: _, ways } = keeper.keep(temp) {
            let mut most = (0u32, 0u32);
            for way in ways {
                let (added, taken) = count_of(way.copies);
                most = (most.0.saturating_add(added), most.1.saturating_add(taken));
            }
            let _is_new = keeper.widen(temp, most);
        }
    }
    Ok(())
}
