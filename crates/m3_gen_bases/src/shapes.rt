use crate::analysis::Analysis;
use crate::plans::{Base, kind_of};
use crate::sources::{Setting, Source, Term};
use bumpalo::Bump;
use m3_base::{NoMemory, gap};
use m3_mid::{Kind, Proc};
use std::alloc::Global;

/// From what a derived temporary comes, over all its settings.
#[derive(Clone, Copy)]
pub(crate) enum Shape<'a> {
    /// It isn't set.
    Unknown,
    /// From these bases, wherever it is set.
    Bases(&'a [Term]),
    /// From several lists of bases, or from a tidy pointer that no temporary keeps.
    Many,
}

pub(crate) fn set_item<T: Copy>(list: &mut Vec<T>, at: u32, value: T) {
    if let Some(item) = list.get_mut(at as usize) {
        *item = value;
    }
}

/// Where a term stands among the terms of a list: first its temporary or slot, then added before
/// taken away.
fn rank_of(term: Term) -> (bool, u32, bool) {
    match term.base {
        Base::Temp(temp) => (false, temp, term.is_taken),
        Base::Slot(slot) => (true, slot, term.is_taken),
    }
}

/// Adds a term where it belongs; one that is added and one that is taken away cancel out.
pub(crate) fn add_term(list: &mut Vec<Term>, term: Term) -> Result<(), NoMemory> {
    let opposite = Term {
        base: term.base,
        is_taken: !term.is_taken,
    };
    for at in 0..list.len() {
        if list.get(at).copied() == Some(opposite) && at < list.len() {
            let _gone = list.remove(at);
            return Ok(());
        }
    }
    let mut place = 0usize;
    for other in list.iter() {
        if rank_of(*other) <= rank_of(term) {
            place = place.saturating_add(1);
        }
    }
    if list.len() > 255 {
        return Err(gap());
    }
    if place <= list.len() {
        list.insert(place, term)?;
    }
    Ok(())
}

/// Whether two lists have the same terms in the same order.
pub(crate) fn same_terms(left: &[Term], right: &[Term]) -> bool {
    if left.len() != right.len() {
        return false;
    }
    for (at, term) in left.iter().enumerate() {
        if right.get(at) != Some(term) {
            return false;
        }
    }
    true
}

/// What one setting says.
#[derive(Clone, Copy, PartialEq, Eq)]
pub(crate) enum Said {
    /// Nothing, or nothing yet.
    Nothing,
    /// The list of bases that is in the buffer.
    Listed,
    Many,
}

/// The shapes of the derived temporaries, while they are found.
#[derive(Drop)]
pub(crate) struct Shapes<'a> {
    pub(crate) shapes: Vec<Shape<'a>>,
    pub(crate) buffer: Vec<Term>,
    arena: &'a Bump,
}

impl<'a> Shapes<'a> {
    pub(crate) fn shape(&self, temp: u32) -> Shape<'a> {
        self.shapes
            .get(temp as usize)
            .copied()
            .unwrap_or(Shape::Unknown)
    }

    /// Adds the bases of a derived temporary.
    fn add_shape(&mut self, temp: u32, is_taken: bool) -> Result<Said, NoMemory> {
        match self.shape(temp) {
            Shape::Unknown => Ok(Said::Nothing),
            Shape::Many => Ok(Said::Many),
            Shape::Bases(terms) => {
                for term in terms {
                    add_term(
                        &mut self.buffer,
                        Term {
                            base: term.base,
                            is_taken: term.is_taken != is_taken,
                        },
                    )?;
                }
                Ok(Said::Listed)
            }
        }
    }

    fn add_source(&mut self, p: &Proc, term: Term) -> Result<Said, NoMemory> {
        match term.base {
            Base::Temp(temp) if kind_of(p, temp) == Kind::Address => {
                self.add_shape(temp, term.is_taken)
            }
            _ => {
                add_term(&mut self.buffer, term)?;
                Ok(Said::Listed)
            }
        }
    }

    /// The bases that a setting gives, in the buffer. One that only moves its temporary on says
    /// nothing.
    pub(crate) fn say(&mut self, p: &Proc, setting: Setting) -> Result<Said, NoMemory> {
        self.buffer.clear();
        let Source::Terms(terms) = setting.source else {
            return Ok(Said::Many);
        };
        if moves_on(setting) {
            return Ok(Said::Nothing);
        }
        for item in terms {
            if let Some(term) = item {
                let said = self.add_source(p, term)?;
                if said != Said::Listed {
                    return Ok(said);
                }
            }
        }
        Ok(Said::Listed)
    }

    /// Joins what the buffer says to what is known of a temporary; whether that is new.
    fn join(&mut self, temp: u32, said: Said) -> Result<bool, NoMemory> {
        let known = self.shape(temp);
        let next = match (known, said) {
            (_, Said::Nothing) => return Ok(false),
            (Shape::Many, _) => return Ok(false),
            (Shape::Bases(terms), Said::Listed) if same_terms(terms, &self.buffer) => {
                return Ok(false);
            }
            (Shape::Unknown, Said::Listed) => {
                Shape::Bases(self.arena.try_alloc_slice_copy(&self.buffer)?)
            }
            _ => Shape::Many,
        };
        set_item(&mut self.shapes, temp, next);
        Ok(true)
    }

    /// Joins what the settings say; whether something was new.
    fn pass(&mut self, analysis: &Analysis) -> Result<bool, NoMemory> {
        let mut has_changed = false;
        for setting in &analysis.settings {
            if analysis.is_relevant(setting.temp) {
                let said = self.say(&analysis.proc, *setting)?;
                if self.join(setting.temp, said)? {
                    has_changed = true;
                }
            }
        }
        Ok(has_changed)
    }

    /// What is live at the start is 0 there, which has no bases.
    fn join_start(&mut self, analysis: &Analysis) -> Result<(), NoMemory> {
        let start = analysis.live.place(analysis.proc.start, 0);
        self.buffer.clear();
        for (at, is_relevant) in analysis.relevant.iter().enumerate() {
            let temp = m3_base::place_number(at)?;
            if *is_relevant && analysis.live.is_live(start, temp) {
                let _is_new = self.join(temp, Said::Listed)?;
            }
        }
        Ok(())
    }
}

fn is_own(term: Option<Term>, temp: u32) -> bool {
    match term {
        Some(term) => match term.base {
            Base::Temp(own) => own == temp && !term.is_taken,
            Base::Slot(_) => false,
        },
        None => false,
    }
}

fn is_nothing(term: Option<Term>) -> bool {
    match term {
        Some(_) => false,
        None => true,
    }
}

fn adds_number(first: Option<Term>, second: Option<Term>, temp: u32) -> bool {
    (is_own(first, temp) && is_nothing(second)) || (is_nothing(first) && is_own(second, temp))
}

/// Whether a setting adds a number to its own temporary.
pub(crate) fn moves_on(setting: Setting) -> bool {
    match setting.source {
        Source::Terms(terms) => adds_number(terms[0], terms[1], setting.temp),
        Source::Own => false,
    }
}

/// The shapes of the derived temporaries that rows need.
pub(crate) fn shapes_of<'a>(
    alloc: Global,
    arena: &'a Bump,
    analysis: &Analysis,
) -> Result<Shapes<'a>, NoMemory> {
    let mut shapes = Shapes {
        shapes: vec![in alloc; Shape::Unknown; analysis.proc.temps.len()]?,
        buffer: Vec::new(alloc),
        arena,
    };
    shapes.join_start(analysis)?;
    for _pass in 0..u64::MAX {
        if !shapes.pass(analysis)? {
            return Ok(shapes);
        }
    }
    Err(gap())
}
