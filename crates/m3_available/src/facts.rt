//! What is known at a place in a block.
use m3_base::NoMemory;
use m3_flow::Pair as Link;
use m3_same_forms::{Form, Query, Symbol, copied, same_symbol, same_tag};
use std::alloc::Global;

/// How many answers, and how many temporaries that hold sums, are known at most where a block
/// begins.
pub const MANY_ANSWERS: u32 = 24;

pub(crate) const MANY_HELD: u32 = 8;
/// A number for each of them.
pub const MANY_FACTS: u32 = 32;

/// A question with its answer, by what the temporaries of the left procedure held where the block
/// began (m3_same_run).
#[derive(Drop)]
pub struct Answer {
    pub query: Query,
    pub value: Form,
    /// The fact at the block's entry that it was.
    pub from: Option<u32>,
    /// Whether no call was passed since.
    pub is_near: bool,
    /// Whether it is worth to be told to the next block.
    pub is_told: bool,
}

/// A sum that a temporary holds.
#[derive(Drop)]
pub struct Held {
    pub temp: u32,
    pub value: Form,
    pub from: Option<u32>,
    pub is_near: bool,
}

/// What is known where a block begins. A fact keeps its place, which is empty where it isn't known
/// any more.
#[derive(Drop)]
pub struct Facts {
    pub answers: Vec<Option<Answer>>,
    pub held: Vec<Option<Held>>,
}

/// A way from the end of a block to the block that follows.
#[derive(Clone, Copy)]
pub struct Way {
    pub from: u32,
    pub to: u32,
}

/// The number of a fact at the entry of a block among all.
pub fn fact_number(block: u32, fact: u32) -> u32 {
    block.saturating_mul(MANY_FACTS).saturating_add(fact)
}

fn times_in(form: &Form, symbol: Symbol) -> u64 {
    for term in &form.terms {
        if same_symbol(term.symbol, symbol) {
            return term.times;
        }
    }
    0
}

/// Whether two forms have the same terms.
pub(crate) fn same_terms(left: &Form, right: &Form) -> bool {
    if left.terms.len() != right.terms.len() {
        return false;
    }
    for term in &left.terms {
        if times_in(right, term.symbol) != term.times {
            return false;
        }
    }
    true
}

/// Whether two questions are one.
pub(crate) fn same_question(left: &Query, right: &Query) -> bool {
    same_tag(left.tag, right.tag)
        && same_terms(&left.first, &right.first)
        && same_terms(&left.second, &right.second)
        && same_terms(&left.third, &right.third)
}

/// The symbol that a form is, where it is one.
pub(crate) fn only_symbol(form: &Form) -> Option<Symbol> {
    match form.terms.as_slice() {
        [term] if term.times == 1 => Some(term.symbol),
        _ => None,
    }
}

/// Whether a form is the number 1.
pub(crate) fn is_one(form: &Form) -> bool {
    matches!(only_symbol(form), Some(Symbol::One))
}

impl Answer {
    /// The same, as a fact with this number where a block begins.
    pub(crate) fn as_fact(&self, alloc: Global, number: u32) -> Result<Answer, NoMemory> {
        Ok(Answer {
            query: copied(alloc, &self.query)?,
            value: self.value.copy(alloc)?,
            from: Some(number),
            is_near: self.is_near,
            is_told: true,
        })
    }
}

impl Held {
    /// The same, as a fact where a block begins.
    pub(crate) fn as_fact(&self, alloc: Global, number: u32) -> Result<Held, NoMemory> {
        Ok(Held {
            temp: self.temp,
            value: self.value.copy(alloc)?,
            from: Some(number),
            is_near: self.is_near,
        })
    }
}

/// From which facts at the entries of blocks those of the next ones come.
#[derive(Drop)]
pub(crate) struct Sources {
    pub(crate) links: Vec<Link>,
}

impl Sources {
    /// A fact at the entry of a block comes from one at that of the block before.
    fn add(&mut self, way: Way, number: u32, from: Option<u32>) -> Result<(), NoMemory> {
        if let Some(from) = from {
            self.links.push(Link {
                group: fact_number(way.to, number),
                item: fact_number(way.from, from),
            })?;
        }
        Ok(())
    }
}

impl Facts {
    /// Nothing is known.
    pub fn none(alloc: Global) -> Facts {
        Facts {
            answers: Vec::new(alloc),
            held: Vec::new(alloc),
        }
    }

    /// Whether nothing is known.
    pub(crate) fn is_none(&self) -> bool {
        self.answers.iter().all(|answer| answer.is_none())
            && self.held.iter().all(|held| held.is_none())
    }

    /// The answer to the same question, where it is the same.
    fn same_answer(&self, answer: &Answer) -> Option<&Answer> {
        for other in &self.answers {
            if let Some(other) = other
                && same_question(&other.query, &answer.query)
            {
                return if same_terms(&other.value, &answer.value) {
                    Some(other)
                } else {
                    None
                };
            }
        }
        None
    }

    /// What the same temporary holds, where it is the same.
    fn same_held(&self, held: &Held) -> Option<&Held> {
        for other in &self.held {
            if let Some(other) = other
                && other.temp == held.temp
                && same_terms(&other.value, &held.value)
            {
                return Some(other);
            }
        }
        None
    }

    /// Whether a temporary holds a form.
    pub(crate) fn holds(&self, value: &Form) -> bool {
        self.held.iter().any(|held| matches!(held, Some(held) if same_terms(&held.value, value)))
    }

    /// Notes where facts come from that a first way to their block brings.
    pub(crate) fn note_sources(&self, way: Way, sources: &mut Sources) -> Result<(), NoMemory> {
        let mut number = 0u32;
        for answer in &self.answers {
            if let Some(answer) = answer {
                sources.add(way, number, answer.from)?;
            }
            number = number.saturating_add(1);
        }
        let mut number = MANY_ANSWERS;
        for held in &self.held {
            if let Some(held) = held {
                sources.add(way, number, held.from)?;
            }
            number = number.saturating_add(1);
        }
        Ok(())
    }

    /// Keeps what another way to the same block says too, and notes where it comes from. Gives
    /// whether anything went.
    pub(crate) fn meet(
        &mut self,
        others: &Facts,
        way: Way,
        sources: &mut Sources,
    ) -> Result<bool, NoMemory> {
        let mut changed = false;
        let mut number = 0u32;
        for place in self.answers.iter_mut() {
            if let Some(mut answer) = place.take() {
                match others.same_answer(&answer) {
                    Some(other) => {
                        sources.add(way, number, other.from)?;
                        changed = changed || (answer.is_near && !other.is_near);
                        answer.is_near = answer.is_near && other.is_near;
                        *place = Some(answer);
                    }
                    None => changed = true,
                }
            }
            number = number.saturating_add(1);
        }
        let mut number = MANY_ANSWERS;
        for place in self.held.iter_mut() {
            if let Some(mut held) = place.take() {
                match others.same_held(&held) {
                    Some(other) => {
                        sources.add(way, number, other.from)?;
                        changed = changed || (held.is_near && !other.is_near);
                        held.is_near = held.is_near && other.is_near;
                        *place = Some(held);
                    }
                    None => changed = true,
                }
            }
            number = number.saturating_add(1);
        }
        Ok(changed)
    }
}
