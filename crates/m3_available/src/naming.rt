//! What is known at the end of a block, in the words of the block that follows.
use crate::facts::{Answer, Facts, Held, MANY_ANSWERS, MANY_HELD, only_symbol, same_question};
use crate::walk::Walk;
use m3_base::NoMemory;
use m3_flow::LiveSets;
use m3_same_forms::{Form, Query, Symbol, Term, same_symbol};
use std::alloc::Global;

/// How far is looked back for what is known.
const WINDOW: usize = 64;

/// A temporary that holds a symbol when a block ends.
#[derive(Clone, Copy)]
struct Name {
    symbol: Symbol,
    temp: u32,
}

/// The end of a block and the one that follows.
#[derive(Drop)]
pub(crate) struct Edge<'l> {
    alloc: Global,
    names: Vec<Name>,
    live: &'l LiveSets,
    to: u32,
}

/// Which temporaries may name a word.
#[derive(Clone, Copy, PartialEq, Eq)]
enum Naming {
    Live,
    Any,
}

fn names_of(walk: &Walk<'_>) -> Result<Vec<Name>, NoMemory> {
    let mut names = Vec::new(walk.alloc);
    for (place, held) in walk.places.held.iter().enumerate() {
        if let Some(symbol) = only_symbol(&held.value)
            && walk.places.is_newest(place, held.temp)
        {
            names.push(Name {
                symbol,
                temp: held.temp,
            })?;
        }
    }
    Ok(names)
}

/// Whether a sum is worth to be kept from block to block: one of several words, not all of which
/// are fixed.
fn is_sum(value: &Form) -> bool {
    value.terms.len() > 1
        && value.terms.iter().any(|term| matches!(term.symbol, Symbol::Left(_) | Symbol::New(_)))
}

impl<'l> Edge<'l> {
    pub(crate) fn of(walk: &Walk<'_>, live: &'l LiveSets, to: u32) -> Result<Edge<'l>, NoMemory> {
        Ok(Edge {
            alloc: walk.alloc,
            names: names_of(walk)?,
            live,
            to,
        })
    }

    fn may(&self, temp: u32, naming: Naming) -> bool {
        naming == Naming::Any || self.live.has(self.to, 0, temp)
    }

    /// The temporary that holds a symbol, where one does.
    fn name(&self, symbol: Symbol, naming: Naming) -> Option<u32> {
        for name in &self.names {
            if same_symbol(name.symbol, symbol) && self.may(name.temp, naming) {
                return Some(name.temp);
            }
        }
        None
    }

    fn symbol(&self, walk: &Walk<'_>, symbol: Symbol, naming: Naming) -> Option<Symbol> {
        match symbol {
            Symbol::One | Symbol::Frame | Symbol::Globals | Symbol::Text(_) | Symbol::Constant(_) =>
                Some(symbol),
            Symbol::Left(temp) if !walk.places.is_set(temp) && self.may(temp, naming) => Some(
                symbol,
            ),
            Symbol::Left(_) | Symbol::New(_) => Some(Symbol::Left(self.name(symbol, naming)?)),
            Symbol::Right(_) => None,
        }
    }

    fn form(&self, walk: &Walk<'_>, form: &Form, naming: Naming) -> Result<Option<Form>, NoMemory> {
        let mut terms = Vec::new(self.alloc);
        for term in &form.terms {
            let Some(symbol) = self.symbol(walk, term.symbol, naming) else {
                return Ok(None);
            };
            terms.push(Term {
                symbol,
                times: term.times,
            })?;
        }
        Ok(Some(Form { terms }))
    }

    fn query(&self, walk: &Walk<'_>, query: &Query) -> Result<Option<Query>, NoMemory> {
        let Some(first) = self.form(walk, &query.first, Naming::Live)? else {
            return Ok(None);
        };
        let Some(second) = self.form(walk, &query.second, Naming::Live)? else {
            return Ok(None);
        };
        let Some(third) = self.form(walk, &query.third, Naming::Live)? else {
            return Ok(None);
        };
        Ok(Some(Query {
            tag: query.tag,
            first,
            second,
            third,
        }))
    }

    fn answer(&self, walk: &Walk<'_>, answer: &Answer) -> Result<Option<Answer>, NoMemory> {
        let Some(value) = self.form(walk, &answer.value, Naming::Any)? else {
            return Ok(None);
        };
        match self.query(walk, &answer.query)? {
            Some(query) => Ok(Some(Answer {
                query,
                value,
                from: answer.from,
                is_near: answer.is_near,
                is_told: true,
            })),
            None => Ok(None),
        }
    }

    fn held(&self, walk: &Walk<'_>, place: usize, held: &Held) -> Result<Option<Held>, NoMemory> {
        match self.form(walk, &held.value, Naming::Live)? {
            Some(value) => Ok(Some(Held {
                temp: held.temp,
                value,
                from: held.from,
                is_near: walk.places.is_near(place, held),
            })),
            None => Ok(None),
        }
    }

    fn add_answers(&self, walk: &Walk<'_>, facts: &mut Facts) -> Result<(), NoMemory> {
        for back in 1..WINDOW {
            let Some(place) = walk.answers.len().checked_sub(back) else {
                return Ok(());
            };
            if let Some(answer) = walk.answers.get(place)
                && answer.is_told
                && facts.answers.len() < MANY_ANSWERS as usize
                && !is_hidden(walk, place, &answer.query)
                && let Some(answer) = self.answer(walk, answer)?
            {
                facts.answers.push(Some(answer))?;
            }
        }
        Ok(())
    }

    fn add_held(&self, walk: &Walk<'_>, facts: &mut Facts) -> Result<(), NoMemory> {
        let first = walk.places.held.len().saturating_sub(WINDOW);
        for place in first..walk.places.held.len() {
            if let Some(held) = walk.places.held.get(place)
                && facts.held.len() < MANY_HELD as usize
                && is_sum(&held.value)
                && walk.places.is_held(place, held.temp)
                && let Some(held) = self.held(walk, place, held)?
                && !facts.holds(&held.value)
            {
                facts.held.push(Some(held))?;
            }
        }
        Ok(())
    }

    /// What is known where the block that follows begins.
    pub(crate) fn facts(&self, walk: &Walk<'_>) -> Result<Facts, NoMemory> {
        let mut facts = Facts::none(self.alloc);
        self.add_answers(walk, &mut facts)?;
        self.add_held(walk, &mut facts)?;
        Ok(facts)
    }
}

/// Whether a newer answer to the same question stands behind a place.
fn is_hidden(walk: &Walk<'_>, place: usize, query: &Query) -> bool {
    for newer in place.saturating_add(1)..walk.answers.len() {
        if let Some(answer) = walk.answers.get(newer)
            && same_question(&answer.query, query)
        {
            return true;
        }
    }
    false
}
