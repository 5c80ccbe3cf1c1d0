//! The proof that the procedure that was written has the same run.
use crate::rewriting::Draft;
use m3_available::{Facts, Flow, MANY_ANSWERS, MANY_FACTS, fact_number};
use m3_base::{NoMemory, place_number};
use m3_flow::{Groups, end_of, exits_of};
use m3_mid::Proc;
use m3_same_forms::{Known, Pair, Setting, copied};
use std::alloc::Global;

/// Which facts at the entries of blocks the proof needs.
#[derive(Drop)]
pub(crate) struct Needed {
    is_needed: Vec<bool>,
    open: Vec<u32>,
}

impl Needed {
    fn need(&mut self, fact: u32) -> Result<(), NoMemory> {
        if let Some(is_needed) = self.is_needed.get_mut(fact as usize)
            && !*is_needed
        {
            *is_needed = true;
            self.open.push(fact)?;
        }
        Ok(())
    }

    fn is(&self, fact: u32) -> bool {
        self.is_needed.get(fact as usize).copied() == Some(true)
    }

    /// The facts that are used, and those from which they come.
    pub(crate) fn of(alloc: Global, drafts: &[Draft<'_>], flow: &Flow) -> Result<Needed, NoMemory> {
        let count = drafts.len().saturating_mul(MANY_FACTS as usize);
        let from = Groups::of(alloc, count, flow.links())?;
        let mut needed = Needed {
            is_needed: vec![in alloc; false; count]?,
            open: Vec::new(alloc),
        };
        for (block, draft) in drafts.iter().enumerate() {
            let block = place_number(block)?;
            for fact in &draft.used {
                needed.need(fact_number(block, *fact))?;
            }
        }
        // Each fact is open once.
        for _step in 0..count {
            if let Some(fact) = needed.open.pop() {
                for before in from.row(fact) {
                    needed.need(*before)?;
                }
            }
        }
        Ok(needed)
    }

    /// What temporaries hold at the entry of a block, as far as the proof needs it.
    fn settings(
        &self,
        alloc: Global,
        block: u32,
        facts: &Facts,
        common: Option<&[bool]>,
    ) -> Result<Vec<Setting>, NoMemory> {
        let mut settings = Vec::new(alloc);
        let mut number = MANY_ANSWERS;
        for held in &facts.held {
            if let Some(held) = held
                && self.is(fact_number(block, number))
                && is_common(common, held.temp)
            {
                settings.push(Setting {
                    temp: held.temp,
                    value: held.value.copy(alloc)?,
                })?;
            }
            number = number.saturating_add(1);
        }
        Ok(settings)
    }

    fn knowns(&self, alloc: Global, block: u32, facts: &Facts) -> Result<Vec<Known>, NoMemory> {
        let mut knowns = Vec::new(alloc);
        let mut number = 0u32;
        for answer in &facts.answers {
            if let Some(answer) = answer
                && self.is(fact_number(block, number))
            {
                knowns.push(Known {
                    query: copied(alloc, &answer.query)?,
                    value: answer.value.copy(alloc)?,
                })?;
            }
            number = number.saturating_add(1);
        }
        Ok(knowns)
    }

    fn pair(
        &self,
        alloc: Global,
        block: u32,
        facts: &Facts,
        common: &[bool],
    ) -> Result<Pair, NoMemory> {
        Ok(Pair {
            left: block,
            right: block,
            left_settings: self.settings(alloc, block, facts, None)?,
            settings: self.settings(alloc, block, facts, Some(common))?,
            knowns: self.knowns(alloc, block, facts)?,
        })
    }

    /// At the number of each block its pair. A block that no way reaches has one of its own where
    /// nothing follows it, and else that of a short block that is reached.
    pub(crate) fn pairs(
        &self,
        alloc: Global,
        p: &Proc<'_>,
        flow: &Flow,
        common: &[bool],
    ) -> Result<Vec<Pair>, NoMemory> {
        let spare = shortest(p, flow)?;
        let none = Facts::none(alloc);
        let mut pairs = Vec::new(alloc);
        for number in 0..p.blocks.len() {
            let number = place_number(number)?;
            let block = if flow.entry(number).is_some() || is_last(p, number) {
                number
            } else {
                spare
            };
            let facts = flow.entry(block).unwrap_or(&none);
            pairs.push(self.pair(alloc, block, facts, common)?)?;
        }
        Ok(pairs)
    }
}

fn is_common(common: Option<&[bool]>, temp: u32) -> bool {
    match common {
        Some(common) => common.get(temp as usize).copied() == Some(true),
        None => true,
    }
}

/// Whether no block follows one.
fn is_last(p: &Proc<'_>, block: u32) -> bool {
    exits_of(end_of(p, block)).iter().all(|exit| exit.is_none())
}

/// A block with as few operations as any that is reached.
fn shortest(p: &Proc<'_>, flow: &Flow) -> Result<u32, NoMemory> {
    let mut shortest = p.start;
    let mut length = usize::MAX;
    for (number, block) in p.blocks.iter().enumerate() {
        let number = place_number(number)?;
        if block.ops.len() < length && flow.entry(number).is_some() {
            shortest = number;
            length = block.ops.len();
        }
    }
    Ok(shortest)
}
