//! The addresses of a loop that may be paired.
use m3_base::NoMemory;
use m3_counting_loops::{Access, Findings, Loop};
use m3_mid::{Kind, Proc};
use m3_same_forms::{Form, Symbol, Term};
use std::alloc::Global;

/// An address of an element that is there for loads and stores alone.
#[derive(Drop)]
pub(crate) struct Place {
    pub access: Access,
    /// Whether each turn passes its block.
    pub is_passed: bool,
    /// Whether a turn may pass its block more than once.
    pub is_repeated: bool,
}

/// Adds the addresses of a block.
fn add_block(
    findings: &mut Findings<'_>,
    counted: &Loop,
    block: u32,
    places: &mut Vec<Place>,
) -> Result<(), NoMemory> {
    if block == counted.turn {
        return Ok(());
    }
    let is_passed = counted.passed.contains(&block);
    let is_repeated = counted.repeated.contains(&block);
    for access in findings.look(counted, block)? {
        if access.kind == Kind::Address
            && findings.words(&access) != 0
            && findings.is_for_words(&access)
        {
            places.push(Place {
                access,
                is_passed,
                is_repeated,
            })?;
        }
    }
    Ok(())
}

/// The addresses of a loop. Those of blocks that each turn passes stand in the order in which it
/// does.
pub(crate) fn places_of(
    alloc: Global,
    findings: &mut Findings<'_>,
    counted: &Loop,
) -> Result<Vec<Place>, NoMemory> {
    let mut places = Vec::new(alloc);
    if let Some(head) = counted.blocks.first() {
        add_block(findings, counted, *head, &mut places)?;
    }
    // Behind its head the blocks of a loop were found from the end of its turn on.
    for behind in 1..counted.blocks.len() {
        if let Some(block) = counted
            .blocks
            .get(counted.blocks.len().saturating_sub(behind))
        {
            add_block(findings, counted, *block, &mut places)?;
        }
    }
    Ok(places)
}

fn kind_of(p: &Proc<'_>, temp: u32) -> Kind {
    p.temps.get(temp as usize).copied().unwrap_or(Kind::Number)
}

/// The reference that a term adds.
pub(crate) fn reference_of(p: &Proc<'_>, term: Term) -> Option<u32> {
    match term.symbol {
        Symbol::Left(temp) if term.times == 1 && kind_of(p, temp) == Kind::Tidy => Some(temp),
        _ => None,
    }
}

/// Whether a sum is a reference, and numbers.
pub(crate) fn has_reference(p: &Proc<'_>, value: &Form) -> bool {
    let mut references = 0u32;
    for term in &value.terms {
        if reference_of(p, *term).is_some() {
            references = references.saturating_add(1);
        } else {
            match term.symbol {
                Symbol::One => {}
                Symbol::Left(temp) if kind_of(p, temp) == Kind::Number => {}
                _ => return false,
            }
        }
    }
    references == 1
}
