use crate::plans::{Base, kind_of};
use m3_base::NoMemory;
use m3_flow::{Order, ops_of, settings_of};
use m3_mid::{Kind, MemoryWord, MidOp, Operand, Proc, WordOperator};
use std::alloc::Global;

/// A base that is added, or taken away.
#[derive(Clone, Copy, PartialEq, Eq)]
pub(crate) struct Term {
    pub(crate) base: Base,
    pub(crate) is_taken: bool,
}

/// Where an address comes from: from at most two temporaries or slots, or it is a tidy pointer of
/// its own.
#[derive(Clone, Copy)]
pub(crate) enum Source {
    Terms([Option<Term>; 2]),
    Own,
}

/// A setting of a derived temporary.
#[derive(Clone, Copy)]
pub(crate) struct Setting {
    pub(crate) block: u32,
    pub(crate) op: u32,
    pub(crate) temp: u32,
    pub(crate) source: Source,
}

fn term_of(p: &Proc, temp: u32, is_taken: bool) -> Option<Term> {
    match kind_of(p, temp) {
        Kind::Number => None,
        _ => Some(Term {
            base: Base::Temp(temp),
            is_taken,
        }),
    }
}

fn operand_term(p: &Proc, operand: Operand, is_taken: bool) -> Option<Term> {
    match operand {
        Operand::Temp(temp) => term_of(p, temp, is_taken),
        Operand::Number(_) => None,
    }
}

/// What is loaded from a slot: the address of a formal by reference, or a pointer of its own.
fn slot_source(p: &Proc, slot: u32) -> Source {
    match p.slots.get(slot as usize) {
        Some(word) if word.kind == Kind::Address => Source::Terms([
            Some(Term {
                base: Base::Slot(slot),
                is_taken: false,
            }),
            None,
        ]),
        _ => Source::Own,
    }
}

/// Where the address that an operation sets comes from.
fn source_of(p: &Proc, op: MidOp) -> Source {
    match op {
        MidOp::Move { to: _, from } => Source::Terms([term_of(p, from, false), None]),
        MidOp::Arith {
            to: _,
            operator: WordOperator::Add,
            left,
            right,
        } => Source::Terms([operand_term(p, left, false), operand_term(p, right, false)]),
        MidOp::Arith {
            to: _,
            operator: WordOperator::Subtract,
            left,
            right,
        } => Source::Terms([operand_term(p, left, false), operand_term(p, right, true)]),
        MidOp::Index { array, index, .. } => {
            Source::Terms([term_of(p, array, false), operand_term(p, index, false)])
        }
        MidOp::Load {
            to: _,
            from: MemoryWord::Slot(slot),
        } => slot_source(p, slot),
        MidOp::Load { .. } | MidOp::Call { .. } | MidOp::Make { .. } | MidOp::Service { .. } => {
            Source::Own
        }
        _ => Source::Terms([None, None]),
    }
}

fn add_settings(
    p: &Proc,
    block: u32,
    ops: &[MidOp],
    settings: &mut Vec<Setting>,
) -> Result<(), NoMemory> {
    let mut number = 0u32;
    for op in ops {
        for set in settings_of(*op) {
            if let Some(temp) = set
                && kind_of(p, temp) == Kind::Address
            {
                settings.push(Setting {
                    block,
                    op: number,
                    temp,
                    source: source_of(p, *op),
                })?;
            }
        }
        number = number.saturating_add(1);
    }
    Ok(())
}

/// The settings of the derived temporaries of a procedure, in the order in which its blocks lie.
pub(crate) fn all_settings(
    alloc: Global,
    p: &Proc,
    order: &Order,
) -> Result<Vec<Setting>, NoMemory> {
    let mut settings = Vec::new(alloc);
    for block in order.blocks.iter().take(order.reached) {
        add_settings(p, *block, ops_of(p, *block), &mut settings)?;
    }
    Ok(settings)
}
