//! What an operation does, by forms.

ghost use Rattle.std.specs.Option.{option_copied};
ghost use Rattle.std.specs.Prelude.{◌≡◌, ◌+◌, IfOk};
ghost use Rattle.m3_mid_meaning.specs.Memory.{is_unshared};
ghost use Rattle.std.specs.Prelude.{slice_get};
ghost use Rattle.m3_same_forms.specs.Sides.{form_at};
ghost use Rattle.m3_same_forms.specs.Forms.{merge, of_number};
ghost use Rattle.m3_same_forms.specs.Seen as seen;

use crate::forms::{Form, Query, Symbol, Tag};
use crate::side::Side;
use m3_base::{FaultKind, Pos};
use m3_mid::{CheckedOperator, MemoryWord, MidOp, Operand, Relation, Slot, WordOperator};
use std::alloc::{AllocError, Global};

/// What changes memory by up to three words.
#[derive(Clone, Copy)]
pub enum Deed {
    /// A word is stored at an address.
    Store,
    /// So many words are copied to an address from another.
    Copy,
    /// So many words from an address on are put one after the other a distance above.
    Fill,
}

/// What an operation does.
#[derive(Drop)]
pub enum Seen {
    /// A temporary gets a sum.
    Sets {
        to: u32,
        value: Form,
    },
    /// A temporary gets the answer to a question, where there is one.
    Computes {
        to: u32,
        query: Query,
    },
    /// A temporary gets what a checked operator makes of two words, or the run ends with a fault.
    Tries {
        to: u32,
        operator: CheckedOperator,
        left: Form,
        right: Form,
        pos: Pos,
    },
    /// Goes on where the relation holds, else the run ends with a fault.
    Checks {
        relation: Relation,
        left: Form,
        right: Form,
        fault: FaultKind,
        pos: Pos,
    },
    /// A slot that isn't shared gets a word.
    Keeps {
        slot: u32,
        value: Form,
    },
    /// Memory is changed.
    Changes {
        deed: Deed,
        first: Form,
        second: Form,
        third: Form,
    },
    /// Passes a point.
    Points,
}

pub(crate) fn slot_form(alloc: Global, slot: u32) -> Result<Form, AllocError>
    ensures { IfOk result (λ f. f ≡ seen.slot_form slot) }
{
    Form::behind(alloc, Symbol::Frame, 3 + u64::from(slot))
}

pub(crate) fn global_form(alloc: Global, word: u32) -> Result<Form, AllocError>
    ensures { IfOk result (λ f. f ≡ seen.global_form word) }
{
    Form::behind(alloc, Symbol::Globals, u64::from(word))
}

fn is_unshared_slot(slots: &[Slot], slot: u32) -> bool
    ensures { result ≡ is_unshared (slice_get slots.now slot) }
{
    match slots.get(slot as usize) {
        Some(slot) => !slot.is_shared,
        None => false,
    }
}

pub(crate) fn see_arith(
    alloc: Global,
    to: u32,
    operator: WordOperator,
    left: Form,
    right: Form,
) -> Result<Seen, AllocError>
    ensures { IfOk result (λ s. s ≡ seen.seen_arith to operator left right) }
{
    match operator {
        WordOperator::Add => Ok(Seen::Sets {
            to,
            value: left.merge(alloc, right)?,
        }),
        WordOperator::Subtract => {
            let opposite = right.scaled(alloc, u64::MAX)?;
            Ok(Seen::Sets {
                to,
                value: left.merge(alloc, opposite)?,
            })
        }
        WordOperator::Multiply
        | WordOperator::And
        | WordOperator::Or
        | WordOperator::Xor
        | WordOperator::Shift
        | WordOperator::Rotate => Ok(Seen::Computes {
            to,
            query: Query {
                tag: Tag::Operator(operator),
                first: left,
                second: right,
                third: Form::none(alloc),
            },
        }),
    }
}

pub(crate) fn asks_one(alloc: Global, to: u32, tag: Tag, first: Form) -> Seen
    ensures { result ≡ seen.computes_one to tag first }
{
    Seen::Computes {
        to,
        query: Query {
            tag,
            first,
            second: Form::none(alloc),
            third: Form::none(alloc),
        },
    }
}

impl<'s> Side<'s> {
    pub(crate) fn behind(self, base: u32, distance: u64) -> Result<Form, AllocError>
        ensures { IfOk result (λ f. f
            ≡ merge
            (form_at (option_copied self.entry.common) self.entry.settings.now base)
            (of_number distance)) }
    {
        let base = self.temp(base)?;
        base.merge(self.alloc, Form::of_number(self.alloc, distance)?)
    }

    pub(crate) fn element(
        self,
        array: u32,
        index: Operand,
        words: u64,
        offset: u64,
    ) -> Result<Form, AllocError>
        ensures { IfOk result (λ f. f
            ≡ seen.element_form
            (form_at (option_copied self.entry.common) self.entry.settings.now)
            array index words offset) }
    {
        let array = self.temp(array)?;
        let index = self.operand(index)?;
        let start = array.merge(self.alloc, index.scaled(self.alloc, words)?)?;
        start.merge(self.alloc, Form::of_number(self.alloc, offset)?)
    }

    pub(crate) fn see_two(
        self,
        to: u32,
        tag: Tag,
        left: Operand,
        right: Operand,
    ) -> Result<Seen, AllocError>
        ensures { IfOk result (λ s. s
            ≡ seen.computes_two
            (form_at (option_copied self.entry.common) self.entry.settings.now) to tag left right) }
    {
        Ok(Seen::Computes {
            to,
            query: Query {
                tag,
                first: self.operand(left)?,
                second: self.operand(right)?,
                third: Form::none(self.alloc),
            },
        })
    }

    pub(crate) fn see_load(
        self,
        slots: &[Slot],
        to: u32,
        from: MemoryWord,
    ) -> Result<Seen, AllocError>
        ensures { IfOk result (λ s. s
            ≡ seen.seen_load slots.now
            (form_at (option_copied self.entry.common) self.entry.settings.now) to from) }
    {
        let alloc = self.alloc;
        match from {
            MemoryWord::Slot(slot) => {
                if is_unshared_slot(slots, slot) {
                    Ok(asks_one(alloc, to, Tag::OwnSlot(slot), Form::none(alloc)))
                } else {
                    Ok(asks_one(alloc, to, Tag::Loaded, slot_form(alloc, slot)?))
                }
            }
            MemoryWord::Environment => {
                Ok(asks_one(alloc, to, Tag::Environment, Form::none(alloc)))
            }
            MemoryWord::Global(word) => {
                Ok(asks_one(alloc, to, Tag::Loaded, global_form(alloc, word)?))
            }
            MemoryWord::At { base, offset } => {
                let at = self.behind(base, i64::from(offset).cast_unsigned())?;
                Ok(asks_one(alloc, to, Tag::Loaded, at))
            }
        }
    }

    pub(crate) fn see_store(
        self,
        slots: &[Slot],
        at: MemoryWord,
        value: Form,
    ) -> Result<Seen, AllocError>
        ensures { IfOk result (λ s. s
            ≡ seen.seen_store slots.now
            (form_at (option_copied self.entry.common) self.entry.settings.now) at value) }
    {
        let alloc = self.alloc;
        match at {
            MemoryWord::Slot(slot) => {
                if is_unshared_slot(slots, slot) {
                    Ok(Seen::Keeps { slot, value })
                } else {
                    Ok(stores(alloc, slot_form(alloc, slot)?, value))
                }
            }
            MemoryWord::Environment => Ok(Seen::Points),
            MemoryWord::Global(word) => Ok(stores(alloc, global_form(alloc, word)?, value)),
            MemoryWord::At { base, offset } => {
                let at = self.behind(base, i64::from(offset).cast_unsigned())?;
                Ok(stores(alloc, at, value))
            }
        }
    }
}

fn stores(alloc: Global, at: Form, value: Form) -> Seen
    ensures { result ≡ seen.stores at value }
{
    Seen::Changes {
        deed: Deed::Store,
        first: at,
        second: value,
        third: Form::none(alloc),
    }
}
