//! What each operation does, by forms.

ghost use Rattle.std.specs.Option.{option_copied};
ghost use Rattle.std.specs.Prelude.{◌≡◌, IfOk};
ghost use Rattle.m3_same_forms.specs.Sides.{form_at};
ghost use Rattle.m3_same_forms.specs.Seen as seen;

use crate::forms::{Form, Query, Symbol, Tag};
use crate::seen::{Deed, Seen, asks_one, global_form, see_arith, slot_form};
use crate::side::Side;
use m3_mid::{MidOp, Operand, Slot};
use std::alloc::AllocError;

impl<'s> Side<'s> {
    fn see_three(self, to: u32, left: u32, right: u32, words: Operand) -> Result<Seen, AllocError>
        ensures { IfOk result (λ s. s
            ≡ seen.computes_three
            (form_at (option_copied self.entry.common) self.entry.settings.now)
            to left right words) }
    {
        Ok(Seen::Computes {
            to,
            query: Query {
                tag: Tag::EqualWords,
                first: self.temp(left)?,
                second: self.temp(right)?,
                third: self.operand(words)?,
            },
        })
    }

    fn see_copy(self, to: u32, from: u32, words: Operand) -> Result<Seen, AllocError>
        ensures { IfOk result (λ s. s
            ≡ seen.copies
            (form_at (option_copied self.entry.common) self.entry.settings.now) to from words) }
    {
        Ok(Seen::Changes {
            deed: Deed::Copy,
            first: self.temp(to)?,
            second: self.temp(from)?,
            third: self.operand(words)?,
        })
    }

    fn see_fill(self, at: u32, words: Operand, distance: Operand) -> Result<Seen, AllocError>
        ensures { IfOk result (λ s. s
            ≡ seen.fills
            (form_at (option_copied self.entry.common) self.entry.settings.now) at words distance) }
    {
        Ok(Seen::Changes {
            deed: Deed::Fill,
            first: self.temp(at)?,
            second: self.operand(words)?,
            third: self.operand(distance)?,
        })
    }

    fn sum(self, to: u32, value: Form) -> Seen
        ensures { result ≡ seen.sums to value }
    {
        Seen::Sets { to, value }
    }

    /// What an operation does in a frame with these slots.
    pub fn see(self, slots: &[Slot], op: &MidOp<'_>) -> Result<Seen, AllocError>
        ensures { IfOk result (λ s. s
            ≡ seen.seen slots.now
            (form_at (option_copied self.entry.common) self.entry.settings.now) op.now) }
    {
        let alloc = self.alloc;
        match op {
            MidOp::Number { to, value } => {
                Ok(self.sum(*to, Form::of_number(alloc, value.cast_unsigned())?))
            }
            MidOp::Move { to, from } => Ok(self.sum(*to, self.temp(*from)?)),
            MidOp::Arith {
                to,
                operator,
                left,
                right,
            } => see_arith(
                alloc,
                *to,
                *operator,
                self.operand(*left)?,
                self.operand(*right)?,
            ),
            MidOp::Checked {
                to,
                operator,
                left,
                right,
                pos,
            } => Ok(Seen::Tries {
                to: *to,
                operator: *operator,
                left: self.operand(*left)?,
                right: self.operand(*right)?,
                pos: *pos,
            }),
            MidOp::Compare {
                to,
                relation,
                left,
                right,
            } => self.see_two(*to, Tag::Compared(*relation), *left, *right),
            MidOp::Load { to, from } => self.see_load(slots, *to, *from),
            MidOp::Store { at, from } => self.see_store(slots, *at, self.operand(*from)?),
            MidOp::SlotAddress { to, slot } => Ok(self.sum(*to, slot_form(alloc, *slot)?)),
            MidOp::FrameAddress { to } => {
                Ok(self.sum(*to, Form::of_symbol(alloc, Symbol::Frame)?))
            }
            MidOp::GlobalAddress { to, word } => Ok(self.sum(*to, global_form(alloc, *word)?)),
            MidOp::TextCell { to, text } => {
                Ok(self.sum(*to, Form::of_symbol(alloc, Symbol::Text(*text))?))
            }
            MidOp::ConstantAddress { to, constant } => {
                Ok(self.sum(*to, Form::of_symbol(alloc, Symbol::Constant(*constant))?))
            }
            MidOp::Index {
                to,
                array,
                index,
                words,
                offset,
            } => Ok(self.sum(
                *to,
                self.element(*array, *index, *words, offset.cast_unsigned())?,
            )),
            MidOp::Copy {
                to_address,
                from_address,
                words,
            } => self.see_copy(*to_address, *from_address, *words),
            MidOp::Fill {
                at,
                words,
                distance,
            } => self.see_fill(*at, *words, *distance),
            MidOp::EqualWords {
                to,
                left,
                right,
                words,
            } => self.see_three(*to, *left, *right, *words),
            MidOp::Check {
                relation,
                left,
                right,
                fault,
                pos,
            } => Ok(Seen::Checks {
                relation: *relation,
                left: self.operand(*left)?,
                right: self.operand(*right)?,
                fault: *fault,
                pos: *pos,
            }),
            MidOp::TypeTest { to, cell, tested } => {
                Ok(asks_one(alloc, *to, Tag::TypeTest(*tested), self.temp(*cell)?))
            }
            MidOp::MethodOf { to, object, method } => {
                Ok(asks_one(alloc, *to, Tag::MethodOf(*method), self.temp(*object)?))
            }
            MidOp::TextByte { to, text, index } => {
                self.see_two(*to, Tag::TextByte, Operand::Temp(*text), *index)
            }
            MidOp::EqualTexts { to, left, right } => self.see_two(
                *to,
                Tag::EqualTexts,
                Operand::Temp(*left),
                Operand::Temp(*right),
            ),
            MidOp::Call { .. } | MidOp::Make { .. } | MidOp::Service { .. } | MidOp::Point { .. } =>
                Ok(Seen::Points),
        }
    }
}
