//! Where two runs stand.

ghost use Rattle.std.specs.Prelude.{◌≡◌, IfOk, [], slice_get};
ghost use Rattle.m3_same_forms.specs.Forms.{of_symbol};
ghost use Rattle.m3_same_forms.specs.declared.forms.Symbol.TheVariants.{One};
ghost use Rattle.m3_same_forms.specs.declared.forms.Tag.TheVariants.{Compared, OwnSlot};
ghost use Rattle.m3_same_forms.specs.Seen.{asks as asks_form};
ghost use Rattle.m3_same_forms.specs.Facts.{stays, is_other_slot};
ghost use Rattle.m3_same_run.specs.Check.{Standing as StandingValue};
ghost use Rattle.m3_same_run.specs.Check.{told, told_raised, answered_by};
ghost use Rattle.m3_same_forms.specs.Facts as facts;
ghost use Rattle.m3_same_run.specs.Check as check;

use m3_mid::{Block, End, MidOp, Proc, Raised, Relation, Slot};
use m3_same_forms::{Form, Known, Query, Setting, Symbol, Tag, asks, known, remaining};
use std::alloc::{AllocError, Global};
use std::marker::Model;
use std::mem;

/// What stays the same during a check: the slots of both frames, which temporaries the two have in
/// common, and the right procedure.
#[derive(Clone, Copy)]
pub(crate) struct Judge<'a> {
    pub alloc: Global,
    pub slots: &'a [Slot],
    pub common: &'a [bool],
    pub right: Proc<'a>,
}

/// What temporaries hold, newest first; what is known; how many words came since; and what is left
/// of the right block.
#[derive(Drop)]
pub(crate) struct Standing<'a> {
    pub left: Vec<Setting>,
    pub right: Vec<Setting>,
    pub knowns: Vec<Known>,
    pub fresh: u32,
    pub ops: &'a [MidOp<'a>],
    pub end: End,
}

impl<'a> Model for Standing<'a> {
    ghost Value = { StandingValue };

    ghost view = { λ s. record {
      left = s.left.items;
      right = s.right.items;
      knowns = s.knowns.items;
      fresh = s.fresh;
      ops = s.ops.now;
      end = s.end;
    } };
}

/// The new words of an answer.
#[derive(Clone, Copy)]
pub(crate) struct Told {
    pub result: u32,
    pub exception: u32,
    pub number: u32,
    pub tidy: u32,
    pub any: u32,
}

/// The block of a number.
pub(crate) fn block_at<'a>(proc: &Proc<'a>, block: u32) -> Option<Block<'a>>
    ensures { result ≡ slice_get proc.now.blocks.now block }
{
    proc.blocks.get(block as usize).copied()
}

impl<'a> Standing<'a> {
    pub(crate) fn set_left(&mut self, temp: u32, value: Form) -> Result<(), AllocError>
        ensures { IfOk result (λ u. self.new ≡ check.set_left self.old temp value) }
    {
        self.left.insert(0, Setting { temp, value })?;
        Ok(())
    }

    pub(crate) fn set_right(&mut self, temp: u32, value: Form) -> Result<(), AllocError>
        ensures { IfOk result (λ u. self.new ≡ check.set_right self.old temp value) }
    {
        self.right.insert(0, Setting { temp, value })?;
        Ok(())
    }

    pub(crate) fn learn(&mut self, query: Query, value: Form) -> Result<(), AllocError>
        ensures { IfOk result (λ u. self.new ≡ check.learn self.old query value) }
    {
        self.knowns.insert(0, Known { query, value })?;
        Ok(())
    }

    pub(crate) fn forget(&mut self, alloc: Global, slot: Option<u32>) -> Result<(), AllocError>
        ensures { IfOk result (λ u. self.new ≡ check.forget (stays slot) self.old) }
    {
        let before = mem::replace(&mut self.knowns, Vec::new(alloc));
        self.knowns = remaining(alloc, slot, before)?;
        Ok(())
    }

    // The number of a word that is new.
    fn new_word(&mut self) -> Result<u32, AllocError>
        ensures { IfOk result (λ n. (n ≡ self.old.fresh) × (self.new ≡ check.new_word self.old)) }
    {
        let word = self.fresh;
        let Some(fresh) = word.checked_add(1) else {
            return Err(AllocError);
        };
        self.fresh = fresh;
        Ok(word)
    }

    pub(crate) fn at_ops(self, ops: &'a [MidOp<'a>]) -> Standing<'a>
        ensures { result ≡ check.at_ops self.entry ops.now }
    {
        Standing {
            left: self.left,
            right: self.right,
            knowns: self.knowns,
            fresh: self.fresh,
            ops,
            end: self.end,
        }
    }

    pub(crate) fn in_block(self, block: Block<'a>) -> Standing<'a>
        ensures { result ≡ record self.entry { ops = block.entry.ops.now; end = block.entry.end } }
    {
        Standing {
            left: self.left,
            right: self.right,
            knowns: self.knowns,
            fresh: self.fresh,
            ops: block.ops,
            end: block.end,
        }
    }

    // ---- words of an answer

    fn tell_left(&mut self, alloc: Global, to: Option<u32>, word: u32) -> Result<(), AllocError>
        ensures { IfOk result (λ u. self.new
            ≡ record self.old { left = told to word self.old.left }) }
    {
        match to {
            Some(to) => self.set_left(to, Form::of_symbol(alloc, Symbol::New(word))?),
            None => Ok(()),
        }
    }

    fn tell_right(&mut self, alloc: Global, to: Option<u32>, word: u32) -> Result<(), AllocError>
        ensures { IfOk result (λ u. self.new
            ≡ record self.old { right = told to word self.old.right }) }
    {
        match to {
            Some(to) => self.set_right(to, Form::of_symbol(alloc, Symbol::New(word))?),
            None => Ok(()),
        }
    }

    fn raise_left(
        &mut self,
        alloc: Global,
        raised: Option<Raised>,
        told: Told,
    ) -> Result<(), AllocError>
        ensures { IfOk result (λ u. self.new
            ≡ record self.old {
              left = told_raised raised told.exception told.number told.tidy self.old.left;
            }) }
    {
        let Some(raised) = raised else {
            return Ok(());
        };
        self.tell_left(alloc, Some(raised.exception), told.exception)?;
        self.tell_left(alloc, Some(raised.number), told.number)?;
        self.tell_left(alloc, Some(raised.tidy), told.tidy)
    }

    fn raise_right(
        &mut self,
        alloc: Global,
        raised: Option<Raised>,
        told: Told,
    ) -> Result<(), AllocError>
        ensures { IfOk result (λ u. self.new
            ≡ record self.old {
              right = told_raised raised told.exception told.number told.tidy self.old.right;
            }) }
    {
        let Some(raised) = raised else {
            return Ok(());
        };
        self.tell_right(alloc, Some(raised.exception), told.exception)?;
        self.tell_right(alloc, Some(raised.number), told.number)?;
        self.tell_right(alloc, Some(raised.tidy), told.tidy)
    }

    fn answer_left(&mut self, alloc: Global, op: &MidOp<'_>, told: Told) -> Result<(), AllocError>
        ensures { IfOk result (λ u. self.new
            ≡ record self.old {
              left = answered_by op.now told.result told.exception told.number told.tidy told.any
                  self.old.left;
            }) }
    {
        match op {
            MidOp::Call { result, raised, .. } => {
                self.tell_left(alloc, *result, told.result)?;
                self.raise_left(alloc, *raised, told)
            }
            MidOp::Make { to, .. } => self.tell_left(alloc, Some(*to), told.result),
            MidOp::Service { to, raised, .. } => {
                self.tell_left(alloc, *to, told.result)?;
                self.tell_left(alloc, *raised, told.any)
            }
            _ => Ok(()),
        }
    }

    fn answer_right(&mut self, alloc: Global, op: &MidOp<'_>, told: Told) -> Result<(), AllocError>
        ensures { IfOk result (λ u. self.new
            ≡ record self.old {
              right = answered_by op.now told.result told.exception told.number told.tidy told.any
                  self.old.right;
            }) }
    {
        match op {
            MidOp::Call { result, raised, .. } => {
                self.tell_right(alloc, *result, told.result)?;
                self.raise_right(alloc, *raised, told)
            }
            MidOp::Make { to, .. } => self.tell_right(alloc, Some(*to), told.result),
            MidOp::Service { to, raised, .. } => {
                self.tell_right(alloc, *to, told.result)?;
                self.tell_right(alloc, *raised, told.any)
            }
            _ => Ok(()),
        }
    }

    /// Both have passed a point.
    pub(crate) fn pass(
        &mut self,
        alloc: Global,
        op: &MidOp<'_>,
        other: &MidOp<'_>,
    ) -> Result<(), AllocError>
        ensures { IfOk result (λ u. self.new ≡ check.passed op.now other.now self.old) }
    {
        let result = self.new_word()?;
        let exception = self.new_word()?;
        let number = self.new_word()?;
        let tidy = self.new_word()?;
        let any = self.new_word()?;
        let told = Told {
            result,
            exception,
            number,
            tidy,
            any,
        };
        self.forget(alloc, None)?;
        self.answer_left(alloc, op, told)?;
        self.answer_right(alloc, other, told)
    }

    // ---- what both do

    /// Both set a temporary to what a checked operator gives.
    pub(crate) fn try_both(
        &mut self,
        alloc: Global,
        to: u32,
        other: u32,
        query: Query,
    ) -> Result<(), AllocError>
        ensures { IfOk result (λ u. self.new ≡ check.both_tried to other query self.old) }
    {
        let word = self.new_word()?;
        self.learn(query, Form::of_symbol(alloc, Symbol::New(word))?)?;
        self.set_left(to, Form::of_symbol(alloc, Symbol::New(word))?)?;
        self.set_right(other, Form::of_symbol(alloc, Symbol::New(word))?)
    }

    /// A relation holds from now on.
    pub(crate) fn learn_true(
        &mut self,
        alloc: Global,
        relation: Relation,
        left: &Form,
        right: &Form,
    ) -> Result<(), AllocError>
        ensures { IfOk result (λ u. self.new
            ≡ check.learn self.old (asks_form (Compared relation) left.now right.now [])
            (of_symbol One)) }
    {
        let query = asks(alloc, Tag::Compared(relation), left, right)?;
        self.learn(query, Form::of_symbol(alloc, Symbol::One)?)
    }

    /// A slot of the activation's own has a word from now on.
    pub(crate) fn keep(&mut self, alloc: Global, slot: u32, value: &Form) -> Result<(), AllocError>
        ensures { IfOk result (λ u. self.new
            ≡ check.learn (check.forget (is_other_slot slot) self.old)
            (asks_form (OwnSlot slot) [] [] []) value.now) }
    {
        self.forget(alloc, Some(slot))?;
        let query = asks(
            alloc,
            Tag::OwnSlot(slot),
            &Form::none(alloc),
            &Form::none(alloc),
        )?;
        self.learn(query, value.copy(alloc)?)
    }

    /// The left procedure computes the answer to a question.
    pub(crate) fn compute(&mut self, alloc: Global, to: u32, query: Query) -> Result<(), AllocError>
        ensures { IfOk result (λ u. self.new
            ≡ check.compute_left (facts.known query self.old.knowns) to query self.old) }
    {
        match known(alloc, &query, &self.knowns)? {
            Some(value) => self.set_left(to, value),
            None => {
                let word = self.new_word()?;
                self.learn(query, Form::of_symbol(alloc, Symbol::New(word))?)?;
                self.set_left(to, Form::of_symbol(alloc, Symbol::New(word))?)
            }
        }
    }
}
