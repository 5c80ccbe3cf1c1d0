//! How the two runs go on.

ghost use Rattle.std.specs.Prelude.{◌≡◌, IfOk, List, Some, None, if◌then◌else◌};
ghost use Rattle.m3_mid.specs.declared.ops.MidOp.{MidOp as MidOpValue};
ghost use Rattle.m3_same_run.specs.Check.{Standing as StandingValue, left_form, right_form};
ghost use Rattle.m3_same_forms.specs.Facts as facts;
ghost use Rattle.m3_same_run.specs.Check as check;
ghost use Rattle.m3_same_forms.specs.Seen.{seen};

use crate::standing::{Judge, Standing, block_at};
use m3_mid::{End, MidOp};
use m3_same_forms::{
    Query, Seen, Side, Sides, Tag, asks, copied, holds, known, same_checked, same_deed, same_fault,
    same_place, same_relation,
};
use std::alloc::{AllocError, Global};

impl<'a> Standing<'a> {
    // The right procedure sets a temporary to an answer, where it is known.
    fn set_known(&mut self, alloc: Global, to: u32, query: &Query) -> Result<bool, AllocError>
        ensures { IfOk result (λ b.
            (stop : List MidOpValue) (next : StandingValue → StandingValue) →
            check.set_known (facts.known query.now self.old.knowns) to stop self.old next
            ≡ (if b then next self.new else check.at_ops self.new stop)) }
    {
        match known(alloc, query, &self.knowns)? {
            Some(value) => {
                self.set_right(to, value)?;
                Ok(true)
            }
            None => Ok(false),
        }
    }

    // One operation of the right procedure, where it can be done by itself.
    fn go_right(&mut self, judge: Judge<'_>, op: &MidOp<'_>) -> Result<bool, AllocError>
        ensures { IfOk result (λ b.
            (stop : List MidOpValue) (next : StandingValue → StandingValue) →
            check.go_right
            (seen judge.entry.slots.now (right_form judge.entry.common.now self.old) op.now)
            stop self.old next
            ≡ (if b then next self.new else check.at_ops self.new stop)) }
    {
        let alloc = judge.alloc;
        let side = Side {
            alloc,
            common: Some(judge.common),
            settings: &self.right,
        };
        match side.see(judge.slots, op)? {
            Seen::Sets { to, value } => {
                self.set_right(to, value)?;
                Ok(true)
            }
            Seen::Computes { to, query } => self.set_known(alloc, to, &query),
            Seen::Tries {
                to,
                operator,
                left,
                right,
                pos: _,
            } => {
                let query = asks(alloc, Tag::Checked(operator), &left, &right)?;
                self.set_known(alloc, to, &query)
            }
            Seen::Checks {
                relation,
                left,
                right,
                fault: _,
                pos: _,
            } => holds(alloc, relation, &left, &right, &self.knowns),
            Seen::Keeps { slot: _, value: _ } => Ok(false),
            Seen::Changes {
                deed: _,
                first: _,
                second: _,
                third: _,
            } => Ok(false),
            Seen::Points => Ok(false),
        }
    }

    /// The right procedure goes on by itself.
    pub(crate) fn advance(self, judge: Judge<'_>) -> Result<Standing<'a>, AllocError>
        ensures { IfOk result (λ st. st
            ≡ check.advance judge.entry.slots.now judge.entry.common.now self.entry.ops self.entry) }
    {
        let ops = self.ops;
        let mut st = self;
        let mut i = 0;
        while i < ops.len() {
            if !st.go_right(judge, &ops[i])? {
                return Ok(st.at_ops(&ops[i..]));
            }
            i += 1;
        }
        Ok(st.at_ops(&ops[i..]))
    }

    // The same, through one jump too.
    fn resolve(self, judge: Judge<'a>) -> Result<Standing<'a>, AllocError>
        ensures { IfOk result (λ st. st
            ≡ check.resolve judge.entry.slots.now judge.entry.common.now judge.entry.right 1
            self.entry) }
    {
        let st = self.advance(judge)?;
        if !st.ops.is_empty() {
            return Ok(st);
        }
        match st.end {
            End::Goto(b) => match block_at(&judge.right, b) {
                Some(block) => st.in_block(block).advance(judge),
                None => Ok(st),
            },
            End::If {
                relation: _,
                left: _,
                right: _,
                yes: _,
                no: _,
            } => Ok(st),
            End::Return { value: _ } => Ok(st),
            End::FaultAt { kind: _, pos: _ } => Ok(st),
            End::Raise {
                exception: _,
                number: _,
                tidy: _,
            } => Ok(st),
        }
    }

    // The two pass the same point.
    fn pass_same(
        &mut self,
        judge: Judge<'_>,
        op: &MidOp<'_>,
        other: &MidOp<'_>,
    ) -> Result<bool, AllocError>
        ensures { IfOk result (λ b. check.points_matched op.now other.now judge.entry.common.now self.old
            ≡ (if b then Some self.new else None)) }
    {
        let sides = Sides {
            left: Side {
                alloc: judge.alloc,
                common: None,
                settings: &self.left,
            },
            right: Side {
                alloc: judge.alloc,
                common: Some(judge.common),
                settings: &self.right,
            },
        };
        if sides.same_point(op, other)? {
            self.pass(judge.alloc, op, other)?;
            Ok(true)
        } else {
            Ok(false)
        }
    }

    // Both do the same.
    fn matches(
        &mut self,
        judge: Judge<'_>,
        op: &MidOp<'_>,
        other: &MidOp<'_>,
        x: &Seen,
        y: &Seen,
    ) -> Result<bool, AllocError>
        ensures { IfOk result (λ b.
            check.matched op.now other.now (left_form self.old)
            (right_form judge.entry.common.now self.old) x.now y.now self.old
            ≡ (if b then Some self.new else None)) }
    {
        let alloc = judge.alloc;
        match (x, y) {
            (
                Seen::Tries {
                    to,
                    operator,
                    left,
                    right,
                    pos,
                },
                Seen::Tries {
                    to: other_to,
                    operator: other_operator,
                    left: other_left,
                    right: other_right,
                    pos: other_pos,
                },
            ) => {
                let is_left = left.is_same(alloc, other_left)?;
                let is_right = right.is_same(alloc, other_right)?;
                let is_same = same_checked(*operator, *other_operator)
                    && same_place(*pos, *other_pos);
                if is_same && is_left && is_right {
                    let query = asks(alloc, Tag::Checked(*operator), left, right)?;
                    self.try_both(alloc, *to, *other_to, query)?;
                    Ok(true)
                } else {
                    Ok(false)
                }
            }
            (
                Seen::Checks {
                    relation,
                    left,
                    right,
                    fault,
                    pos,
                },
                Seen::Checks {
                    relation: other_relation,
                    left: other_left,
                    right: other_right,
                    fault: other_fault,
                    pos: other_pos,
                },
            ) => {
                let is_left = left.is_same(alloc, other_left)?;
                let is_right = right.is_same(alloc, other_right)?;
                let is_same = same_relation(*relation, *other_relation)
                    && same_fault(*fault, *other_fault)
                    && same_place(*pos, *other_pos);
                if is_same && is_left && is_right {
                    self.learn_true(alloc, *relation, left, right)?;
                    Ok(true)
                } else {
                    Ok(false)
                }
            }
            (
                Seen::Keeps { slot, value },
                Seen::Keeps {
                    slot: other_slot,
                    value: other_value,
                },
            ) => {
                let is_value = value.is_same(alloc, other_value)?;
                if *slot == *other_slot && is_value {
                    self.keep(alloc, *slot, value)?;
                    Ok(true)
                } else {
                    Ok(false)
                }
            }
            (
                Seen::Changes {
                    deed,
                    first,
                    second,
                    third,
                },
                Seen::Changes {
                    deed: other_deed,
                    first: other_first,
                    second: other_second,
                    third: other_third,
                },
            ) => {
                let is_first = first.is_same(alloc, other_first)?;
                let is_second = second.is_same(alloc, other_second)?;
                let is_third = third.is_same(alloc, other_third)?;
                if same_deed(*deed, *other_deed) && is_first && is_second && is_third {
                    self.forget(alloc, None)?;
                    Ok(true)
                } else {
                    Ok(false)
                }
            }
            (Seen::Points, Seen::Points) => self.pass_same(judge, op, other),
            _ => Ok(false),
        }
    }

    fn matches_op(
        &mut self,
        judge: Judge<'_>,
        op: &MidOp<'_>,
        x: &Seen,
        other: &MidOp<'_>,
    ) -> Result<bool, AllocError>
        ensures { IfOk result (λ b.
            check.matched op.now other.now (left_form self.old)
            (right_form judge.entry.common.now self.old) x.now
            (seen judge.entry.slots.now (right_form judge.entry.common.now self.old) other.now) self.old
            ≡ (if b then Some self.new else None)) }
    {
        let side = Side {
            alloc: judge.alloc,
            common: Some(judge.common),
            settings: &self.right,
        };
        let y = side.see(judge.slots, other)?;
        self.matches(judge, op, other, x, &y)
    }

    // The right procedure's next operation does the same.
    fn meets(
        self,
        judge: Judge<'_>,
        op: &MidOp<'_>,
        x: &Seen,
    ) -> Result<Option<Standing<'a>>, AllocError>
        ensures { IfOk result (λ o. o
            ≡ check.with_right judge.entry.slots.now judge.entry.common.now op.now x.now
            self.entry.ops self.entry) }
    {
        let ops = self.ops;
        match ops.split_first() {
            None => Ok(None),
            Some((other, rest)) => {
                let mut st = self.at_ops(rest);
                if st.matches_op(judge, op, x, other)? {
                    Ok(Some(st))
                } else {
                    Ok(None)
                }
            }
        }
    }

    // The right procedure goes on by itself, and then does the same.
    fn meeting(
        self,
        judge: Judge<'a>,
        op: &MidOp<'_>,
        x: &Seen,
    ) -> Result<Option<Standing<'a>>, AllocError>
        ensures { IfOk result (λ o. o
            ≡ check.meeting judge.entry.slots.now judge.entry.common.now judge.entry.right 1
            op.now x.now self.entry) }
    {
        self.resolve(judge)?.meets(judge, op, x)
    }

    fn step_seen(
        self,
        judge: Judge<'a>,
        op: &MidOp<'_>,
        x: &Seen,
    ) -> Result<Option<Standing<'a>>, AllocError>
        ensures { IfOk result (λ o. o
            ≡ check.step_seen x.now self.entry
            (check.meeting judge.entry.slots.now judge.entry.common.now judge.entry.right 1
            op.now x.now self.entry)) }
    {
        let alloc = judge.alloc;
        let mut st = self;
        match x {
            Seen::Sets { to, value } => {
                let value = value.copy(alloc)?;
                st.set_left(*to, value)?;
                Ok(Some(st))
            }
            Seen::Computes { to, query } => {
                let query = copied(alloc, query)?;
                st.compute(alloc, *to, query)?;
                Ok(Some(st))
            }
            Seen::Tries {
                to,
                operator,
                left,
                right,
                pos: _,
            } => {
                let query = asks(alloc, Tag::Checked(*operator), left, right)?;
                match known(alloc, &query, &st.knowns)? {
                    Some(value) => {
                        st.set_left(*to, value)?;
                        Ok(Some(st))
                    }
                    None => st.meeting(judge, op, x),
                }
            }
            Seen::Checks {
                relation,
                left,
                right,
                fault: _,
                pos: _,
            } => {
                if holds(alloc, *relation, left, right, &st.knowns)? {
                    return Ok(Some(st));
                }
                st.meeting(judge, op, x)
            }
            _ => st.meeting(judge, op, x),
        }
    }

    /// One operation of the left procedure.
    pub(crate) fn step(
        self,
        judge: Judge<'a>,
        op: &MidOp<'_>,
    ) -> Result<Option<Standing<'a>>, AllocError>
        ensures { IfOk result (λ o. o
            ≡ check.step judge.entry.slots.now judge.entry.common.now judge.entry.right 1
            op.now self.entry) }
    {
        let side = Side {
            alloc: judge.alloc,
            common: None,
            settings: &self.left,
        };
        let x = side.see(judge.slots, op)?;
        self.step_seen(judge, op, &x)
    }
}
