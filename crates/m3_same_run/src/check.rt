//! The check of a proof.

ghost use Rattle.std.specs.Prelude.{◌≡◌, IfOk, true};
ghost use Rattle.m3_mid_meaning.specs.Runs.{FollowsRun};
ghost use Rattle.m3_same_run.specs.Check as check;
ghost use Rattle.m3_same_run.specs.Whole as whole;

use crate::standing::{Judge, Standing, block_at};
use m3_mid::{Block, End, MidOp, Operand, Proc, Relation};
use m3_same_forms::{
    Form, Known, Pair, Query, Setting, Side, Sides, Symbol, Tag, asks, copied, is_form, known,
    same_fault, same_place, same_relation, same_slots,
};
use std::alloc::{AllocError, Global};

impl<'a> Standing<'a> {
    fn symbol_form(&self, judge: Judge<'_>, symbol: Symbol) -> Result<Form, AllocError>
        ensures { IfOk result (λ f. f ≡ check.symbol_form judge.entry.common.now self.now symbol) }
    {
        let alloc = judge.alloc;
        match symbol {
            Symbol::Left(temp) => Side {
                alloc,
                common: None,
                settings: &self.left,
            }
            .temp(temp),
            Symbol::Right(temp) => Side {
                alloc,
                common: Some(judge.common),
                settings: &self.right,
            }
            .temp(temp),
            Symbol::New(_) => Ok(Form::none(alloc)),
            Symbol::One | Symbol::Frame | Symbol::Globals | Symbol::Text(_) | Symbol::Constant(_) =>
                Form::of_symbol(alloc, symbol),
        }
    }

    // A form of a pair's entry, as it is now.
    fn form_now(&self, judge: Judge<'_>, form: &Form) -> Result<Form, AllocError>
        ensures { IfOk result (λ f. f ≡ check.form_now judge.entry.common.now self.now form.now) }
    {
        let mut out = Form::none(judge.alloc);
        for term in &form.terms {
            let part = self.symbol_form(judge, term.symbol)?;
            let scaled = part.scaled(judge.alloc, term.times)?;
            out = scaled.merge(judge.alloc, out)?;
        }
        Ok(out)
    }

    fn query_now(&self, judge: Judge<'_>, query: &Query) -> Result<Query, AllocError>
        ensures { IfOk result (λ x. x ≡ check.query_now judge.entry.common.now self.now query.now) }
    {
        Ok(Query {
            tag: query.tag,
            first: self.form_now(judge, &query.first)?,
            second: self.form_now(judge, &query.second)?,
            third: self.form_now(judge, &query.third)?,
        })
    }

    fn fits_at(&self, judge: Judge<'_>, settings: &[Setting], temp: u32) -> Result<bool, AllocError>
        ensures { IfOk result (λ b. b
            ≡ check.fits_at judge.entry.common.now self.now settings.now temp) }
    {
        let wanted = Side {
            alloc: judge.alloc,
            common: Some(judge.common),
            settings,
        }
        .temp(temp)?;
        let now = self.form_now(judge, &wanted)?;
        let there = self.symbol_form(judge, Symbol::Right(temp))?;
        now.is_same(judge.alloc, &there)
    }

    fn all_fit(
        &self,
        judge: Judge<'_>,
        settings: &[Setting],
        list: &[Setting],
    ) -> Result<bool, AllocError>
        ensures { IfOk result (λ b. b
            ≡ check.all_fit judge.entry.common.now self.now settings.now list.now) }
    {
        for setting in list {
            if !self.fits_at(judge, settings, setting.temp)? {
                return Ok(false);
            }
        }
        Ok(true)
    }

    fn all_known(&self, judge: Judge<'_>, knowns: &[Known]) -> Result<bool, AllocError>
        ensures { IfOk result (λ b. b ≡ check.all_known judge.entry.common.now self.now knowns.now) }
    {
        for wanted in knowns {
            let value = self.form_now(judge, &wanted.value)?;
            let query = self.query_now(judge, &wanted.query)?;
            let found = known(judge.alloc, &query, &self.knowns)?;
            if !is_form(judge.alloc, &value, &found)? {
                return Ok(false);
            }
        }
        Ok(true)
    }

    fn all_left(&self, judge: Judge<'_>, list: &[Setting]) -> Result<bool, AllocError>
        ensures { IfOk result (λ b. b
            ≡ check.all_left judge.entry.common.now self.now list.now) }
    {
        for setting in list {
            let now = self.form_now(judge, &setting.value)?;
            let there = self.symbol_form(judge, Symbol::Left(setting.temp))?;
            if !now.is_same(judge.alloc, &there)? {
                return Ok(false);
            }
        }
        Ok(true)
    }

    fn enters(&self, judge: Judge<'_>, pair: &Pair) -> Result<bool, AllocError>
        ensures { IfOk result (λ b. b ≡ check.enters judge.entry.common.now self.now pair.now) }
    {
        let is_left = self.all_left(judge, &pair.left_settings)?;
        let own = self.all_fit(judge, &pair.settings, &pair.settings)?;
        let left = self.all_fit(judge, &pair.settings, &self.left)?;
        let right = self.all_fit(judge, &pair.settings, &self.right)?;
        let is_known = self.all_known(judge, &pair.knowns)?;
        let is_right = own && left && right && is_known;
        Ok(is_left && is_right)
    }

    fn goes_to(
        &self,
        judge: Judge<'_>,
        proof: &[Pair],
        left: u32,
        right: u32,
    ) -> Result<bool, AllocError>
        ensures { IfOk result (λ b. b
            ≡ check.goes_to judge.entry.common.now proof.now left right self.now) }
    {
        for pair in proof {
            if pair.left == left && pair.right == right {
                return self.enters(judge, pair);
            }
        }
        Ok(false)
    }

    // The pair at the place of the left block is looked at first.
    fn jumps_to(
        &self,
        judge: Judge<'_>,
        proof: &[Pair],
        left: u32,
        right: u32,
    ) -> Result<bool, AllocError>
        ensures { IfOk result (λ b. b
            ≡ check.jumps_to judge.entry.common.now proof.now left right self.now) }
    {
        match proof.get(left as usize) {
            Some(pair) => {
                if pair.left == left && pair.right == right {
                    self.enters(judge, pair)
                } else {
                    self.goes_to(judge, proof, left, right)
                }
            }
            None => self.goes_to(judge, proof, left, right),
        }
    }

    fn same_words(
        &self,
        judge: Judge<'_>,
        operand: Operand,
        other: Operand,
    ) -> Result<bool, AllocError>
        ensures { IfOk result (λ b. b
            ≡ check.same_words judge.entry.common.now self.now operand other) }
    {
        Sides {
            left: Side {
                alloc: judge.alloc,
                common: None,
                settings: &self.left,
            },
            right: Side {
                alloc: judge.alloc,
                common: Some(judge.common),
                settings: &self.right,
            },
        }
        .same_operand(operand, other)
    }

    fn same_value(
        &self,
        judge: Judge<'_>,
        value: Option<Operand>,
        other: Option<Operand>,
    ) -> Result<bool, AllocError>
        ensures { IfOk result (λ b. b
            ≡ check.same_value judge.entry.common.now self.now value other) }
    {
        match (value, other) {
            (None, None) => Ok(true),
            (Some(value), Some(other)) => self.same_words(judge, value, other),
            _ => Ok(false),
        }
    }
}

fn copied_settings(alloc: Global, settings: &[Setting]) -> Result<Vec<Setting>, AllocError>
    ensures { IfOk result (λ v. v.items ≡ settings.now) }
{
    let mut copy = Vec::new(alloc);
    for setting in settings {
        copy.push(Setting {
            temp: setting.temp,
            value: setting.value.copy(alloc)?,
        })?;
    }
    Ok(copy)
}

fn copied_knowns(alloc: Global, knowns: &[Known]) -> Result<Vec<Known>, AllocError>
    ensures { IfOk result (λ v. v.items ≡ knowns.now) }
{
    let mut copy = Vec::new(alloc);
    for known in knowns {
        copy.push(Known {
            query: copied(alloc, &known.query)?,
            value: known.value.copy(alloc)?,
        })?;
    }
    Ok(copy)
}

impl<'a> Standing<'a> {
    fn copy(&self, alloc: Global) -> Result<Standing<'a>, AllocError>
        ensures { IfOk result (λ st. st ≡ self.now) }
    {
        Ok(Standing {
            left: copied_settings(alloc, &self.left)?,
            right: copied_settings(alloc, &self.right)?,
            knowns: copied_knowns(alloc, &self.knowns)?,
            fresh: self.fresh,
            ops: self.ops,
            end: self.end,
        })
    }

    fn learn_test(
        &mut self,
        alloc: Global,
        relation: Relation,
        left: Operand,
        right: Operand,
        value: Form,
    ) -> Result<(), AllocError>
        ensures { IfOk result (λ u. self.new
            ≡ check.learn_test self.old relation left right value) }
    {
        let side = Side {
            alloc,
            common: None,
            settings: &self.left,
        };
        let first = side.operand(left)?;
        let second = side.operand(right)?;
        let query = asks(alloc, Tag::Compared(relation), &first, &second)?;
        self.learn(query, value)
    }

    fn end_with(
        &self,
        judge: Judge<'_>,
        proof: &[Pair],
        end: End,
        other: End,
    ) -> Result<bool, AllocError>
        ensures { IfOk result (λ b. b
            ≡ check.end_with judge.entry.common.now proof.now end other self.now) }
    {
        match (end, other) {
            (End::Goto(left), End::Goto(right)) => self.jumps_to(judge, proof, left, right),
            (
                End::If {
                    relation,
                    left,
                    right,
                    yes,
                    no,
                },
                End::If {
                    relation: other_relation,
                    left: other_left,
                    right: other_right,
                    yes: other_yes,
                    no: other_no,
                },
            ) => {
                let is_left = self.same_words(judge, left, other_left)?;
                let is_right = self.same_words(judge, right, other_right)?;
                let mut there = self.copy(judge.alloc)?;
                let one = Form::of_symbol(judge.alloc, Symbol::One)?;
                there.learn_test(judge.alloc, relation, left, right, one)?;
                let yes_fits = there.jumps_to(judge, proof, yes, other_yes)?;
                let mut here = self.copy(judge.alloc)?;
                let zero = Form::none(judge.alloc);
                here.learn_test(judge.alloc, relation, left, right, zero)?;
                let no_fits = here.jumps_to(judge, proof, no, other_no)?;
                let is_same = same_relation(relation, other_relation);
                Ok(is_same && is_left && is_right && yes_fits && no_fits)
            }
            (End::Return { value }, End::Return { value: other }) => {
                self.same_value(judge, value, other)
            }
            (
                End::FaultAt { kind, pos },
                End::FaultAt {
                    kind: other_kind,
                    pos: other_pos,
                },
            ) => Ok(same_fault(kind, other_kind) && same_place(pos, other_pos)),
            (
                End::Raise {
                    exception,
                    number,
                    tidy,
                },
                End::Raise {
                    exception: other_exception,
                    number: other_number,
                    tidy: other_tidy,
                },
            ) => {
                let is_exception = self.same_words(judge, exception, other_exception)?;
                let is_number = self.same_words(judge, number, other_number)?;
                let is_tidy = self.same_words(judge, tidy, other_tidy)?;
                Ok(is_exception && is_number && is_tidy)
            }
            _ => Ok(false),
        }
    }

    fn ends(self, judge: Judge<'_>, proof: &[Pair], end: End) -> Result<bool, AllocError>
        ensures { IfOk result (λ b. b
            ≡ check.ended judge.entry.common.now proof.now end
            (check.advance judge.entry.slots.now judge.entry.common.now self.entry.ops self.entry)) }
    {
        let there = self.advance(judge)?;
        if there.ops.is_empty() {
            there.end_with(judge, proof, end, there.end)
        } else {
            Ok(false)
        }
    }

    fn steps(self, judge: Judge<'a>, ops: &[MidOp<'_>]) -> Result<Option<Standing<'a>>, AllocError>
        ensures { IfOk result (λ o. o
            ≡ check.steps judge.entry.slots.now judge.entry.common.now judge.entry.right 1
            ops.now self.entry) }
    {
        let mut there = self;
        for op in ops {
            match there.step(judge, op)? {
                Some(next) => there = next,
                None => return Ok(None),
            }
        }
        Ok(Some(there))
    }
}

fn is_old(form: &Form) -> bool
    ensures { result ≡ check.old_form form.now }
{
    for term in &form.terms {
        if matches!(term.symbol, Symbol::New(_)) {
            return false;
        }
    }
    true
}

fn is_old_query(query: &Query) -> bool
    ensures { result ≡ check.old_query query.now }
{
    is_old(&query.first) && is_old(&query.second) && is_old(&query.third)
}

fn are_old(settings: &[Setting]) -> bool
    ensures { result ≡ check.old_settings settings.now }
{
    for setting in settings {
        if !is_old(&setting.value) {
            return false;
        }
    }
    true
}

fn are_old_knowns(knowns: &[Known]) -> bool
    ensures { result ≡ check.old_knowns knowns.now }
{
    for known in knowns {
        let is_query = is_old_query(&known.query);
        let is_value = is_old(&known.value);
        if !(is_query && is_value) {
            return false;
        }
    }
    true
}

fn standing_at<'a>(
    alloc: Global,
    pair: &Pair,
    block: &Block<'a>,
) -> Result<Standing<'a>, AllocError>
    ensures { IfOk result (λ st. st ≡ check.standing_at pair.now block.now) }
{
    Ok(Standing {
        left: copied_settings(alloc, &pair.left_settings)?,
        right: copied_settings(alloc, &pair.settings)?,
        knowns: copied_knowns(alloc, &pair.knowns)?,
        fresh: 0,
        ops: block.ops,
        end: block.end,
    })
}

impl<'a> Judge<'a> {
    fn is_pair(self, p: &Proc<'_>, proof: &[Pair], pair: &Pair) -> Result<bool, AllocError>
        ensures { IfOk result (λ b. b
            ≡ whole.pair_with self.entry.slots.now self.entry.common.now p.now self.entry.right 1
            proof.now pair.now) }
    {
        let are_both_old = are_old(&pair.left_settings) && are_old(&pair.settings);
        let are_all_old = are_both_old && are_old_knowns(&pair.knowns);
        if !are_all_old {
            return Ok(false);
        }
        let Some(left) = block_at(p, pair.left) else {
            return Ok(false);
        };
        let Some(right) = block_at(&self.right, pair.right) else {
            return Ok(false);
        };
        let st = standing_at(self.alloc, pair, &right)?;
        match st.steps(self, left.ops)? {
            Some(there) => there.ends(self, proof, left.end),
            None => Ok(false),
        }
    }

    fn are_pairs(self, p: &Proc<'_>, proof: &[Pair]) -> Result<bool, AllocError>
        ensures { IfOk result (λ b. b
            ≡ whole.pairs_with self.entry.slots.now self.entry.common.now p.now self.entry.right 1
            proof.now proof.now) }
    {
        for pair in proof {
            if !self.is_pair(p, proof, pair)? {
                return Ok(false);
            }
        }
        Ok(true)
    }
}

fn is_empty(pair: &Pair) -> bool
    ensures { result ≡ check.no_facts pair.now }
{
    let has_settings = !pair.left_settings.is_empty() || !pair.settings.is_empty();
    !has_settings && pair.knowns.is_empty()
}

fn starts(proof: &[Pair], left: u32, right: u32) -> bool
    ensures { result ≡ check.starts proof.now left right }
{
    for pair in proof {
        if pair.left == left && pair.right == right {
            return is_empty(pair);
        }
    }
    false
}

fn same_frame(p: &Proc<'_>, q: &Proc<'_>) -> bool
    ensures { result ≡ check.same_frame p.now q.now }
{
    p.formals == q.formals && same_slots(p.slots, q.slots)
}

fn is_run(
    alloc: Global,
    p: &Proc<'_>,
    q: &Proc<'_>,
    common: &[bool],
    proof: &[Pair],
) -> Result<bool, AllocError>
    ensures { IfOk result (λ b. b
        ≡ whole.run_with p.now.slots.now common.now p.now q.now 1 proof.now) }
{
    let judge = Judge {
        alloc,
        slots: p.slots,
        common,
        right: *q,
    };
    let is_frame = same_frame(p, q);
    let begins = starts(proof, p.start, q.start);
    let are_all = judge.are_pairs(p, proof)?;
    Ok(is_frame && begins && are_all)
}

/// Whether a proof shows that each defined run of one procedure is a run of another, for every list
/// of answers: the same events, with the actuals, the shown variables and memory, and the same end.
/// `false` says nothing. `common` tells which temporaries of the right procedure are the left one's
/// of the same number wherever no setting says otherwise; of the others nothing is said but what
/// settings say. Where the pair of each block stands at its number, the time is that of the two
/// procedures and the proof, times the longest list of settings and of what is known at once.
pub fn have_same_run(
    alloc: Global,
    p: &Proc<'_>,
    q: &Proc<'_>,
    common: &[bool],
    proof: &[Pair],
) -> Result<bool, AllocError>
    ensures { IfOk result (λ b. b ≡ true → FollowsRun p.now q.now) }
{
    let is_same = is_run(alloc, p, q, common, proof)?;
    Ok(is_same)
}
