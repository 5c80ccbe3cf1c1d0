//! The walk through a block: what each operation makes of the left procedure's temporaries, and
//! what is known. It goes as the check of the proof will go (m3_same_run).
use crate::facts::{Answer, Facts, Held, MANY_ANSWERS, is_one, same_question};
use crate::places::Places;
use m3_base::NoMemory;
use m3_flow::{is_call, operands_of, settings_of, temp_of};
use m3_mid::{MidOp, Operand, Relation, Slot};
use m3_same_forms::{Form, Query, Seen, Setting, Side, Symbol, Tag, asks, is_lasting, is_other};
use std::alloc::Global;

/// How far is looked back for an answer.
const WINDOW: usize = 100;

/// Where a walk through a block stands: what the temporaries of the two procedures hold, and which
/// answers are known, newest last.
#[derive(Drop)]
pub struct Walk<'a> {
    pub(crate) alloc: Global,
    slots: &'a [Slot],
    pub places: Places,
    pub(crate) answers: Vec<Answer>,
    fresh: u32,
    /// The facts at the block's entry that were used.
    pub used: Vec<u32>,
}

/// What an operation did to the left procedure's temporaries.
#[derive(Clone, Copy)]
pub enum Step {
    /// It set one to a sum.
    Sum { to: u32 },
    /// It set one to an answer that is new.
    New { to: u32 },
    /// It set one to an answer that was known.
    Known { to: u32, is_near: bool },
    /// It tested what holds.
    Holds,
    /// It did something else.
    Other,
}

impl<'a> Walk<'a> {
    /// A walk over the blocks of a procedure with these slots and so many temporaries.
    pub fn new(alloc: Global, slots: &'a [Slot], temps: usize) -> Result<Walk<'a>, NoMemory> {
        Ok(Walk {
            alloc,
            slots,
            places: Places::new(alloc, temps)?,
            answers: Vec::new(alloc),
            fresh: 0,
            used: Vec::new(alloc),
        })
    }

    /// Begins a block at which this is known.
    pub fn enter(&mut self, facts: &Facts) -> Result<(), NoMemory> {
        self.places.clear();
        self.answers.clear();
        self.used.clear();
        self.fresh = 0;
        let mut number = 0u32;
        for answer in &facts.answers {
            if let Some(answer) = answer {
                self.answers.push(answer.as_fact(self.alloc, number)?)?;
            }
            number = number.saturating_add(1);
        }
        let mut number = MANY_ANSWERS;
        for held in &facts.held {
            if let Some(held) = held {
                self.places.set(held.as_fact(self.alloc, number)?)?;
                self.places.follow(held.temp);
            }
            number = number.saturating_add(1);
        }
        Ok(())
    }

    /// Notes that a fact at the block's entry was used.
    pub fn note(&mut self, from: Option<u32>) -> Result<(), NoMemory> {
        if let Some(fact) = from {
            self.used.push(fact)?;
        }
        Ok(())
    }

    /// What an operation does, by what the left procedure's temporaries hold.
    pub(crate) fn see(&mut self, op: MidOp<'_>) -> Result<Seen, NoMemory> {
        let mut settings = Vec::new(self.alloc);
        for operand in operands_of(op) {
            if let Some(temp) = temp_of(operand) {
                let from = self.places.from(temp);
                self.note(from)?;
                settings.push(Setting {
                    temp,
                    value: self.places.form(self.alloc, temp)?,
                })?;
            }
        }
        let side = Side {
            alloc: self.alloc,
            common: None,
            settings: settings.as_slice(),
        };
        Ok(side.see(self.slots, &op)?)
    }

    fn set(&mut self, temp: u32, value: Form) -> Result<(), NoMemory> {
        self.places.set(Held {
            temp,
            value,
            from: None,
            is_near: true,
        })
    }

    fn new_form(&mut self) -> Result<Form, NoMemory> {
        let form = Form::of_symbol(self.alloc, Symbol::New(self.fresh))?;
        self.fresh = self.fresh.saturating_add(1);
        Ok(form)
    }

    fn add(&mut self, query: Query, value: Form, is_told: bool) -> Result<(), NoMemory> {
        // Nothing looks back further than the window.
        if self.answers.len() >= 2 * WINDOW {
            self.answers.drain(..WINDOW);
        }
        self.answers.push(Answer {
            query,
            value,
            from: None,
            is_near: true,
            is_told,
        })?;
        Ok(())
    }

    fn learn(&mut self, query: Query, value: Form) -> Result<(), NoMemory> {
        self.add(query, value, true)
    }

    fn find(&self, query: &Query) -> Option<&Answer> {
        for back in 1..WINDOW {
            let place = self.answers.len().checked_sub(back)?;
            let answer = self.answers.get(place)?;
            if same_question(&answer.query, query) {
                return Some(answer);
            }
        }
        None
    }

    /// A temporary gets the answer to a question.
    fn compute(&mut self, to: u32, query: Query) -> Result<Step, NoMemory> {
        let mut known = None;
        if let Some(answer) = self.find(&query) {
            known = Some((answer.value.copy(self.alloc)?, answer.from, answer.is_near));
        }
        match known {
            Some((value, from, is_near)) => {
                self.note(from)?;
                self.set(to, value)?;
                Ok(Step::Known { to, is_near })
            }
            None => {
                let value = self.new_form()?;
                self.learn(query, value.copy(self.alloc)?)?;
                self.set(to, value)?;
                Ok(Step::New { to })
            }
        }
    }

    fn check(&mut self, relation: Relation, left: &Form, right: &Form) -> Result<Step, NoMemory> {
        let query = asks(self.alloc, Tag::Compared(relation), left, right)?;
        let mut known = None;
        if let Some(answer) = self.find(&query)
            && is_one(&answer.value)
        {
            known = Some(answer.from);
        }
        match known {
            Some(from) => {
                self.note(from)?;
                Ok(Step::Holds)
            }
            None => {
                let one = Form::of_symbol(self.alloc, Symbol::One)?;
                self.learn(query, one)?;
                Ok(Step::Other)
            }
        }
    }

    /// Learns whether the relation at the end of a block holds. Only that two words differ is told
    /// to the next block: that one of them isn't NIL may be asked there.
    pub(crate) fn learn_test(
        &mut self,
        relation: Relation,
        left: Operand,
        right: Operand,
        holds: bool,
    ) -> Result<(), NoMemory> {
        let first = self.operand(left)?;
        let second = self.operand(right)?;
        let query = asks(self.alloc, Tag::Compared(relation), &first, &second)?;
        let value = if holds {
            Form::of_symbol(self.alloc, Symbol::One)?
        } else {
            Form::none(self.alloc)
        };
        let is_told = holds && relation == Relation::NotEqual;
        self.add(query, value, is_told)
    }

    fn operand(&mut self, operand: Operand) -> Result<Form, NoMemory> {
        match operand {
            Operand::Temp(temp) => {
                let from = self.places.from(temp);
                self.note(from)?;
                self.places.form(self.alloc, temp)
            }
            Operand::Number(number) => Ok(Form::of_number(self.alloc, number.cast_unsigned())?),
        }
    }

    fn keep(&mut self, slot: u32, value: Form) -> Result<(), NoMemory> {
        self.answers
            .retain(|answer| is_other(slot, answer.query.tag));
        let none = Form::none(self.alloc);
        let query = asks(self.alloc, Tag::OwnSlot(slot), &none, &none)?;
        self.learn(query, value)
    }

    fn forget(&mut self) {
        self.answers.retain(|answer| is_lasting(answer.query.tag));
    }

    fn pass(&mut self, op: MidOp<'_>) -> Result<(), NoMemory> {
        self.forget();
        if is_call(op) {
            self.places.pass_call();
            for answer in self.answers.iter_mut() {
                answer.is_near = false;
            }
        }
        for setting in settings_of(op) {
            if let Some(to) = setting {
                let value = self.new_form()?;
                self.set(to, value)?;
                self.places.follow(to);
            }
        }
        Ok(())
    }

    /// The left procedure carries out an operation; where it passes a point the right one does too.
    pub fn step(&mut self, op: MidOp<'_>) -> Result<Step, NoMemory> {
        match self.see(op)? {
            Seen::Sets { to, value } => {
                self.set(to, value)?;
                Ok(Step::Sum { to })
            }
            Seen::Computes { to, query } => self.compute(to, query),
            Seen::Tries {
                to,
                operator,
                left,
                right,
                pos: _,
            } => {
                let query = asks(self.alloc, Tag::Checked(operator), &left, &right)?;
                self.compute(to, query)
            }
            Seen::Checks {
                relation,
                left,
                right,
                fault: _,
                pos: _,
            } => self.check(relation, &left, &right),
            Seen::Keeps { slot, value } => {
                self.keep(slot, value)?;
                Ok(Step::Other)
            }
            Seen::Changes {
                deed: _,
                first: _,
                second: _,
                third: _,
            } => {
                self.forget();
                Ok(Step::Other)
            }
            Seen::Points => {
                self.pass(op)?;
                Ok(Step::Other)
            }
        }
    }

    /// The right procedure carries out the same operation.
    pub fn follow(&mut self, step: Step) {
        match step {
            Step::Sum { to } | Step::New { to } | Step::Known { to, .. } => self.places.follow(to),
            Step::Holds | Step::Other => {}
        }
    }
}
