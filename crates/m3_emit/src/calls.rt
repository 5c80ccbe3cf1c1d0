use crate::writer::Writer;
use m3_base::NoMemory;
use m3_gen_instructions::{Content, FIRST, word_of};
use m3_isa::Op;
use m3_mid::{Actual, Callee, Kind, MidOp, Operand, Raised};
use m3_tables::Location;

/// The words of a callee's formals that are tidy, and those that are derived, each with its
/// temporary.
#[derive(Drop)]
pub(crate) struct Passed {
    pub(crate) tidy: Vec<u32>,
    pub(crate) derived: Vec<(u32, u32)>,
}

/// A register whose word is to come into another.
#[derive(Clone, Copy)]
struct Transfer {
    from: u8,
    to: u8,
}

impl<'a> Writer<'a> {
    /// The word at which the next frame begins.
    fn body(&self) -> u32 {
        let placed = self.emitter.placed;
        placed.body
    }

    fn is_tidy(&self, operand: Operand) -> bool {
        match operand {
            Operand::Temp(temp) => self.emitter.kind_of(temp) == Kind::Tidy,
            Operand::Number(_) => false,
        }
    }

    /// Stores an operand in a word of the frame.
    fn put_outgoing(&mut self, operand: Operand, word: u32) -> Result<(), NoMemory> {
        self.emitter.unpin();
        let register = self.emitter.operand(operand)?;
        self.emitter.put_word(Op::Sts, register, word)
    }

    fn put_tidy_word(
        &mut self,
        operand: Operand,
        word: u32,
        passed: &mut Passed,
    ) -> Result<(), NoMemory> {
        if self.is_tidy(operand) {
            passed.tidy.push(word)?;
        }
        self.put_outgoing(operand, word)
    }

    /// Copies slots in a row to words of the frame.
    fn put_slots(
        &mut self,
        first: u32,
        count: u32,
        word: u32,
        passed: &mut Passed,
    ) -> Result<(), NoMemory> {
        self.note_slots(first, count, word, passed)?;
        self.emitter.unpin();
        if count < 5 {
            for at in 0..count {
                self.emitter.unpin();
                let register = self.emitter.scratch()?;
                self.emitter
                    .put_word(Op::Lds, register, word_of(first).saturating_add(at))?;
                self.emitter
                    .put_word(Op::Sts, register, word.saturating_add(at))?;
            }
            return Ok(());
        }
        let to = self.emitter.scratch()?;
        self.emitter.put_word(Op::Slot, to, word)?;
        let from = self.emitter.scratch()?;
        self.emitter.put_word(Op::Slot, from, word_of(first))?;
        let words = self.emitter.number(i64::from(count))?;
        self.emitter.put_abc(Op::Copy, to, from, words)
    }

    fn note_slots(
        &mut self,
        first: u32,
        count: u32,
        word: u32,
        passed: &mut Passed,
    ) -> Result<(), NoMemory> {
        let placed = self.emitter.placed;
        let slots = placed.derived.proc.slots;
        for at in 0..count {
            let slot = first.saturating_add(at);
            if let Some(slot) = slots.get(slot as usize)
                && slot.kind == Kind::Tidy
            {
                passed.tidy.push(word.saturating_add(at))?;
            }
        }
        Ok(())
    }

    /// Stores an actual in the words of the callee's frame from one on, and gives the one behind
    /// it.
    fn put_actual(
        &mut self,
        actual: Actual,
        word: u32,
        passed: &mut Passed,
    ) -> Result<u32, NoMemory> {
        match actual {
            Actual::Word(operand) => {
                self.put_tidy_word(operand, word, passed)?;
                Ok(word.saturating_add(1))
            }
            Actual::Slots { first, count } => {
                self.put_slots(first, count, word, passed)?;
                Ok(word.saturating_add(count))
            }
            Actual::Reference { address, base } => {
                if self.emitter.kind_of(address) == Kind::Address {
                    passed.derived.push((word, address))?;
                }
                self.put_outgoing(Operand::Temp(address), word)?;
                let next = word.saturating_add(1);
                self.put_tidy_word(base, next, passed)?;
                Ok(next.saturating_add(1))
            }
        }
    }

    fn put_actuals(&mut self, actuals: &[Actual], passed: &mut Passed) -> Result<(), NoMemory> {
        let mut word = self.body().saturating_add(3);
        for actual in actuals {
            word = self.put_actual(*actual, word, passed)?;
        }
        Ok(())
    }

    /// Everything of a call up to its instruction, which is still to come.
    fn prepare(&mut self, callee: Callee) -> Result<(Op, u8, u32), NoMemory> {
        let environment_word = self.body().saturating_add(2);
        match callee {
            Callee::Outermost(procedure) => Ok((Op::Call, 0, procedure.saturating_add(2))),
            Callee::Inner {
                procedure,
                environment,
            } => {
                self.put_outgoing(Operand::Temp(environment), environment_word)?;
                Ok((Op::Call, 0, procedure.saturating_add(2)))
            }
            Callee::Value { code, environment } => {
                self.put_outgoing(Operand::Temp(environment), environment_word)?;
                self.emitter.unpin();
                let register = self.emitter.temp(code)?;
                Ok((Op::Callr, register, 0))
            }
            Callee::Method(method) => Ok((Op::Callm, 0, method)),
        }
    }

    /// A call: the words of the callee's formals, the call with its row, and its results.
    pub(crate) fn put_call(
        &mut self,
        op: MidOp<'a>,
        callee: Callee,
        actuals: &[Actual],
        outcome: Option<u32>,
        raised: Option<Raised>,
        passed: &mut Passed,
    ) -> Result<(), NoMemory> {
        self.put_actuals(actuals, passed)?;
        let (call, register, number) = self.prepare(callee)?;
        self.add_row(op, &[], passed)?;
        self.emitter.put_word(call, register, number)?;
        self.emitter.forget_all();
        self.emitter.unpin();
        self.take_results(outcome, raised)
    }

    fn add_transfer(
        &mut self,
        list: &mut Vec<Transfer>,
        from: u8,
        to: u32,
    ) -> Result<(), NoMemory> {
        match self.emitter.place_of(to) {
            Location::Register(register) => {
                if register != from {
                    list.push(Transfer { from, to: register })?;
                }
                Ok(())
            }
            Location::Slot(word) => self.emitter.put_word(Op::Sts, from, word),
        }
    }

    /// Brings what a call gives in registers 0 to 3 to its places.
    fn take_results(
        &mut self,
        outcome: Option<u32>,
        raised: Option<Raised>,
    ) -> Result<(), NoMemory> {
        let mut transfers = Vec::new(self.emitter.alloc);
        if let Some(to) = outcome {
            self.add_transfer(&mut transfers, 0, to)?;
        }
        if let Some(raised) = raised {
            self.add_transfer(&mut transfers, 1, raised.exception)?;
            self.add_transfer(&mut transfers, 2, raised.number)?;
            self.add_transfer(&mut transfers, 3, raised.tidy)?;
        }
        self.transfer(&mut transfers)
    }

    /// Moves words between registers as if all were read first.
    fn transfer(&mut self, list: &mut Vec<Transfer>) -> Result<(), NoMemory> {
        for _ in 0..list.len() {
            let at = match ready(list) {
                Some(at) => at,
                None => {
                    self.set_aside(list)?;
                    0
                }
            };
            if at < list.len() {
                let item = list.remove(at);
                self.emitter.put_abc(Op::Move, item.to, item.from, 0)?;
            }
        }
        Ok(())
    }

    /// Breaks a ring of moves: what the first one overwrites comes from a register of its own from
    /// then on.
    fn set_aside(&mut self, list: &mut Vec<Transfer>) -> Result<(), NoMemory> {
        if let Some(first) = list.first().copied() {
            let register = self.emitter.high_scratch()?;
            self.emitter.put_abc(Op::Move, register, first.to, 0)?;
            for item in list.iter_mut() {
                if item.from == first.to {
                    item.from = register;
                }
            }
        }
        Ok(())
    }

    /// Puts operands into registers, as if all were read first.
    fn load_all(&mut self, goals: &[(u8, Operand)]) -> Result<(), NoMemory> {
        let mut transfers = Vec::new(self.emitter.alloc);
        for (to, operand) in goals {
            if let Operand::Temp(temp) = operand
                && let Location::Register(from) = self.emitter.place_of(*temp)
                && from != *to
            {
                transfers.push(Transfer { from, to: *to })?;
            }
        }
        self.transfer(&mut transfers)?;
        for (to, _operand) in goals {
            self.emitter.note(*to, Content::Nothing);
        }
        for (to, operand) in goals {
            let is_moved = match operand {
                Operand::Temp(temp) => {
                    matches!(self.emitter.place_of(*temp), Location::Register(register) if register < FIRST)
                }
                Operand::Number(_) => false,
            };
            if !is_moved {
                self.emitter.load_into(*to, *operand)?;
            }
        }
        Ok(())
    }

    /// Returns, with the result in register 0 and, where somebody may look for an exception, 0 in
    /// register 1.
    pub(crate) fn put_return(&mut self, value: Option<Operand>) -> Result<(), NoMemory> {
        if let Some(value) = value {
            self.emitter.load_into(0, value)?;
        }
        if !self.emitter.links.is_quiet {
            self.emitter.put_imm(Op::Li, 1, 0, 0)?;
        }
        self.emitter.put_abc(Op::Ret, 0, 0, 0)
    }

    /// Leaves by an exception, with its number and 1 more in register 1 and its arguments behind.
    pub(crate) fn put_raise(
        &mut self,
        exception: Operand,
        number: Operand,
        tidy: Operand,
    ) -> Result<(), NoMemory> {
        self.load_all(&[(1, exception), (2, number), (3, tidy)])?;
        self.emitter.put_abc(Op::Ret, 0, 0, 0)
    }
}

/// A move into a register from which no other one comes.
fn ready(list: &[Transfer]) -> Option<usize> {
    for (at, item) in list.iter().enumerate() {
        let mut is_ready = true;
        for other in list {
            if other.from == item.to {
                is_ready = false;
            }
        }
        if is_ready {
            return Some(at);
        }
    }
    None
}
