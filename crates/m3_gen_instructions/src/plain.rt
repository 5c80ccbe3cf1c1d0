use crate::emitter::{Emitter, Fold, imm_of};
use m3_base::NoMemory;
use m3_isa::{Instr, Op};
use m3_mid::{MemoryWord, MidOp, Operand, WordOperator};
use m3_tables::Location;

/// The instruction of an operator on words.
fn word_op(operator: WordOperator) -> Op {
    match operator {
        WordOperator::Add => Op::Add,
        WordOperator::Subtract => Op::Sub,
        WordOperator::Multiply => Op::Mul,
        WordOperator::And => Op::And,
        WordOperator::Or => Op::Or,
        WordOperator::Xor => Op::Xor,
        WordOperator::Shift => Op::Shf,
        WordOperator::Rotate => Op::Rot,
    }
}

/// A sum with a small number: the other operand, and the number.
fn small_sum(operator: WordOperator, left: Operand, right: Operand) -> Option<(Operand, i32)> {
    match (operator, left, right) {
        (WordOperator::Add, Operand::Temp(_), Operand::Number(value)) => {
            Some((left, i32::try_from(value).ok()?))
        }
        (WordOperator::Add, Operand::Number(value), Operand::Temp(_)) => {
            Some((right, i32::try_from(value).ok()?))
        }
        (WordOperator::Subtract, Operand::Temp(_), Operand::Number(value)) => {
            Some((left, i32::try_from(value.checked_neg()?).ok()?))
        }
        _ => None,
    }
}

/// The number of a slot's word in the frame.
pub fn word_of(slot: u32) -> u32 {
    slot.saturating_add(3)
}

impl<'a> Emitter<'a> {
    /// An instruction with two operands and a result.
    pub fn put_binary(
        &mut self,
        op: Op,
        to: u32,
        left: Operand,
        right: Operand,
    ) -> Result<(), NoMemory> {
        let b = self.operand(left)?;
        let c = self.operand(right)?;
        let goal = self.goal(to)?;
        self.put_abc(op, goal.register, b, c)?;
        self.settle(goal)
    }

    /// The sum of a register and a number; without an instruction where the number is 0 and the
    /// place is the same.
    fn put_sum(&mut self, to: u32, from: u8, by: i32) -> Result<(), NoMemory> {
        if by == 0 {
            return self.give(to, from);
        }
        let goal = self.goal(to)?;
        self.put_imm(Op::Addi, goal.register, from, by)?;
        self.settle(goal)
    }

    pub fn put_arith(
        &mut self,
        to: u32,
        operator: WordOperator,
        left: Operand,
        right: Operand,
    ) -> Result<(), NoMemory> {
        let shift = i64::from(self.shift_of(to));
        let is_shift = operator == WordOperator::Add
            && left == Operand::Temp(to)
            && right == Operand::Number(shift);
        if is_shift && shift != 0 {
            return Ok(());
        }
        if let Some((operand, by)) = small_sum(operator, left, right) {
            let from = self.operand(operand)?;
            return self.put_sum(to, from, by);
        }
        self.put_binary(word_op(operator), to, left, right)
    }

    /// An instruction whose result is a number of its own.
    pub fn put_address(&mut self, op: Op, to: u32, number: u32) -> Result<(), NoMemory> {
        let goal = self.goal(to)?;
        self.put_word(op, goal.register, number)?;
        self.settle(goal)
    }

    pub fn put_constant(&mut self, to: u32, value: i64) -> Result<(), NoMemory> {
        match self.place_of(to) {
            Location::Register(register) => self.put_number(register, value),
            Location::Slot(word) => {
                let register = self.number(value)?;
                self.put_word(Op::Sts, register, word)?;
                self.forget_word(word)
            }
        }
    }

    pub fn put_move(&mut self, to: u32, from: u32) -> Result<(), NoMemory> {
        let goal = self.place_of(to);
        if goal == self.place_of(from) {
            return Ok(());
        }
        match goal {
            Location::Register(register) => self.load_into(register, Operand::Temp(from)),
            Location::Slot(_) => {
                let register = self.temp(from)?;
                self.give(to, register)
            }
        }
    }

    /// The register and the number that make the address of a word in memory.
    fn address(&mut self, base: u32, offset: i32) -> Result<(u8, i32), NoMemory> {
        if let Some(fold) = self.fold
            && fold.temp == base
        {
            return Ok((fold.register, fold.offset));
        }
        let further = self.shift_of(base).saturating_add(offset);
        Ok((self.temp(base)?, further))
    }

    pub fn put_load(&mut self, to: u32, from: MemoryWord) -> Result<(), NoMemory> {
        match from {
            MemoryWord::Slot(slot) => {
                let word = word_of(slot);
                if self.place_of(to) == Location::Slot(word) {
                    return Ok(());
                }
                self.put_address(Op::Lds, to, word)
            }
            MemoryWord::Environment => self.put_address(Op::Lds, to, 2),
            MemoryWord::Global(word) => {
                let base = self.globals()?;
                self.put_indirect(to, base, imm_of(word)?)
            }
            MemoryWord::At { base, offset } => {
                let (register, offset) = self.address(base, offset)?;
                self.put_indirect(to, register, offset)
            }
        }
    }

    fn put_indirect(&mut self, to: u32, base: u8, offset: i32) -> Result<(), NoMemory> {
        let goal = self.goal(to)?;
        self.put_imm(Op::Ld, goal.register, base, offset)?;
        self.settle(goal)
    }

    pub fn put_store(&mut self, at: MemoryWord, from: Operand) -> Result<(), NoMemory> {
        let register = self.operand(from)?;
        match at {
            MemoryWord::Slot(slot) => {
                let word = word_of(slot);
                self.forget_word(word)?;
                self.put_word(Op::Sts, register, word)
            }
            MemoryWord::Environment => self.put_word(Op::Sts, register, 2),
            MemoryWord::Global(word) => {
                let base = self.globals()?;
                let offset = imm_of(word)?;
                self.put_imm(Op::St, register, base, offset)
            }
            MemoryWord::At { base, offset } => {
                let (base, offset) = self.address(base, offset)?;
                self.put_imm(Op::St, register, base, offset)
            }
        }
    }

    /// The index times the words of an element.
    fn put_product(&mut self, index: Operand, words: u64) -> Result<u8, NoMemory> {
        let factor = self.operand(index)?;
        if words == 1 {
            return Ok(factor);
        }
        if words == 2 {
            let sum = self.scratch()?;
            self.put_abc(Op::Add, sum, factor, factor)?;
            self.unpin_register(factor);
            return Ok(sum);
        }
        let by = self.number(words.cast_signed())?;
        let product = self.scratch()?;
        self.put_abc(Op::Mul, product, factor, by)?;
        self.unpin_register(factor);
        self.unpin_register(by);
        Ok(product)
    }

    /// Whether the next operation alone uses an address, as that of the word that it loads or
    /// stores: then by how much it goes on from there.
    fn folded_offset(&self, to: u32, next: Option<MidOp<'a>>) -> Option<i32> {
        if self.counts.get(to as usize).copied() != Some(1) {
            return None;
        }
        match next {
            Some(
                MidOp::Load {
                    to: _,
                    from: MemoryWord::At { base, offset },
                },
            )
            | Some(
                MidOp::Store {
                    at: MemoryWord::At { base, offset },
                    from: _,
                },
            ) if base == to => Some(offset),
            _ => None,
        }
    }

    /// An address in an array.
    pub fn put_index(
        &mut self,
        to_array: (u32, u32),
        index: Operand,
        words: u64,
        offset: i64,
        next: Option<MidOp<'a>>,
    ) -> Result<(), NoMemory> {
        let (to, array) = to_array;
        let offset = offset.wrapping_add(i64::from(self.shift_of(array)));
        if let Operand::Number(value) = index {
            let sum = value.wrapping_mul(words.cast_signed()).wrapping_add(offset);
            let from = self.temp(array)?;
            if self.fold_next(to, from, sum, next) {
                return Ok(());
            }
            return self.put_far_sum(to, from, sum);
        }
        let product = self.put_product(index, words)?;
        let from = self.temp(array)?;
        if self.folded_sum(to, offset, next).is_some() {
            let sum = self.scratch()?;
            self.put_abc(Op::Add, sum, from, product)?;
            let _folded = self.fold_next(to, sum, offset, next);
            return Ok(());
        }
        let offset = offset.wrapping_sub(i64::from(self.shift_of(to)));
        let by = match i32::try_from(offset) {
            Ok(_) => 0,
            Err(_) => self.number(offset)?,
        };
        let goal = self.goal(to)?;
        self.put_abc(Op::Add, goal.register, from, product)?;
        match i32::try_from(offset) {
            Ok(0) => {}
            Ok(imm) => self.put_imm(Op::Addi, goal.register, goal.register, imm)?,
            Err(_) => self.put_abc(Op::Add, goal.register, goal.register, by)?,
        }
        self.settle(goal)
    }

    /// The sum of a register and a number of any size.
    fn put_far_sum(&mut self, to: u32, from: u8, by: i64) -> Result<(), NoMemory> {
        if let Ok(imm) = i32::try_from(by) {
            return self.put_sum(to, from, imm);
        }
        let c = self.number(by)?;
        let goal = self.goal(to)?;
        self.put_abc(Op::Add, goal.register, from, c)?;
        self.settle(goal)
    }

    /// The distance to the word that the next operation loads or stores, where it can take it.
    fn folded_sum(&self, to: u32, offset: i64, next: Option<MidOp<'a>>) -> Option<i32> {
        match (self.folded_offset(to, next), i32::try_from(offset)) {
            (Some(further), Ok(first)) => first.checked_add(further),
            _ => None,
        }
    }

    /// Leaves a sum to the next operation, where it can take it.
    fn fold_next(&mut self, to: u32, register: u8, offset: i64, next: Option<MidOp<'a>>) -> bool {
        match self.folded_sum(to, offset, next) {
            Some(offset) => {
                self.fold = Some(Fold {
                    temp: to,
                    register,
                    offset,
                });
                true
            }
            None => false,
        }
    }

    pub fn put_copy(
        &mut self,
        to_address: u32,
        from_address: u32,
        words: Operand,
    ) -> Result<(), NoMemory> {
        let a = self.temp(to_address)?;
        let b = self.temp(from_address)?;
        let c = self.operand(words)?;
        self.put_abc(Op::Copy, a, b, c)
    }

    pub fn put_fill(&mut self, at: u32, words: Operand, distance: Operand) -> Result<(), NoMemory> {
        let a = self.temp(at)?;
        let b = self.operand(words)?;
        let c = self.operand(distance)?;
        self.put_abc(Op::Fill, a, b, c)
    }

    /// EQW has its count in the register of its result.
    pub fn put_equal_words(
        &mut self,
        to: u32,
        left: u32,
        right: u32,
        words: Operand,
    ) -> Result<(), NoMemory> {
        let b = self.temp(left)?;
        let c = self.temp(right)?;
        let count = self.scratch()?;
        self.load_into(count, words)?;
        self.put_abc(Op::Eqw, count, b, c)?;
        self.give(to, count)
    }

    /// An instruction with an operand, a number and a result.
    pub fn put_test(&mut self, op: Op, to: u32, from: u32, number: u32) -> Result<(), NoMemory> {
        let b = self.temp(from)?;
        let goal = self.goal(to)?;
        let imm = imm_of(number)?;
        self.put(Instr {
            op,
            a: goal.register,
            b,
            c: 0,
            imm,
        })?;
        self.settle(goal)
    }
}
