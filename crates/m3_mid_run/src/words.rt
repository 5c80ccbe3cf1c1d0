use crate::calls::Left;
use crate::machine::{Machine, Stop};
use m3_base::Pos;
use m3_mid::{CheckedOperator, End, MemoryWord, Operand, Relation, WordOperator};
use m3_mid_meaning::checked_value;
use m3_mid_memory::{CONSTANTS, Word, combined, holds};

impl<'a> Machine<'a> {
    /// What an operator makes of two operands.
    pub(crate) fn combined(
        &mut self,
        operator: WordOperator,
        left: Operand,
        right: Operand,
    ) -> Word {
        let (left, right) = (self.operand(left), self.operand(right));
        match combined(operator, left, right) {
            Some(word) => word,
            None => {
                self.stick("no such sum");
                Word::number(0)
            }
        }
    }

    /// What an operator makes of two numbers, if it doesn't fault.
    pub(crate) fn checked(
        &mut self,
        operator: CheckedOperator,
        left: Operand,
        right: Operand,
        pos: Pos,
    ) -> u64 {
        let (left, right) = (self.number(left), self.number(right));
        match checked_value(operator, left, right) {
            Ok(number) => number,
            Err(kind) => {
                self.fail(Stop::Fault(kind, pos));
                0
            }
        }
    }

    /// Whether a relation holds between two operands.
    pub(crate) fn holds(&mut self, relation: Relation, left: Operand, right: Operand) -> bool {
        let (left, right) = (self.operand(left), self.operand(right));
        match holds(relation, left, right) {
            Some(is_true) => is_true,
            None => {
                self.stick("pointers that are ordered");
                false
            }
        }
    }

    /// The address of a word of memory.
    pub(crate) fn memory_word(&mut self, word: MemoryWord) -> Word {
        match word {
            MemoryWord::Slot(slot) => self.slot(slot),
            MemoryWord::Environment => self.frame().further(2),
            MemoryWord::Global(word) => Word::global(word),
            MemoryWord::At { base, offset } => self
                .temp(base)
                .further(i64::from(offset).cast_unsigned()),
        }
    }

    /// The number under which a constant stands, by where it starts among all constants.
    pub(crate) fn constant(&mut self, starts: &[u32], place: u32) -> u64 {
        match starts.get(place as usize) {
            Some(start) => CONSTANTS.wrapping_add(u64::from(*start)),
            None => {
                self.stick("no such constant");
                0
            }
        }
    }

    /// The type of the cell that a temporary points to.
    pub(crate) fn type_at(&mut self, temp: u32) -> u32 {
        let cell = self.temp(temp);
        self.type_of(cell, "no cell")
    }

    /// Whether a type of cells is another one or has it among its parents.
    pub(crate) fn is_below(&self, kind: u32, tested: u32) -> bool {
        let mut at = kind;
        for _ in self.types {
            if at == tested {
                return true;
            }
            match self.parent(at) {
                Some(parent) => at = parent,
                None => return false,
            }
        }
        false
    }

    fn parent(&self, kind: u32) -> Option<u32> {
        match self.types.get(kind as usize) {
            Some(kind) => kind.parent,
            None => None,
        }
    }

    /// The byte of a text at a place.
    pub(crate) fn text_byte(&mut self, text: u32, index: Operand) -> u64 {
        let text = self.temp(text);
        let index = self.number(index);
        match self.memory.byte(text, index) {
            Some(byte) => u64::from(byte),
            None => {
                self.stick("a byte of no text");
                0
            }
        }
    }

    /// Whether two texts have the same bytes.
    pub(crate) fn are_equal_texts(&mut self, left: u32, right: u32) -> bool {
        let (left, right) = (self.temp(left), self.temp(right));
        let (left, right) = (self.text(left), self.text(right));
        left.as_slice() == right.as_slice()
    }

    /// Whether so many words from one address on are those from another one on.
    pub(crate) fn are_equal_words(&mut self, left: u32, right: u32, words: Operand) -> bool {
        let (left, right) = (self.temp(left), self.temp(right));
        let words = self.number(words);
        let (left, right) = (self.row(left, words), self.row(right, words));
        left.as_slice() == right.as_slice()
    }

    /// The words from an address on.
    pub(crate) fn row(&mut self, from: Word, words: u64) -> Vec<Word> {
        let mut row = Vec::new(self.alloc);
        for place in 0..words {
            let word = self.load(from.further(place));
            if row.push(word).is_err() {
                self.fail(Stop::NoMemory);
            }
            if self.is_over() {
                break;
            }
        }
        row
    }

    pub(crate) fn put_row(&mut self, to: Word, row: &[Word]) {
        for (place, word) in row.iter().enumerate() {
            self.store(to.further(place as u64), *word);
        }
    }

    /// Moves so many words one after the other, from one address on to another one on.
    pub(crate) fn move_words(&mut self, from: Word, to: Word, words: u64) {
        for place in 0..words {
            let word = self.load(from.further(place));
            self.store(to.further(place), word);
            if self.is_over() {
                break;
            }
        }
    }

    /// Goes on behind a block, by its end.
    pub(crate) fn end_block(&mut self, end: End) {
        match end {
            End::Goto(block) => self.go_on(block, 0),
            End::If {
                relation,
                left,
                right,
                yes,
                no,
            } => {
                let is_true = self.holds(relation, left, right);
                self.go_on(if is_true { yes } else { no }, 0);
            }
            End::Return { value } => {
                let word = match value {
                    Some(value) => Some(self.operand(value)),
                    None => None,
                };
                self.returned(word);
            }
            End::FaultAt { kind, pos } => self.fail(Stop::Fault(kind, pos)),
            End::Raise {
                exception,
                number,
                tidy,
            } => {
                let exception = self.number(exception);
                let number = self.operand(number);
                let tidy = self.operand(tidy);
                self.leave(Left {
                    result: None,
                    exception,
                    number,
                    tidy,
                });
            }
        }
    }
}
