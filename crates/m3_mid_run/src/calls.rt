use crate::machine::{Activation, Machine, Stop};
use m3_mid::{Actual, Callee, Raised};
use m3_mid_memory::Word;

/// How a call is left.
#[derive(Clone, Copy)]
pub(crate) struct Left {
    pub result: Option<Word>,
    pub exception: u64,
    pub number: Word,
    pub tidy: Word,
}

impl<'a> Machine<'a> {
    /// A frame for a procedure with so many slots, all 0.
    pub(crate) fn new_frame(&mut self, slots: usize) -> Word {
        let part = self.memory.enter((slots as u64).saturating_add(3));
        self.made(part)
    }

    /// Goes on in an activation with so many temporaries, all 0.
    pub(crate) fn start(&mut self, activation: Activation, temps: usize) {
        let mut activation = activation;
        match vec![in self.alloc; Word::number(0); temps] {
            Ok(zeros) => activation.temps = zeros,
            Err(_) => return self.fail(Stop::NoMemory),
        }
        if self.stack.push(activation).is_err() {
            self.fail(Stop::NoMemory);
        }
    }

    /// The procedure that is called, and its environment.
    pub(crate) fn called(&mut self, callee: Callee, actuals: &[Actual]) -> (u32, Word) {
        let nowhere = Word::number(0);
        match callee {
            Callee::Outermost(procedure) => (procedure, nowhere),
            Callee::Inner {
                procedure,
                environment,
            } => (procedure, self.temp(environment)),
            Callee::Value { code, environment } => {
                let code = self.temp(code);
                (self.procedure_of(code), self.temp(environment))
            }
            Callee::Method(method) => (self.procedure_of_method(method, actuals), nowhere),
        }
    }

    /// The procedure that is a method of the object that is the first actual.
    fn procedure_of_method(&mut self, method: u32, actuals: &[Actual]) -> u32 {
        let Some(Actual::Word(object)) = actuals.first() else {
            self.stick("no object");
            return 0;
        };
        let object = self.operand(*object);
        let kind = self.type_of(object, "no object");
        let code = self.method(kind, method);
        self.procedure_of(Word::number(u64::from(code)))
    }

    /// The procedure that a word of a procedure value names.
    fn procedure_of(&mut self, code: Word) -> u32 {
        if let Some(code) = code.as_number()
            && let Some(number) = code.checked_sub(3)
            && let Ok(number) = u32::try_from(number)
        {
            return number;
        }
        self.stick("no procedure");
        0
    }

    pub(crate) fn pass_actuals(&mut self, at: Word, actuals: &[Actual]) {
        let mut to = at;
        for actual in actuals {
            to = self.pass(to, *actual);
        }
    }

    /// Passes an actual, and tells where the next one goes.
    fn pass(&mut self, to: Word, actual: Actual) -> Word {
        match actual {
            Actual::Word(operand) => {
                let word = self.operand(operand);
                self.store(to, word);
                to.further(1)
            }
            Actual::Slots { first, count } => {
                let from = self.slot(first);
                self.move_words(from, to, u64::from(count));
                to.further(u64::from(count))
            }
            Actual::Reference { address, base } => {
                let (address, base) = (self.temp(address), self.operand(base));
                self.store(to, address);
                self.store(to.further(1), base);
                to.further(2)
            }
        }
    }

    /// A new cell, with the sizes that stand in slots from one on.
    pub(crate) fn make(&mut self, cell: u32, sizes: Option<u32>) -> Word {
        let Some(kind) = self.types.get(cell as usize).copied() else {
            self.stick("no such type");
            return Word::number(0);
        };
        match sizes {
            Some(first) => self.make_open(cell, first, kind.words, kind.dims),
            None => {
                let part = self.memory.make(cell, kind.words);
                self.made(part)
            }
        }
    }

    fn make_open(&mut self, cell: u32, first: u32, words: u64, dims: u32) -> Word {
        let first = self.slot(first);
        let sizes = self.row(first, u64::from(dims));
        let mut words = words;
        for size in &sizes {
            words = words.saturating_mul(size.as_number().unwrap_or(0));
        }
        let head = u64::from(dims).wrapping_add(1);
        if self.is_over() {
            return Word::number(0);
        }
        let part = self.memory.make(cell, words.saturating_add(head));
        let made = self.made(part);
        self.put_row(made.further(1), sizes.as_slice());
        made
    }

    /// The procedure that runs returns.
    pub(crate) fn returned(&mut self, value: Option<Word>) {
        self.leave(Left {
            result: value,
            exception: 0,
            number: Word::number(0),
            tidy: Word::number(0),
        });
    }

    /// The procedure that runs is left. Its caller goes on behind the call.
    pub(crate) fn leave(&mut self, left: Left) {
        let Some(
            Activation {
                frame,
                result,
                raised,
                ..
            },
        ) = self.stack.pop()
        else {
            return;
        };
        if self.memory.leave(frame).is_err() {
            self.fail(Stop::NoMemory);
        }
        if !self.stack.is_empty() {
            self.give_result(result, left);
            self.give_exception(raised, left);
        } else if let Some(place) = left.exception.checked_sub(1) {
            self.fail(Stop::Uncaught(u32::try_from(place).unwrap_or(u32::MAX)));
        }
    }

    fn give_result(&mut self, to: Option<u32>, left: Left) {
        let Some(to) = to else {
            return;
        };
        match left.result {
            Some(word) => self.set(to, word),
            None if left.exception == 0 => self.stick("no result"),
            None => {}
        }
    }

    fn give_exception(&mut self, to: Option<Raised>, left: Left) {
        match to {
            Some(raised) => {
                self.set_number(raised.exception, left.exception);
                self.set(raised.number, left.number);
                self.set(raised.tidy, left.tidy);
            }
            None if left.exception == 0 => {}
            None => self.stick("an exception out of a call without one"),
        }
    }
}
